// Day files, sound and damaged, judged by the reader.
#![tactic(auto)]

#[cfg(test)]
mod tests {
    use dayfile::fault::Fault;
    use dayfile::file::{DayFile, DayFileView};
    use ledger::call::Call;
    use std::alloc::{AllocError, Global};
    use std::test::Fail;

    // Where the sections of the sample stand: settings, two contracts, one call of each of the eleven kinds.
    const CONTRACTS: usize = 44;

    const CALLS: usize = 108;

    // Fields as width and value.
    const SETTINGS: [(usize, u64); 8] = [
        (1, 1),
        (1, 0),
        (1, 0),
        (1, 63),
        (4, 1),
        (8, 100_000_000),
        (2, 100),
        (2, 0),
    ];

    const CONTRACT: [(usize, u64); 10] = [
        (4, 90_000_001),
        (4, 900_001),
        (2, 140),
        (1, 1),
        (1, 2),
        (4, 10_000),
        (4, 42_000),
        (4, 500),
        (4, 40_000),
        (4, 0),
    ];

    // The fields of a call's record behind its number, as place in the record and width.
    const ARGUMENTS: [(usize, usize); 7] = [
        (1, 1),
        (2, 1),
        (3, 1),
        (4, 4),
        (8, 4),
        (12, 4),
        (16, 8),
    ];

    // Whether a call names account, strategy, spare, A, B, lots and amount, from call 1 on.
    const NAMED: [[bool; 7]; 11] = [
        [false, false, false, false, false, false, true],
        [false, false, false, false, false, false, true],
        [true, false, false, true, false, true, true],
        [true, false, false, true, false, true, true],
        [true, false, false, true, false, true, true],
        [true, false, false, true, false, true, true],
        [false, false, false, true, true, true, true],
        [false, false, false, true, false, true, true],
        [false, false, false, true, false, false, false],
        [true, true, false, true, true, true, false],
        [false, false, false, true, false, true, false],
    ];

    // One field of the sample changed (place, width, value), and the fault told then, if any: number, section, record, place.
    const DAMAGES: [((usize, usize, u64), Option<[usize; 4]>); 70] = [
        ((0, 4, 23), Some([2, 1, 0, 0])),
        ((8, 4, 43), Some([2, 2, 0, 8])),
        ((16, 4, 107), Some([2, 3, 0, 16])),
        ((20, 4, 265), Some([2, 3, 0, 16])),
        ((20, 4, 4_294_967_295), Some([2, 3, 0, 16])),
        ((16, 4, 4_294_967_295), Some([2, 3, 0, 16])),
        ((4, 4, 21), Some([2, 2, 0, 8])),
        ((4, 4, 19), Some([3, 1, 0, 4])),
        ((4, 4, 0), Some([3, 1, 0, 4])),
        ((12, 4, 0), Some([3, 2, 0, 12])),
        ((12, 4, 31), Some([3, 2, 0, 12])),
        ((12, 4, 32), None),
        ((12, 4, 63), Some([3, 2, 0, 12])),
        ((12, 4, 65), Some([2, 3, 0, 16])),
        ((20, 4, 0), None),
        ((20, 4, 24), None),
        ((20, 4, 263), Some([3, 3, 0, 20])),
        ((24, 1, 0), Some([4, 1, 1, 24])),
        ((24, 1, 2), None),
        ((24, 1, 3), Some([4, 1, 1, 24])),
        ((25, 1, 100), None),
        ((25, 1, 101), Some([4, 1, 1, 25])),
        ((26, 1, 100), None),
        ((26, 1, 101), Some([4, 1, 1, 26])),
        ((27, 1, 0), None),
        ((27, 1, 64), Some([4, 1, 1, 27])),
        ((28, 4, 0), Some([4, 1, 1, 28])),
        ((28, 4, 4_294_967_295), None),
        ((32, 8, 0), None),
        ((32, 8, 10_000_000_000_000_000), None),
        ((32, 8, 10_000_000_000_000_001), Some([4, 1, 1, 32])),
        ((40, 2, 0), Some([4, 1, 1, 40])),
        ((40, 2, 1), None),
        ((40, 2, 140), None),
        ((40, 2, 141), Some([4, 2, 1, 52])),
        ((42, 2, 1), Some([7, 1, 1, 42])),
        ((42, 2, 256), Some([7, 1, 1, 42])),
        ((44, 4, 9_999_999), Some([4, 2, 1, 44])),
        ((44, 4, 10_000_000), None),
        ((44, 4, 90_000_002), Some([5, 2, 2, 76])),
        ((76, 4, 90_000_000), Some([5, 2, 2, 76])),
        ((76, 4, 99_999_999), None),
        ((76, 4, 100_000_000), Some([4, 2, 2, 76])),
        ((48, 4, 0), Some([4, 2, 1, 48])),
        ((48, 4, 1), None),
        ((48, 4, 999_999), None),
        ((48, 4, 1_000_000), Some([4, 2, 1, 48])),
        ((52, 2, 99), Some([4, 2, 1, 52])),
        ((52, 2, 100), None),
        ((84, 2, 65_535), None),
        ((54, 1, 0), Some([4, 2, 1, 54])),
        ((54, 1, 3), Some([4, 2, 1, 54])),
        ((55, 1, 0), Some([4, 2, 1, 55])),
        ((55, 1, 3), Some([4, 2, 1, 55])),
        ((55, 1, 1), Some([6, 2, 2, 80])),
        ((87, 1, 1), Some([6, 2, 2, 80])),
        ((56, 4, 0), Some([4, 2, 1, 56])),
        ((56, 4, 1), None),
        ((56, 4, 1_000_000), None),
        ((56, 4, 1_000_001), Some([4, 2, 1, 56])),
        ((60, 4, 0), Some([4, 2, 1, 60])),
        ((60, 4, 10_000_000), None),
        ((60, 4, 10_000_001), Some([4, 2, 1, 60])),
        ((64, 4, 0), Some([4, 2, 1, 64])),
        ((64, 4, 10_000_001), Some([4, 2, 1, 64])),
        ((68, 4, 0), Some([4, 2, 1, 68])),
        ((68, 4, 10_000_001), Some([4, 2, 1, 68])),
        ((100, 4, 40_001), Some([6, 2, 2, 80])),
        ((104, 4, 4_294_967_295), None),
        ((108, 1, 0), Some([4, 3, 1, 108])),
    ];

    fn push(bytes: &mut Vec<u8>, fields: &[(usize, u64)]) -> Result<(), AllocError> {
        for (width, value) in fields {
            bytes.extend_from_slice(&value.to_le_bytes()[..(*width).min(8)])?;
        }
        Ok(())
    }

    // Writes a number over the bytes at a place.
    fn put(bytes: &mut [u8], place: usize, width: usize, value: u64) {
        let new = value.to_le_bytes();
        for (byte, new) in bytes.iter_mut().skip(place).take(width).zip(&new) {
            *byte = *new;
        }
    }

    // A file of `gap` bytes before each section, as many contracts under rising codes, and one call of each of the first kinds.
    fn packed(heap: Global, gap: u8, contracts: u8, calls: u8) -> Result<Vec<u8>, AllocError> {
        let mut bytes = Vec::new(heap);
        let gap = u64::from(gap);
        let contracts = u64::from(contracts);
        let calls = u64::from(calls);
        let first = 24 + gap;
        let second = first + 20 + gap;
        let third = second + 32 * contracts + gap;
        push(
            &mut bytes,
            &[
                (4, first),
                (4, 20),
                (4, second),
                (4, 32 * contracts),
                (4, third),
                (4, 24 * calls),
            ],
        )?;
        push(&mut bytes, &[(gap as usize, 255)])?;
        push(&mut bytes, &SETTINGS)?;
        push(&mut bytes, &[(gap as usize, 255)])?;
        for k in 0..contracts {
            push(&mut bytes, &[(4, 90_000_001 + k)])?;
            push(&mut bytes, &CONTRACT[1..10])?;
        }
        push(&mut bytes, &[(gap as usize, 255)])?;
        for k in 0..calls {
            push(&mut bytes, &[(1, k + 1), (8, 0), (8, 0), (7, 0)])?;
        }
        Ok(bytes)
    }

    fn judged(bytes: &[u8]) -> Option<[usize; 4]> {
        let fault = Fault::from(DayFile::read(bytes).err()?);
        Some([
            usize::from(fault.number),
            usize::from(fault.section),
            fault.ordinal,
            fault.place,
        ])
    }

    #[test]
    fn each_field_has_its_range(rt: HostRuntime) -> Result<(), Fail> {
        for ((place, width, value), told) in &DAMAGES {
            let mut bytes = packed(rt.alloc(), 0, 2, 11)?;
            put(&mut bytes, *place, *width, *value);
            assert_eq!(rt; judged(&bytes), *told);
        }
        Ok(())
    }

    #[test]
    fn what_a_call_does_not_name_is_nought(rt: HostRuntime) -> Result<(), Fail> {
        for (k, named) in NAMED.iter().enumerate() {
            for ((at, width), is_named) in ARGUMENTS.iter().zip(named.iter()) {
                let mut bytes = packed(rt.alloc(), 0, 2, 11)?;
                let place = (CALLS + 24 * k).saturating_add(*at);
                put(&mut bytes, place, *width, 255);
                let told = if *is_named {
                    None
                } else {
                    Some([7, 3, k + 1, place])
                };
                assert_eq!(rt; judged(&bytes), told);
            }
        }
        let mut bytes = packed(rt.alloc(), 0, 2, 11)?;
        put(&mut bytes, CALLS + 24 * 10, 1, 12);
        assert_eq!(rt; judged(&bytes), Some([4, 3, 11, 348]));
        Ok(())
    }

    #[test]
    fn the_first_fault_is_told(rt: HostRuntime) -> Result<(), Fail> {
        let mut bytes = packed(rt.alloc(), 0, 2, 11)?;
        put(&mut bytes, CALLS, 1, 0);
        put(&mut bytes, CONTRACTS + 32, 4, 90_000_001);
        assert_eq!(rt; judged(&bytes), Some([5, 2, 2, 76]));
        put(&mut bytes, CONTRACTS + 32 + 11, 1, 1);
        assert_eq!(rt; judged(&bytes), Some([5, 2, 2, 76]));
        put(&mut bytes, CONTRACTS + 32 + 28, 4, 0);
        put(&mut bytes, CONTRACTS + 32 + 24, 4, 0);
        assert_eq!(rt; judged(&bytes), Some([4, 2, 2, 100]));
        put(&mut bytes, 42, 1, 1);
        assert_eq!(rt; judged(&bytes), Some([7, 1, 1, 42]));
        put(&mut bytes, 20, 4, 25);
        assert_eq!(rt; judged(&bytes), Some([3, 3, 0, 20]));
        put(&mut bytes, 8, 4, 30);
        assert_eq!(rt; judged(&bytes), Some([2, 2, 0, 8]));
        Ok(())
    }

    #[test]
    fn sections_may_touch_or_leave_gaps(rt: HostRuntime) -> Result<(), Fail> {
        assert_eq!(rt; judged(&packed(rt.alloc(), 0, 1, 0)?), None);
        assert_eq!(rt; judged(&packed(rt.alloc(), 5, 1, 0)?), None);
        assert_eq!(rt; judged(&packed(rt.alloc(), 7, 64, 11)?), None);
        assert_eq!(rt; judged(&packed(rt.alloc(), 0, 65, 0)?), Some([3, 2, 0, 12]));
        assert_eq!(rt; judged(&packed(rt.alloc(), 0, 0, 0)?), Some([3, 2, 0, 12]));
        Ok(())
    }

    #[test]
    fn a_file_has_its_size(rt: HostRuntime) -> Result<(), Fail> {
        assert_eq!(rt; judged(&[]), Some([1, 0, 0, 0]));
        assert_eq!(rt; judged(&[0; 23]), Some([1, 0, 0, 0]));
        assert_eq!(rt; judged(&[0; 24]), Some([2, 1, 0, 0]));
        let mut bytes = packed(rt.alloc(), 0, 2, 11)?;
        bytes.resize(60_000, 255)?;
        assert_eq!(rt; judged(&bytes), None);
        bytes.push(255)?;
        assert_eq!(rt; judged(&bytes), Some([1, 0, 0, 0]));
        Ok(())
    }

    #[test]
    fn a_sound_file_says_what_stands_there(rt: HostRuntime) -> Result<(), Fail> {
        let mut bytes = packed(rt.alloc(), 3, 2, 11)?;
        let last = bytes.len().saturating_sub(24);
        put(&mut bytes, last + 4, 4, 77);
        put(&mut bytes, last + 12, 4, 5);
        let Ok(file) = DayFile::read(&bytes) else {
            return Err(Fail::new("a fault"));
        };
        assert_eq!(rt; file.settings().day, 100);
        assert_eq!(rt; file.settings().opening, 100_000_000);
        let contracts = file.listing().contracts();
        assert!(rt; contracts.len() == 2);
        assert_eq!(rt; contracts[1].code, 90_000_002);
        assert_eq!(rt; contracts[1].strike, 42_000);
        assert_eq!(rt; file.call_count(), 11);
        assert!(rt;
            matches!(
                file.call(&bytes, 10),
                Some(Call::Release {
                    combination: 77,
                    lots: 5
                })
            )
        );
        assert!(rt; matches!(file.call(&bytes, 0), Some(Call::Deposit { amount: 0 })));
        assert!(rt; file.call(&bytes, 11).is_none());
        assert!(rt; file.call(&[], 0).is_none());
        assert_eq!(rt; file.calls(&bytes).count(), 11);
        assert_eq!(rt; file.calls(&[]).count(), 0);
        Ok(())
    }

    #[test]
    fn a_view_hands_out_its_calls(rt: HostRuntime) -> Result<(), Fail> {
        let mut bytes = packed(rt.alloc(), 3, 2, 11)?;
        let last = bytes.len().saturating_sub(24);
        put(&mut bytes, last + 4, 4, 77);
        put(&mut bytes, last + 12, 4, 5);
        let Ok(view) = DayFileView::read(&bytes) else {
            return Err(Fail::new("a fault"));
        };
        assert_eq!(rt; view.file().settings().day, 100);
        assert_eq!(rt; view.file().call_count(), 11);
        assert_eq!(rt; view.calls().count(), 11);
        assert!(rt; matches!(view.calls().next(), Some(Call::Deposit { amount: 0 })));
        assert!(rt;
            matches!(
                view.calls().last(),
                Some(Call::Release {
                    combination: 77,
                    lots: 5
                })
            )
        );
        for (k, call) in view.calls().enumerate() {
            assert_eq!(rt; usize::from(call.number()), k + 1);
        }
        Ok(())
    }

    #[test]
    fn a_view_tells_the_same_fault(rt: HostRuntime) -> Result<(), Fail> {
        let mut bytes = packed(rt.alloc(), 0, 2, 11)?;
        assert!(rt; DayFileView::read(&bytes).is_ok());
        put(&mut bytes, CALLS, 1, 0);
        let Err(fault) = DayFileView::read(&bytes) else {
            return Err(Fail::new("no fault"));
        };
        let fault = Fault::from(fault);
        assert_eq!(rt; usize::from(fault.number), 4);
        assert_eq!(rt; usize::from(fault.section), 3);
        assert_eq!(rt; fault.ordinal, 1);
        assert_eq!(rt; fault.place, CALLS);
        Ok(())
    }
}
