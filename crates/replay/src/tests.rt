use crate::play::{report_text, write_report};
use std::alloc::{AllocError, Global};
use std::io::Write;
use std::test::Fail;

fn push(bytes: &mut Vec<u8>, fields: &[(usize, u64)]) -> Result<(), AllocError> {
    for (width, value) in fields {
        bytes.extend_from_slice(&value.to_le_bytes()[..(*width).min(8)])?;
    }
    Ok(())
}

// A day of one contract: a deposit of 5 hao, and one of none.
fn day(heap: Global) -> Result<Vec<u8>, AllocError> {
    let mut bytes = Vec::new(heap);
    push(
        &mut bytes,
        &[(4, 24), (4, 20), (4, 44), (4, 32), (4, 76), (4, 48)],
    )?;
    push(
        &mut bytes,
        &[
            (1, 1),
            (1, 0),
            (1, 0),
            (1, 63),
            (4, 1),
            (8, 1_000),
            (2, 100),
            (2, 0),
        ],
    )?;
    push(
        &mut bytes,
        &[(4, 90_000_001), (4, 900_001), (2, 140), (1, 1), (1, 1)],
    )?;
    push(
        &mut bytes,
        &[(4, 10_000), (4, 42_000), (4, 500), (4, 40_000), (4, 1)],
    )?;
    push(
        &mut bytes,
        &[
            (1, 1),
            (1, 0),
            (1, 0),
            (1, 0),
            (4, 0),
            (4, 0),
            (4, 0),
            (8, 5),
        ],
    )?;
    push(
        &mut bytes,
        &[
            (1, 1),
            (1, 0),
            (1, 0),
            (1, 0),
            (4, 0),
            (4, 0),
            (4, 0),
            (8, 0),
        ],
    )?;
    Ok(bytes)
}

#[test]
fn lines_are_written_behind_what_stood_there(rt: HostRuntime) -> Result<(), Fail> {
    let bytes = day(rt.alloc())?;
    let mut text = Vec::new(rt.alloc());
    text.writeln("before")?;
    write_report(&mut text, bytes.as_slice())?;
    let expected =
        "before\nday 100 contracts 1 balance 1000\n1 deposit taken 0 1005\n2 deposit refused 10 1005\nend 1005 0 0 1005\n";
    assert!(rt; text.as_slice() == expected.as_bytes());
    Ok(())
}

#[test]
fn a_fault_is_one_line(rt: HostRuntime) -> Result<(), Fail> {
    let mut text = Vec::new(rt.alloc());
    write_report(&mut text, &[])?;
    assert!(rt; text.as_slice() == "fault 1 section 0 record 0 place 0\n".as_bytes());
    let same = report_text(rt.alloc(), &[])?;
    assert!(rt; text.as_slice() == same.as_slice());
    Ok(())
}
