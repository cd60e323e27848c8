// Full rows, the last number, equal numbers, and no rows at all.
use crate::refusal::RegisterRefusal::{NoFreeRow, NotStanding, NumbersUsedUp};
use crate::*;
use std::process::Abort;

const FREE_ROW: Row<u8> = Row {
    number: FREE,
    entry: 0,
};

fn fill(rt: &impl Abort, rows: &mut [Row<u8>], series: &mut Series) {
    for entry in 1..=64 {
        assert_eq!(rt; add(rows, series, entry), Ok(u32::from(entry)));
    }
}

#[test]
fn a_freed_row_is_taken_again(rt: HostRuntime) {
    let mut rows = [FREE_ROW; 64];
    let mut series = Series::after(0);
    fill(&rt, &mut rows, &mut series);
    assert_eq!(rt; add(&mut rows, &mut series, 65), Err(NoFreeRow));
    assert_eq!(rt; remove(&mut rows, 32), Ok(()));
    assert_eq!(rt; find(&rows, 32), None);
    assert_eq!(rt; add(&mut rows, &mut series, 65), Ok(65));
    assert_eq!(rt; rows[31].number, 65);
    assert_eq!(rt; find(&rows, 65), Some(65));
    assert_eq!(rt; series.next(), 66);
}

#[test]
fn numbers_are_used_up(rt: HostRuntime) {
    let mut rows = [FREE_ROW; 2];
    let mut series = Series::after(4_294_967_294);
    assert_eq!(rt; add(&mut rows, &mut series, 1), Ok(4_294_967_295));
    assert_eq!(rt; find(&rows, 4_294_967_295), Some(1));
    assert_eq!(rt; add(&mut rows, &mut series, 2), Err(NumbersUsedUp));
    assert_eq!(rt;
        add(&mut rows[0..1], &mut series, 2),
        Err(NoFreeRow),
        "full rows come first"
    );
}

#[test]
fn the_earliest_of_equal_numbers_counts(rt: HostRuntime) {
    let mut rows = [
        Row {
            number: 7,
            entry: 1,
        },
        Row {
            number: 7,
            entry: 2,
        },
    ];
    assert_eq!(rt; change(&mut rows, 7, 3), Ok(()));
    assert_eq!(rt; find(&rows, 7), Some(3));
    assert_eq!(rt; remove(&mut rows, 7), Ok(()));
    assert_eq!(rt; find(&rows, 7), Some(2));
    assert_eq!(rt; change(&mut rows, FREE, 4), Err(NotStanding));
    assert_eq!(rt; rows[0].entry, 3);
}

#[test]
fn no_rows(rt: HostRuntime) {
    let mut rows: [Row<u8>; 0] = [];
    let mut series = Series::after(0);
    assert_eq!(rt; find(&rows, 1), None);
    assert_eq!(rt; change(&mut rows, 1, 0), Err(NotStanding));
    assert_eq!(rt; remove(&mut rows, 1), Err(NotStanding));
    assert_eq!(rt; add(&mut rows, &mut series, 0), Err(NoFreeRow));
    assert_eq!(rt; series.next(), 1);
}
