//! The sweep: lists that ascend and lists that don't, and the pairs that it compares.

use std::test::Fail;
use volume4d::{Held, Meeting, Slab, first_meeting, first_meeting_counted};

// The first of June 2026, noon and one o'clock, as Unix seconds.
const NOON: i64 = 1_780_315_200;

const ONE: i64 = 1_780_318_800;

// The leaves at some positions, from the ground to 100 m, from noon to one.
fn slab(first: u16, last: u16) -> Slab {
    Slab {
        first: u64::from(first),
        last: u64::from(last),
        lower: 0,
        upper: 1_000,
        start: NOON,
        end: ONE,
    }
}

// The same leaves as held with a priority.
fn held(first: u16, last: u16, priority: u32) -> Held {
    Held {
        slab: slab(first, last),
        priority,
    }
}

// Whatever their order, the lists first share position 24.
#[test]
fn meets_alike_in_any_order(rt: HostRuntime) -> Result<(), Fail> {
    let first = Some(Meeting {
        pos: 24,
        altitude: 0,
        second: NOON,
        priority: 1,
    });
    let mine = [slab(40, 49), slab(0, 9), slab(20, 29)];
    let theirs = [
        held(45, 60, 9),
        held(25, 25, 3),
        held(10, 15, 8),
        held(24, 41, 1),
    ];
    assert_eq!(rt; first_meeting(&mine, &theirs), first);
    let mine = [slab(0, 9), slab(20, 29), slab(40, 49)];
    let theirs = [
        held(10, 15, 8),
        held(24, 41, 1),
        held(25, 25, 3),
        held(45, 60, 9),
    ];
    assert_eq!(rt; first_meeting(&mine, &theirs), first);
    Ok(())
}

// One slab against a thousand that follow each other: the sweep stops behind the first.
#[test]
fn compares_few_pairs(rt: HostRuntime) -> Result<(), Fail> {
    let mut theirs = Vec::new(rt.alloc());
    for position in 0..1_000 {
        theirs.push(held(position, position, 1))?;
    }
    let (first, pairs) = first_meeting_counted(&[slab(0, 0)], &theirs);
    assert_eq!(rt; first.is_some(), true);
    assert_eq!(rt; pairs <= 10, true);
    Ok(())
}
