//! Entries of the table of four levels of the curve, worked out by hand.

use s2_hilbert::{Leaf, leaf_at, position};
use std::test::Fail;

// A leaf of the face with this turn: two levels along (0, 0), which keep the turn, then four along a point,
// four along the next, and the others along (0, 0).
fn leaf_along(turn: u8, point: (u8, u8), next: (u8, u8)) -> Option<Leaf> {
    Leaf::try_new(
        turn,
        u32::from(point.0) << 24 | u32::from(next.0) << 20,
        u32::from(point.1) << 24 | u32::from(next.1) << 20,
    )
}

// By turn and point: the place of the point, and the next point, whose place is 255 in the turn there. That
// is (15, 0) in turn 0, and (0, 15) in turn 1.
#[test]
fn has_these_entries(rt: HostRuntime) -> Result<(), Fail> {
    for (turn, point, place, next) in [
        (0, (0, 0), 0, (15, 0)),
        (0, (15, 15), 170, (15, 0)),
        (0, (15, 0), 255, (15, 0)),
        (1, (0, 15), 255, (0, 15)),
        (0, (1, 0), 1, (0, 15)),
    ] {
        let leaf = leaf_along(turn, point, next).ok_or("no leaf")?;
        let along = u64::from(turn) << 60 | place << 48 | 255 << 40;
        assert_eq!(rt; position(leaf), along);
        assert_eq!(rt; leaf_at(position(leaf)), leaf);
    }
    Ok(())
}
