//! Meetings: the first point that two lists of slabs share. Points are ordered by leaf, then altitude, then
//! second.

ghost use Rattle.std.specs.Prelude.{◌≡◌, ◌&&◌, ◌↔◌, IsTrue, true, Some, List};
ghost use Rattle.std.specs.Option.{option_map};
ghost use Rattle.s2_cellid.specs.Cell.{leaf_id};
ghost use Rattle.volume4d.specs.declared.slab.Slab.{Slab};
ghost use Rattle.volume4d.specs.{Volume.Point, Sweep.IsFirst, Sweep.IsFirstPoint};
ghost use Rattle.volume4d.specs.Slab.{slab_has, slabs_have, helds_have, top_held, greater, level_where, is_shared};

use crate::corner::{Corner, has};
use crate::slab::{Held, Slab};
use crate::sweep::first_shared;
use s2_cellid::CellId;
use s2_hilbert::leaf_at;
use std::marker::Model;

/// A point that two plans share, and the greatest priority that is held there.
#[derive(Clone, Copy, Debug, PartialEq, Eq)]
#[tactic(auto, using(s2_hilbert::proofs::lemmas::Curve::position_undone))]
pub struct Meeting {
    /// The leaf's position among all leaves along the S2 curve, below `6 * 2^60`.
    pub pos: u64,
    /// The altitude in decimetres above the WGS84 ellipsoid.
    pub altitude: i32,
    /// The Unix second.
    pub second: i64,
    /// The greatest priority held there.
    pub priority: u32,
}

impl Model for Meeting {
    ghost use Rattle.std.specs.Prelude.{◌<◌, ◌*◌, ◌^◌};
    ghost use Rattle.s2_hilbert.specs.Curve.{position_of, grid_leaf_at};
    ghost use Rattle.s2_hilbert.proofs.lemmas.Curve.{position_undone};
    ghost use Rattle.volume4d.specs.Sweep.{Spot};

    ghost Value = { Spot };

    ghost view = { λ m. record {
      point = record {
        leaf = grid_leaf_at m.pos;
        altitude = m.altitude;
        second = m.second;
      };
      priority = m.priority;
    } };

    ghost invariant = { λ m. m.pos < 6 * 2 ^ 60 };

    ghost inverse = { λ s. record {
      pos = position_of s.point.leaf;
      altitude = s.point.altitude;
      second = s.point.second;
      priority = s.priority;
    } };

    ghost inverse_ok = { λ m _. λ i. record {
      pos = position_undone m.pos i;
      altitude = m.altitude;
      second = m.second;
      priority = m.priority;
    } };
}

impl Meeting {
    /// The leaf cell of the point.
    pub fn cell(&self) -> CellId
        ensures { result ≡ leaf_id self.now.point.leaf }
    {
        CellId::of_leaf(leaf_at(self.pos))
    }
}

/// Whether two lists of slabs share a point. The lists may be in any order; it is faster if both ascend by
/// their first leaves.
pub fn meet(mine: &[Slab], theirs: &[Slab]) -> bool
    ensures { IsTrue result
        ↔ ((x : Point) × (slabs_have mine.now x ≡ true) × (slabs_have theirs.now x ≡ true)) }
{
    let mut pairs = 0;
    first_shared(mine, theirs, &mut pairs).is_some()
}

/// The first point that the slabs `mine` share with the held slabs `theirs`, and the greatest priority of
/// those that hold it; `None` if they share no point. Points are ordered by leaf, then altitude, then second.
/// The lists may be in any order; it is faster if both ascend by their first leaves.
pub fn first_meeting(mine: &[Slab], theirs: &[Held]) -> Option<Meeting>
    ensures { IsFirst (is_shared mine.now theirs.now) (top_held theirs.now) result }
{
    first_meeting_counted(mine, theirs).0
}

/// As `first_meeting`, with the number of pairs of slabs that were compared. Tests read this number; no
/// clause speaks of it.
#[tactic(auto, using(crate::proofs::FirstPoints::meeting_of_point, crate::proofs::FirstPoints::none_shared,))]
pub fn first_meeting_counted(mine: &[Slab], theirs: &[Held]) -> (Option<Meeting>, u128)
    ensures { IsFirst (is_shared mine.now theirs.now) (top_held theirs.now) result.0 }
{
    let mut pairs = 0;
    match first_held(mine, theirs, &mut pairs) {
        Some(corner) => (meeting_at(corner, theirs), pairs),
        None => (None, pairs),
    }
}

// The first point that the slabs `mine` share with `theirs`; `None` if they share none. Adds the number of
// pairs of slabs that it compares to `pairs`.
fn first_held(mine: &[Slab], theirs: &[Held], pairs: &mut u128) -> Option<Corner>
    ensures { IsFirstPoint (λ x. slabs_have mine.now x && helds_have theirs.now x) result }
{
    first_shared(mine, theirs, pairs)
}

// The meeting at the point `corner`, with the greatest priority of those of `theirs` that hold it; `None` if
// none does.
fn meeting_at(corner: Corner, theirs: &[Held]) -> Option<Meeting>
    ensures { result ≡ option_map (λ priority. record { point = corner; priority = priority })
        (top_held theirs.now corner) }
{
    match top_at(theirs, &corner) {
        Some(priority) => Some(Meeting {
            pos: corner.pos,
            altitude: corner.altitude,
            second: corner.second,
            priority,
        }),
        None => None,
    }
}

// The greatest priority of those of `theirs` that hold the point `x`, or `None` if none does.
fn top_at(theirs: &[Held], x: &Corner) -> Option<u32>
    ensures { result ≡ top_held theirs.now x.now }
{
    let mut top = None;
    for held in theirs {
        top = raised(top, held, x);
    }
    top
}

// The greater of `top` and the priority of `held`, if that holds the point `x`; else `top`. `None` is less
// than any priority.
fn raised(top: Option<u32>, held: &Held, x: &Corner) -> Option<u32>
    ensures { result
        ≡ greater top (level_where (slab_has held.now.slab x.now) held.now.priority) }
{
    if !has(&held.slab, x) {
        return top;
    }
    match top {
        Some(level) => Some(level.max(held.priority)),
        None => Some(held.priority),
    }
}
