//! Conflicts of an area with stored plans, and points that two areas share.

ghost use Rattle.std.specs.Prelude.{◌≡◌, ℕ, List, Option};
ghost use Rattle.volume4d.specs.{Volume.Point, Volume.Block, Sweep.IsFirst};
ghost use Rattle.desk_rules.specs.{Conflict.AreSlabsOf, Conflict.HoldLevels, Conflict.HoldLevelsAmong, Conflict.is_blocked_among, Conflict.conflict, Limits.least_blocking};
ghost use Rattle.desk_rules.specs.Conflict as spec;

use volume4d::{Held, Meeting, Slab, first_meeting, meet};

/// The conflict of an area with other plans: its first blocked point, or `None` if no point is blocked.
///
/// `mine` are the area's slabs. `theirs` are slabs of the other plans: at each point of the area, their
/// greatest priority has to be the greatest that other plans hold there (`levels` in the contract), or none
/// if that is too low to block the area.
///
/// If `mine` are only some of the area's slabs (the clause `among`), the result is the first blocked point
/// among these.
pub fn first_conflict(mine: &[Slab], theirs: &[Held]) -> Option<Meeting>
    ensures area { (permitted : List ℕ) (area : List Block) (levels : Point → Option ℕ) (priority : ℕ) →
        AreSlabsOf mine.now area →
        HoldLevels theirs.now area levels (least_blocking permitted priority) →
        result ≡ conflict permitted area levels priority }
    ensures among { (permitted : List ℕ) (levels : Point → Option ℕ) (priority : ℕ) →
        HoldLevelsAmong theirs.now mine.now levels (least_blocking permitted priority) →
        IsFirst (is_blocked_among permitted mine.now levels priority) levels result }
{
    first_meeting(mine, theirs)
}

/// Whether two areas share a point. `mine` are all slabs of one area, `theirs` all those of the other.
pub fn share_a_point(mine: &[Slab], theirs: &[Slab]) -> bool
    ensures { (area other : List Block) → AreSlabsOf mine.now area → AreSlabsOf theirs.now other →
        result ≡ spec.share_a_point area other }
{
    meet(mine, theirs)
}
