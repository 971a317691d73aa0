//! Slabs that may share a point with those of a plan. A slab has the points of a range of leaves in one range
//! of altitudes and one of seconds. Leaves are numbered along the S2 curve: a `position` is the number of
//! one. A function fails only if memory runs out.

ghost use Rattle.std.specs.Prelude.{◌≡◌, None, true, false, nat_le, OnOk};
ghost use Rattle.std.specs.List.{list_any};
ghost use Rattle.volume4d.specs.{Slab.HasAll, Slab.level_where, Slab.overlap, Slab.slab_has, Slab.slabs_have, Slab.top_held, Volume.Point, Sweep.Ascend};
ghost use Rattle.desk_rules.specs.Conflict.{at_least};
ghost use Rattle.desk_run.specs.HeldAmong.{AddLevelAt, AreAfter, AreLeft, HaveAll};

use std::alloc::AllocError;
use volume4d::{Held, Slab};

// Appends to `theirs` those of `slabs`, with `priority`, that may share a point with one of `mine`. None that
// does is left out. `mine`, a plan's slabs, ascend by their first leaves. All their points lie in `bounds`,
// and each in one of `parts`, the bounds of a volume. It is fast if `slabs` ascend, too.
pub fn push_slabs(
    theirs: &mut Vec<Held>,
    mine: &[Slab],
    bounds: &Slab,
    parts: &[Slab],
    slabs: &[Slab],
    priority: u32,
) -> Result<(), AllocError>
    requires order { Ascend (λ s. s) mine.now }
    requires bounds { HasAll (slabs_have mine.now) bounds.now }
    requires parts { HaveAll (slabs_have mine.now) parts.now }
    ensures { OnOk result (AddLevelAt (slabs_have mine.now) theirs.old.items theirs.new.items
        (λ x. level_where (slabs_have slabs.now x) priority)) }
{
    let mut left = mine;
    let mut position = 0;
    for slab in slabs {
        left = remaining_at(mine, left, position, slab.first);
        position = slab.first;
        if may_share(left, bounds, parts, slab) {
            theirs.push(Held {
                slab: *slab,
                priority,
            })?;
        }
    }
    Ok(())
}

// Appends to `theirs` those of `helds` that have the priority `least` or more and may share a point with one
// of `mine`. None that does is left out. `mine`, `bounds` and `parts` are as in `push_slabs`.
pub fn push_helds(
    theirs: &mut Vec<Held>,
    mine: &[Slab],
    bounds: &Slab,
    parts: &[Slab],
    helds: &[Held],
    least: u32,
) -> Result<(), AllocError>
    requires order { Ascend (λ s. s) mine.now }
    requires bounds { HasAll (slabs_have mine.now) bounds.now }
    requires parts { HaveAll (slabs_have mine.now) parts.now }
    ensures { OnOk result (AddLevelAt (slabs_have mine.now) theirs.old.items theirs.new.items
        (λ x. at_least least (top_held helds.now x))) }
{
    let mut left = mine;
    let mut position = 0;
    for held in helds {
        left = remaining_at(mine, left, position, held.slab.first);
        position = held.slab.first;
        if is_wanted(held, least, left, bounds, parts) {
            theirs.push(*held)?;
        }
    }
    Ok(())
}

// Whether `held` has the priority `least` or more, and may share a point with one of `left`, the slabs of a
// plan that don't end before it. `bounds` and `parts` have all points of these. False is certain, true is
// not.
fn is_wanted(held: &Held, least: u32, left: &[Slab], bounds: &Slab, parts: &[Slab]) -> bool
    requires { Ascend (λ s. s) left.now }
    ensures high_enough { result ≡ true → nat_le least held.now.priority ≡ true }
    ensures nothing_lost { result ≡ false → (x : Point) → slab_has bounds.now x ≡ true
        → slabs_have parts.now x ≡ true → slabs_have left.now x ≡ true
        → at_least least (level_where (slab_has held.now.slab x) held.now.priority) ≡ None }
{
    held.priority >= least && may_share(left, bounds, parts, &held.slab)
}

// The slabs of `mine` from the first one on that doesn't end before `position`, and maybe some before it.
// `left` is the result for the position `before`: the search goes on there, or begins anew with all of `mine`
// if `position` is less.
fn remaining_at<'a>(mine: &'a [Slab], left: &'a [Slab], before: u64, position: u64) -> &'a [Slab]
    requires order { Ascend (λ s. s) mine.now }
    requires left_order { Ascend (λ s. s) left.now }
    requires left { AreLeft before mine.now left.now }
    ensures order { Ascend (λ s. s) result.now }
    ensures left { AreLeft position mine.now result.now }
{
    if position < before {
        mine
    } else {
        skip_before(left, position)
    }
}

// The rest of `slabs` from the first one on that doesn't end before `position`; none if all do.
fn skip_before(slabs: &[Slab], position: u64) -> &[Slab]
    requires { Ascend (λ s. s) slabs.now }
    ensures order { Ascend (λ s. s) result.now }
    ensures left { AreLeft position slabs.now result.now }
{
    let mut left = slabs;
    while let Some((first, others)) = left.split_first() {
        if position <= first.last {
            return left;
        }
        left = others;
    }
    left
}

// Whether `slab` may share a point with one of `left`, which ascend and don't end before `slab`. `bounds` and
// `parts` have all points of `left`. False is certain, true is not.
fn may_share(left: &[Slab], bounds: &Slab, parts: &[Slab], slab: &Slab) -> bool
    requires { Ascend (λ s. s) left.now }
    ensures { result ≡ false → (x : Point) → slab_has bounds.now x ≡ true → slabs_have parts.now x ≡ true
        → slabs_have left.now x ≡ true → slab_has slab.now x ≡ false }
{
    if !begins_by(left, slab.last) {
        return false;
    }
    if !slab.overlaps(bounds) {
        return false;
    }
    overlaps_one(slab, parts)
}

// Whether `slab` overlaps one of `parts`; false if there are none.
fn overlaps_one(slab: &Slab, parts: &[Slab]) -> bool
    ensures { result ≡ list_any (overlap slab.now) parts.now }
{
    parts.iter().any(|part| slab.overlaps(part))
}

// Whether the first of `slabs`, which ascend, begins at `position` or before. If false, all begin after it;
// also false if there are none.
fn begins_by(slabs: &[Slab], position: u64) -> bool
    requires { Ascend (λ s. s) slabs.now }
    ensures { result ≡ false → AreAfter position slabs.now }
{
    match slabs.first() {
        Some(slab) => slab.first <= position,
        None => false,
    }
}
