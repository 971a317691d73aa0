//! The extents of a query for a piece, slabs in which a store is to look: each encloses slabs of a plan that
//! have the same altitudes and seconds and lie close to each other. A function fails only if memory runs out.

ghost use Rattle.std.specs.Prelude.{◌<◌, ◌≤◌, ◌+◌, length, IfOk, IfSome, IsTrue, OnOk};
ghost use Rattle.volume4d.specs.Slab.{slab_has, slabs_have};
ghost use Rattle.desk_run.specs.HeldAmong.{HaveAll, Keep, HavePart};

use super::conflict::wide_gap;
use super::pieces::cut;
use std::alloc::{AllocError, Global};
use volume4d::Slab;

// Once there are this many extents, a slab is joined to one of the same altitudes and seconds at any
// distance. A plan has at most 32 volumes, so a piece has at most 96 extents.
const SOFT_LIMIT: usize = 64;

// Extents that together have all points of `slabs` at the leaves of `piece`, and may have others. `slabs`
// ascend by their first leaves.
pub fn extents_in(alloc: Global, slabs: &[Slab], piece: &Slab) -> Result<Vec<Slab>, AllocError>
    ensures { IfOk result (λ extents. HavePart (slabs_have slabs.now) piece.now extents.items) }
{
    let gap = wide_gap(slabs);
    let mut extents = Vec::new(alloc);
    for slab in slabs {
        add_part(&mut extents, slab, piece, gap)?;
    }
    Ok(extents)
}

// Adds the points of `slab` at the leaves of `piece` to `extents`; nothing if it has no such leaves. Slabs
// are joined if the next begins at most `gap` leaves after the end of the one before.
fn add_part(extents: &mut Vec<Slab>, slab: &Slab, piece: &Slab, gap: u64) -> Result<(), AllocError>
    ensures kept { OnOk result (Keep extents.old.items extents.new.items) }
    ensures has { OnOk result (HavePart (slab_has slab.now) piece.now extents.new.items) }
{
    let part = cut(slab, piece);
    if part.first > part.last {
        return Ok(());
    }
    add(extents, &part, gap)
}

// Adds the points of `slab` to `extents`: widens one that `slab` may be joined to, or else adds `slab`. `gap`
// is as in `add_part`.
fn add(extents: &mut Vec<Slab>, slab: &Slab, gap: u64) -> Result<(), AllocError>
    ensures kept { OnOk result (Keep extents.old.items extents.new.items) }
    ensures has { OnOk result (HaveAll (slab_has slab.now) extents.new.items) }
{
    match find_joinable(extents, slab, gap) {
        Some(place) => widen(extents, place, slab),
        None => extents.push(*slab)?,
    }
    Ok(())
}

// The index, from 0, of the last extent that `slab` may be joined to; `None` if there is none. `gap` (as in
// `add_part`) is ignored once there are `SOFT_LIMIT` extents.
fn find_joinable(extents: &[Slab], slab: &Slab, gap: u64) -> Option<usize>
    ensures { IfSome result (λ place. place < length extents.now) }
{
    let gap = if extents.len() < SOFT_LIMIT {
        gap
    } else {
        u64::MAX
    };
    extents
        .iter()
        .rposition(|extent| may_join(extent, slab, gap))
}

// Whether `slab` has the altitudes and seconds of `extent`, and begins at most `gap` leaves after its end.
// Slabs come ascending by their first leaves, so none begins before `extent`. The points are right whatever
// is joined; what is joined matters for speed alone.
fn may_join(extent: &Slab, slab: &Slab, gap: u64) -> bool
    ensures { IsTrue result → slab.now.first ≤ extent.now.last + gap }
{
    slab.first.saturating_sub(extent.last) <= gap
        && (extent.lower, extent.upper, extent.start, extent.end)
            == (slab.lower, slab.upper, slab.start, slab.end)
}

// Widens the extent at the index `place`, from 0, so that it has the points of `slab`, too.
fn widen(extents: &mut [Slab], place: usize, slab: &Slab)
    requires { place < length extents.old }
    ensures kept { Keep extents.old extents.new }
    ensures has { HaveAll (slab_has slab.now) extents.new }
{
    extents[place] = extents[place].join(slab);
}
