//! Regions: extents that are joined if they overlap along the S2 curve.
//!
//! A slab has the leaf positions from its first to its last leaf, in one range of altitudes and one of
//! seconds. An extent is a slab that is asked about. The join of extents is one slab round them: it has all
//! their points, and those between.

ghost use Rattle.std.specs.Prelude.{◌≡◌, ◌∷◌, None, cond, IfOk, OnOk};
ghost use Rattle.volume4d.specs.Slab.{HasAll, slab_has, slabs_have, top_held};
ghost use Rattle.desk_store.specs.World.{AddsLevel};
ghost use Rattle.slab_regions.specs.Regions.{HaveEach};

use std::alloc::{AllocError, Global};
use std::slice;
use volume4d::{Held, Slab};

/// One slab that encloses `first` and all of `others`: from the least of their lower bounds to the greatest
/// of their upper ones.
pub fn enclosing_slab(first: &Slab, others: &[Slab]) -> Slab
    ensures { HasAll (slabs_have (first.now ∷ others.now)) result }
{
    let mut whole = *first;
    for extent in others {
        whole = whole.join(extent);
    }
    whole
}

/// A copy of `extents` if there are at most `limit`; else one slab alone, which encloses all of them.
///
/// # Errors
///
/// `AllocError` if memory runs out.
pub fn at_most(alloc: Global, extents: &[Slab], limit: usize) -> Result<Vec<Slab>, AllocError>
    ensures { IfOk result (λ fewer. HaveEach extents.now fewer.items) }
{
    match extents.split_first() {
        Some((first, others)) if limit <= others.len() => {
            Vec::from_slice(alloc, slice::from_ref(&enclosing_slab(first, others)))
        }
        _ => Vec::from_slice(alloc, extents),
    }
}

/// Joins the extents that overlap along the curve, whatever their altitudes and seconds. The result ascends
/// by first leaf, and has all points of the extents, which may come in any order.
///
/// # Errors
///
/// `AllocError` if memory runs out.
pub fn joined(alloc: Global, extents: Vec<Slab>) -> Result<Vec<Slab>, AllocError>
    ensures { IfOk result (λ regions. HaveEach extents.items regions.items) }
{
    let ordered = in_order(extents);
    match ordered.split_first() {
        Some((first, others)) => joined_from(alloc, first, others),
        None => Ok(Vec::new(alloc)),
    }
}

// Sorts extents, ascending by their first leaves. The clause says only that no point is lost.
fn in_order(mut extents: Vec<Slab>) -> Vec<Slab>
    ensures { HaveEach extents.items result.items }
{
    extents.sort_unstable_by_key(|extent| extent.first);
    extents
}

// Joins extents that overlap along the curve; `first` and then `others` ascend by first leaf, and so do the
// results. If memory runs out, the error is `AllocError`.
fn joined_from(alloc: Global, first: &Slab, others: &[Slab]) -> Result<Vec<Slab>, AllocError>
    ensures { IfOk result (λ regions. HaveEach (first.now ∷ others.now) regions.items) }
{
    let mut regions = Vec::new(alloc);
    let mut region = *first;
    for extent in others {
        if extent.first <= region.last {
            region = region.join(extent);
        } else {
            regions.push(region)?;
            region = *extent;
        }
    }
    regions.push(region)?;
    Ok(regions)
}

/// Appends the slabs `more` to `helds`, each clipped to `region` and with its priority. A slab that has no
/// point of `region` is appended as one without points.
///
/// # Errors
///
/// `AllocError` if memory runs out; some of the slabs may have been appended then.
pub fn push_clipped(helds: &mut Vec<Held>, more: &[Held], region: &Slab) -> Result<(), AllocError>
    ensures { OnOk result (AddsLevel helds.old.items helds.new.items
        (λ x. cond (slab_has region.now x) (top_held more.now x) None)) }
{
    for held in more {
        helds.push(Held {
            slab: region.clip(&held.slab),
            priority: held.priority,
        })?;
    }
    Ok(())
}
