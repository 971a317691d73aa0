//! Covers of rectangles, found by a walk down the squares of a face.

ghost use Rattle.std.specs.Prelude.{◌≡◌, ◌↔◌, ℕ, ◌+◌, ◌-◌, ◌^◌, ◌<◌, ◌≤◌, [], ◌∷◌, ◌++◌, IsTrue, IfOk, IfErr, OnOk, length};
ghost use Rattle.std.specs.Int.{IsInRange};
ghost use Rattle.s2_hilbert.specs.{Grid.GridLeaf, Grid.IsLeaf, Grid.IsSquare, Curve.position_of, Curve.first_position, Curve.last_position};
ghost use Rattle.s2_cellid.specs.Cell.{square_id};
ghost use Rattle.s2_cover.specs.Covers.{leaves_of, IsCanonical, canonical_list, IsLonger, IsLaid, IsInFootprint, rect_leaves, wide_set, IsOpened, IsWide, HasWalked, HasStopped, IsFull, IsRefused, HasCompared, comparisons_for, max_comparisons};
ghost use Rattle.s2_cover.specs.declared.walk.CoverFault.TheVariants.{OutOfMemory};

use crate::covers::Cover;
use crate::rect::Rect;
use crate::sight::{Overlap, Widened, compare};
use s2_cellid::CellId;
use s2_hilbert::Square;
use std::alloc::{AllocFailed, Global};
use std::error::Error;
use std::fmt;

/// Why no cover of a rectangle is returned.
#[derive(Clone, Copy, Debug, PartialEq, Eq)]
pub enum CoverFault {
    /// The canonical cover has more cells than the limit.
    TooManyCells {
        /// How many squares were compared with the rectangle until this was known.
        looked: u64,
    },
    /// Memory ran out.
    OutOfMemory,
}

impl fmt::Display for CoverFault {
    ghost use Rattle.std.specs.Prelude.{Some};
    ghost use Rattle.s2_cover.specs.Covers.{cover_fault_text};

    ghost output = { λ fault. Some (cover_fault_text fault) };

    // The fault as a sentence, in lower case and without a full stop.
    fn fmt<W: fmt::Write>(&self, f: &mut fmt::Formatter<W>) -> fmt::Result {
        f.pad(match self {
            CoverFault::TooManyCells { .. } => "the cover has too many cells",
            CoverFault::OutOfMemory => "out of memory",
        })
    }
}

impl Error for CoverFault {}

impl<T: Drop> From<AllocFailed<T>> for CoverFault {
    ghost from_gives = { λ _ e. e ≡ OutOfMemory };

    // A `Vec` couldn't grow, so memory ran out. The value that was to be added is dropped.
    fn from(_e: AllocFailed<T>) -> CoverFault {
        CoverFault::OutOfMemory
    }
}

/// The canonical cover of a rectangle's footprint, if it has at most `limit` cells. (The footprint has all
/// leaves that share a square of the rectangle's level with one of the rectangle's.)
///
/// The search goes down from the whole face and compares at most `1 + 96 * (limit + 1)` squares with the
/// rectangle: the face, and four children on each of up to 24 levels for each cell, up to the one that is too
/// many.
///
/// # Errors
///
/// `TooManyCells` if the canonical cover has more than `limit` cells, `OutOfMemory` if memory runs out.
// Long: ten facts of a cover that callers cite one by one.
pub fn cover(alloc: Global, rect: &Rect, limit: u32) -> Result<Cover, CoverFault>
    ensures canonical { IfOk result (λ cover. IsCanonical (rect_leaves rect.now) cover.ids) }
    ensures leaves { IfOk result (λ cover.
        (p : ℕ) → leaves_of cover.ids p ≡ rect_leaves rect.now p) }
    ensures footprint { IfOk result (λ cover. (leaf : GridLeaf) → IsLeaf leaf →
        IsTrue (leaves_of cover.ids (position_of leaf)) ↔ IsInFootprint rect.now leaf) }
    ensures some { IfOk result (λ cover. 0 < length cover.ids) }
    ensures few { IfOk result (λ cover. length cover.ids ≤ limit) }
    ensures looked { IfOk result (λ cover.
        IsInRange (length cover.ids) (max_comparisons limit) cover.looked) }
    ensures exact { IfOk result (λ cover. HasCompared (rect_leaves rect.now) cover.looked) }
    ensures refused { IfErr result (IsRefused (rect_leaves rect.now) limit) }
    ensures list { IfOk result (λ cover. cover.ids ≡ canonical_list (rect_leaves rect.now)) }
    ensures longer { IfErr result (IsLonger (rect_leaves rect.now) limit) }
{
    let wide = Widened::of_rect(rect);
    let face = Square::of_face(rect.face());
    let mut cells = Vec::new(alloc);
    let mut looked = 0;
    walk(&wide, &face, limit, &mut cells, &mut looked)?;
    Ok(Cover::of_canonical(cells, looked))
}

// Appends the cells of the canonical cover of `wide` (a rectangle, as the squares that it touches) that lie
// in `square`, in the order of the curve. Adds the number of comparisons to `looked`. A square of the
// rectangle's level is never `Across`, so the walk ends there. `TooManyCells` if `cells` would have more than
// `limit`, `OutOfMemory` if memory runs out.
// Long: the state of the walk at a square has nine facts, and each call within hands on each by its name.
fn walk(
    wide: &Widened,
    square: &Square,
    limit: u32,
    cells: &mut Vec<CellId>,
    looked: &mut u64,
) -> Result<(), CoverFault>
    requires wide { IsWide wide.now }
    requires square { IsSquare square.now }
    requires face { square.now.face ≡ wide.now.face }
    requires level { square.now.level ≤ wide.now.level }
    requires laid { IsLaid (wide_set wide.now) cells.old.items (first_position square.now) }
    requires few { length cells.old.items ≤ limit }
    requires opened { IsOpened (wide_set wide.now) (square_id square.now) }
    requires counted { length cells.old.items ≤ looked.old }
    requires room { looked.old
        + comparisons_for (wide.now.level - square.now.level) (limit + 1 - length cells.old.items) < 2 ^ 64 }
    ensures ok { OnOk result (HasWalked (wide_set wide.now) (wide.now.level - square.now.level) limit
        (first_position square.now) (last_position square.now + 1)
        cells.old.items cells.new.items looked.old looked.new) }
    ensures err { IfErr result (HasStopped (wide_set wide.now) limit (looked.old
        + comparisons_for (wide.now.level - square.now.level) (limit + 1 - length cells.old.items))) }
{
    match compare(wide, square, looked) {
        Overlap::Outside => {}
        Overlap::Inside => push_cell(square, limit, cells, *looked)?,
        Overlap::Across => {
            for k in 0..4u8 {
                walk(wide, &square.child(k), limit, cells, looked)?;
            }
        }
    }
    Ok(())
}

// Appends the cell of `square`. `TooManyCells` if there are `limit` cells already; it reports `looked`, the
// number of comparisons so far. `OutOfMemory` if memory runs out.
fn push_cell(
    square: &Square,
    limit: u32,
    cells: &mut Vec<CellId>,
    looked: u64,
) -> Result<(), CoverFault>
    ensures pushed { OnOk result (cells.new.items ≡ cells.old.items ++ square_id square.now ∷ []) }
    ensures room { OnOk result (length cells.old.items < limit) }
    ensures full { IfErr result (IsFull limit (length cells.old.items) looked) }
{
    if cells.len() >= limit as usize {
        return Err(CoverFault::TooManyCells { looked });
    }
    cells.push(CellId::of_square(square))?;
    Ok(())
}
