//! Canonical covers: lists of cells, ascending by their ids, in which no cell lies inside another, and no
//! four are the children of one.

ghost use Rattle.std.specs.Prelude.{◌≡◌, ◌≢◌, ℕ, ◌+◌, ◌*◌, ◌^◌, ◌<◌, ◌≤◌, Bool, [], length, IfOk, OnOk, IfSome, IfNone};
ghost use Rattle.s2_cover.specs.Covers.{leaves_of, IsCanonical, IsRanges, spans_have, IsLongestRun, IsLaid, IsLargestFrom, IsLargestFitting};

use crate::spans::{Ranges, Span};
use s2_cellid::CellId;
use std::alloc::{AllocError, Global};
use std::marker::Model;

/// The canonical list of cells of a set of leaves, which is the normal form of the S2 geometry library
/// (`S2CellUnion`): no cell lies inside another, and four children of one cell are replaced by it.
#[derive(Debug, Drop)]
pub struct Cover {
    cells: Vec<CellId>,
    // how many squares were compared with a rectangle to find the cells
    looked: u64,
}

impl Model for Cover {
    ghost use Rattle.s2_cover.specs.Covers.{CoverParts, IsCanonical, leaves_of};

    ghost Value = { CoverParts };

    ghost view = { λ cover. record { ids = cover.cells.items; looked = cover.looked } };

    ghost invariant = { λ cover. IsCanonical (leaves_of cover.cells.items) cover.cells.items };
}

impl Cover {
    /// The cells, in ascending order of their ids.
    pub fn cells(&self) -> &[CellId]
        ensures value { result.now ≡ self.now.ids }
        ensures canonical { IsCanonical (leaves_of self.now.ids) self.now.ids }
    {
        self.cells.as_slice()
    }

    /// How many squares `cover` compared with the rectangle to find the cells; 0 for a cover that was made of
    /// ranges or of a list of cells.
    pub fn looked(&self) -> u64
        ensures { result ≡ self.now.looked }
    {
        self.looked
    }

    /// The cover's leaves as ranges of positions along the curve, in one pass over the cells.
    ///
    /// # Errors
    ///
    /// `AllocError` if memory runs out.
    pub fn ranges(&self) -> Result<Ranges, AllocError>
        ensures ranges { IfOk result (IsRanges (leaves_of self.now.ids)) }
        ensures same { IfOk result (λ ranges. (set : ℕ → Bool) →
            ((p : ℕ) → leaves_of self.now.ids p ≡ set p) → IsRanges set ranges) }
        ensures some { 0 < length self.now.ids → IfOk result (λ ranges. 0 < length ranges) }
    {
        Ranges::of_sorted(*self.cells.allocator(), &self.cells)
    }

    /// The canonical cover of the leaves of `ranges`, in a constant number of steps for each of its cells.
    ///
    /// # Errors
    ///
    /// `AllocError` if memory runs out.
    pub fn of_ranges(alloc: Global, ranges: &Ranges) -> Result<Cover, AllocError>
        ensures canonical { (set : ℕ → Bool) → IsRanges set ranges.now →
            IfOk result (λ cover. IsCanonical set cover.ids) }
        ensures leaves { IfOk result (λ cover.
            (p : ℕ) → leaves_of cover.ids p ≡ spans_have ranges.now p) }
        ensures looked { IfOk result (λ cover. cover.looked ≡ 0) }
    {
        let cells = largest_cells(Vec::new(alloc), ranges.spans())?;
        Ok(Cover { cells, looked: 0 })
    }

    /// The cover with these cells, which have to be the canonical list of their leaves. `looked` is how many
    /// squares were compared with a rectangle to find them.
    pub(crate) fn of_canonical(cells: Vec<CellId>, looked: u64) -> Cover
        requires { IsCanonical (leaves_of cells.items) cells.items }
        ensures ids { result.ids ≡ cells.items }
        ensures looked { result.looked ≡ looked }
    {
        Cover { cells, looked }
    }

    /// An equal cover, in memory of its own, with the same number `looked`.
    ///
    /// # Errors
    ///
    /// `AllocError` if memory runs out.
    pub fn copy(&self) -> Result<Cover, AllocError>
        ensures { IfOk result (λ cover. cover ≡ self.now) }
    {
        let cells = Vec::from_slice(*self.cells.allocator(), &self.cells)?;
        Ok(Cover {
            cells,
            looked: self.looked,
        })
    }
}

/// The canonical cover of all leaves of `cells` (`S2CellUnion::Normalize`), which may be in any order,
/// overlap and repeat. For no cells it is the empty cover. After one sort, the time is linear in the number
/// of cells given and returned.
///
/// # Errors
///
/// `AllocError` if memory runs out.
pub fn normalise(alloc: Global, cells: &[CellId]) -> Result<Cover, AllocError>
    ensures canonical { IfOk result (λ cover. IsCanonical (leaves_of cells.now) cover.ids) }
    ensures leaves { IfOk result (λ cover.
        (p : ℕ) → leaves_of cover.ids p ≡ leaves_of cells.now p) }
    ensures looked { IfOk result (λ cover. cover.looked ≡ 0) }
    ensures some { 0 < length cells.now → IfOk result (λ cover. 0 < length cover.ids) }
{
    let mut sorted = Vec::from_slice(alloc, cells)?;
    sorted.sort_unstable_by_key(|cell| cell.first());
    let ranges = Ranges::of_sorted(alloc, &sorted)?;
    sorted.clear();
    let cells = largest_cells(sorted, ranges.spans())?;
    Ok(Cover { cells, looked: 0 })
}

// The canonical list of the cells of a set of leaves (`set` in the contract), whose ranges are `spans`: the
// largest cells that lie in them, ascending. The list takes over the memory of `empty`, which has no cells.
// `AllocError` if memory runs out.
fn largest_cells(empty: Vec<CellId>, spans: &[Span]) -> Result<Vec<CellId>, AllocError>
    ghost set: { ℕ → Bool }
    requires empty { empty.items ≡ [] }
    requires ranges { IsRanges set spans.now }
    ensures canonical { IfOk result (λ cells. IsCanonical set cells.items) }
    ensures leaves { IfOk result (λ cells. (p : ℕ) → leaves_of cells.items p ≡ set p) }
{
    let mut cells = empty;
    for span in spans {
        push_cells(&mut cells, span)?;
    }
    Ok(cells)
}

// Appends the largest cells that lie in `span`, from its first position to its last. `span` is one of the
// ranges of `set`, and `cells` has the cells of those before it. `AllocError` if memory runs out; `cells` may
// then have some of the new cells.
fn push_cells(cells: &mut Vec<CellId>, span: &Span) -> Result<(), AllocError>
    ghost set: { ℕ → Bool }
    requires run { IsLongestRun set span.now }
    requires laid { IsLaid set cells.old.items span.now.first }
    ensures { OnOk result (IsLaid set cells.new.items (span.now.last + 1)) }
{
    let mut position = span.first;
    while position <= span.last {
        let cell = largest_from(position, span.last);
        cells.push(cell)?;
        position = cell.last() + 1;
    }
    Ok(())
}

// The largest cell whose first leaf is at the position `first` and whose last leaf is at `last` or before.
// Its id is twice its first position, plus its lowest set bit, and so is always valid.
fn largest_from(first: u64, last: u64) -> CellId
    requires ordered { first ≤ last }
    requires below { last < 6 * 2 ^ 60 }
    ensures { IsLargestFrom first last result }
{
    let place = largest_place(first, last);
    CellId::from_raw(2 * first + (1 << place)).unwrap()
}

// The place of the lowest set bit, counted from 0, in the id of the largest cell whose first leaf is at the
// position `first` and whose last leaf is at `last` or before. A cell has `2^place` leaves, with an even
// place of at most 60, and its first position is a multiple of that number.
fn largest_place(first: u64, last: u64) -> u32
    requires ordered { first ≤ last }
    requires below { last < 6 * 2 ^ 60 }
    ensures { IsLargestFitting first last result }
{
    let room = (last - first + 1).ilog2();
    let place = first.trailing_zeros().min(room).min(60);
    place - place % 2
}
