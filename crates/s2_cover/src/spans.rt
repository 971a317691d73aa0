//! Ranges of leaf positions (a leaf's position is its number along S2's curve, counted from 0).

ghost use Rattle.std.specs.Prelude.{◌≡◌, ◌<◌, ℕ, IfOk, length};
ghost use Rattle.std.specs.List.Sorted.{IsNonDecreasingBy};
ghost use Rattle.s2_cellid.specs.Cell.{first_leaf, cell_has};
ghost use Rattle.s2_cover.specs.Covers.{leaves_of, IsSpan, IsRanges, span_has, spans_have};

use s2_cellid::CellId;
use std::alloc::{AllocError, Global};
use std::marker::Model;

/// The leaf positions from `first` to `last`, both included. The leaves of all six faces are counted
/// from 0 in the order of their ids, so the leaf at a position has the id `2 * position + 1`.
#[derive(Clone, Copy, Debug, PartialEq, Eq, PartialOrd, Ord, Hash)]
pub struct Span {
    /// The least position.
    pub first: u64,
    /// The greatest position.
    pub last: u64,
}

/// A set of leaf positions as ascending spans, of which no two share a position or follow each other
/// with no position between them, not even from one face to the next.
#[derive(Debug, Drop)]
pub struct Ranges {
    spans: Vec<Span>,
}

impl Model for Ranges {
    ghost use Rattle.std.specs.Prelude.{List};
    ghost use Rattle.s2_cover.specs.declared.spans.Span.{Span};
    ghost use Rattle.s2_cover.specs.Covers.{IsRanges, spans_have};

    ghost Value = { List Span };

    ghost view = { λ ranges. ranges.spans.items };

    ghost invariant = { λ ranges. IsRanges (spans_have ranges.spans.items) ranges.spans.items };
}

impl Ranges {
    /// The ranges of the set, each as a span, in ascending order.
    pub fn spans(&self) -> &[Span]
        ensures value { result.now ≡ self.now }
        ensures ranges { IsRanges (spans_have self.now) self.now }
    {
        self.spans.as_slice()
    }

    /// An equal set, in memory of its own.
    ///
    /// # Errors
    ///
    /// `AllocError` if memory runs out.
    pub fn copy(&self) -> Result<Ranges, AllocError>
        ensures { IfOk result (λ ranges. ranges ≡ self.now) }
    {
        let spans = Vec::from_slice(*self.spans.allocator(), &self.spans)?;
        Ok(Ranges { spans })
    }

    /// The leaves of `cells` as ranges, in one pass. The cells have to ascend by their first leaves; they may
    /// overlap and repeat. Cells that overlap or follow each other with no gap are joined to one range.
    ///
    /// # Errors
    ///
    /// `AllocError` if memory runs out.
    pub(crate) fn of_sorted(alloc: Global, cells: &[CellId]) -> Result<Ranges, AllocError>
        requires { IsNonDecreasingBy first_leaf cells.now }
        ensures ranges { IfOk result (IsRanges (leaves_of cells.now)) }
        ensures some { 0 < length cells.now → IfOk result (λ ranges. 0 < length ranges) }
    {
        let mut spans = Vec::with_capacity(alloc, cells.len())?;
        let Some((first, rest)) = cells.split_first() else {
            return Ok(Ranges { spans });
        };
        let mut current = span_of(first);
        for cell in rest {
            let span = span_of(cell);
            if span.first <= current.last + 1 {
                current.last = current.last.max(span.last);
            } else {
                spans.push(current)?;
                current = span;
            }
        }
        spans.push(current)?;
        Ok(Ranges { spans })
    }
}

// The positions of a cell's leaves as one span, from its first leaf to its last.
fn span_of(cell: &CellId) -> Span
    ensures valid { IsSpan result }
    ensures first { result.first ≡ first_leaf cell.now }
    ensures leaves { (p : ℕ) → span_has result p ≡ cell_has cell.now p }
{
    Span {
        first: cell.first(),
        last: cell.last(),
    }
}
