//! Quota usage: the numbers of spans and of cells that plans have. A volume has one span for each range of
//! its leaves along the S2 curve.

ghost use Rattle.std.specs.Prelude.{◌≡◌, ◌+◌, ◌<◌, ◌^◌};
ghost use Rattle.desk_rules.specs.Outcome.{row_cells, row_spans};

use desk_rules::plan::PlanRow;

/// The quota usage of plans: the spans of those that are live, and the cells of all.
#[derive(Clone, Copy, Debug, PartialEq, Eq)]
pub struct Sizes {
    /// The number of spans: one for each range of each live plan's volumes along the S2 curve.
    pub spans: u32,
    /// The number of cells: those of each volume's cell list, or of the canonical cover of its rectangle.
    pub cells: u32,
}

impl Sizes {
    /// The sizes of no plans: no spans and no cells.
    pub fn none() -> Sizes
        ensures { result ≡ record { spans = 0; cells = 0 } }
    {
        Sizes { spans: 0, cells: 0 }
    }

    /// The sizes of the plan `row`. A closed plan has no spans, but keeps its cells.
    pub fn of(row: &PlanRow) -> Sizes
        ensures { result ≡ record { spans = row_spans row.now; cells = row_cells row.now } }
    {
        Sizes {
            spans: row.span_count(),
            cells: row.cell_count(),
        }
    }

    /// The sums of the spans and of the cells. A sum that doesn't fit 32 bits becomes `u32::MAX`.
    pub fn plus(self, other: Sizes) -> Sizes
        ensures spans { self.spans + other.spans < 2 ^ 32 → result.spans ≡ self.spans + other.spans }
        ensures cells { self.cells + other.cells < 2 ^ 32 → result.cells ≡ self.cells + other.cells }
    {
        Sizes {
            spans: self.spans.saturating_add(other.spans),
            cells: self.cells.saturating_add(other.cells),
        }
    }
}
