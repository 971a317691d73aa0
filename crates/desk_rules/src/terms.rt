//! The terms of a desk: the settings that its administrator makes for all operators.

ghost use Rattle.std.specs.Prelude.{◌≡◌};
ghost use Rattle.desk_rules.specs.Outcome as spec;
ghost use Rattle.desk_rules.specs.Outcome.{excess_of, no_excess, no_terms};

use crate::permission::Permitted;

/// The greatest limit that an administrator may set on the spans of an operator's live plans.
pub const MAX_SPANS: u32 = 5_000_000;

/// The greatest limit that an administrator may set on the cells of an operator's plans.
pub const MAX_TOTAL_CELLS: u32 = 5_000_000;

/// The settings of a desk, the same for all operators. Its administrator sets them, and no request changes
/// them.
#[derive(Clone, Copy, Debug)]
pub struct Terms {
    /// The priorities at which plans of equal priority may share points.
    pub permitted: Permitted,
    /// The most spans that an operator's live plans may have together, or `None` if there is no limit. A
    /// plan has a span for each range of each of its volumes along the S2 curve.
    pub spans: Option<u32>,
    /// The most cells that an operator's plans may have together, closed ones too, or `None` if there is no
    /// limit. A plan has the cells of each of its volumes: those of its cell list, or of the canonical
    /// cover of its rectangle.
    pub cells: Option<u32>,
}

/// Which limits an operator's plans would exceed.
#[derive(Clone, Copy, Debug, PartialEq, Eq)]
pub struct Excess {
    /// Whether the operator's live plans would have more spans than the limit.
    pub spans: bool,
    /// Whether the operator's plans would have more cells than the limit.
    pub cells: bool,
}

impl Excess {
    /// The value for an operator that exceeds no limit.
    pub fn none() -> Excess
        ensures { result ≡ no_excess }
    {
        Excess {
            spans: false,
            cells: false,
        }
    }
}

impl Terms {
    /// The default settings: no priority is permitted, and spans and cells have no limit.
    pub fn none() -> Terms
        ensures { result ≡ no_terms }
    {
        Terms {
            permitted: Permitted::none(),
            spans: None,
            cells: None,
        }
    }

    /// Which limits an operator exceeds. `spans` is how many spans its live plans have, and `cells` how many
    /// cells all its plans have, closed ones too.
    pub fn excess(&self, spans: u64, cells: u64) -> Excess
        ensures { result ≡ excess_of self.now spans cells }
    {
        Excess {
            spans: exceeds(self.spans, spans),
            cells: exceeds(self.cells, cells),
        }
    }
}

// Whether `count` is greater than `limit`; false if there is no limit.
fn exceeds(limit: Option<u32>, count: u64) -> bool
    ensures { result ≡ spec.exceeds limit count }
{
    limit.is_some_and(|most| count > u64::from(most))
}
