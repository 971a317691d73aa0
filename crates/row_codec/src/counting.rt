//! How many spans, and how many cells, the operator with the most of them has. A plan has a span for each
//! range of leaves (S2 cells of level 30, in their order along the curve) of each of its volumes, as long as
//! it is live, that is, not closed: a span is a row of `span2`. A plan has the cells of its cell lists, and
//! those that cover its rectangles; a closed plan keeps them.

ghost use Rattle.std.specs.Prelude.{◌≡◌, ◌*◌, ◌≤◌, ◌⊎◌, ℕ, List, length};
ghost use Rattle.std.specs.{List.sum_by, List.Sorted.IsStrictlySortedBy};
ghost use Rattle.volume4d.specs.VolumeLimits.{max_cover, max_volumes};
ghost use Rattle.desk_rules.specs.Limits.{max_plans};
ghost use Rattle.desk_store.specs.World.{filed_cmp, rows_by};
ghost use Rattle.row_codec.specs.SpanBounds.{IsMostOf, count_of};

use crate::content::count_own;
use crate::exact::FiledPlan;

/// What is counted of an operator's plans.
#[derive(Clone, Copy, Debug, PartialEq, Eq)]
pub enum Counted {
    /// The spans of the live ones.
    Spans,
    /// The cells of all of them.
    Cells,
}

/// The greatest number of spans, or of cells, as `counted` says, that the plans of one operator have
/// together; 0 without plans. `plans` are ordered by operator and id, so that those of one operator follow
/// each other; no operator has more than 200.
pub fn most_of(counted: Counted, plans: &[FiledPlan]) -> usize
    requires keys { IsStrictlySortedBy filed_cmp plans.now }
    requires few { (operator : List ℕ) → length (rows_by operator plans.now) ≤ max_plans }
    ensures { IsMostOf (count_of counted) plans.now result }
{
    let mut most = 0;
    let mut left = plans;
    while let Some((first, others)) = left.split_first() {
        let (mine, later) = left.split_at(1 + count_own(&first.operator, others));
        most = max_of(most, sum_of(counted, mine));
        left = later;
    }
    most
}

// The greater of two numbers.
fn max_of(one: usize, other: usize) -> usize
    ensures no_less { (one ≤ result) × (other ≤ result) }
    ensures which { (result ≡ one) ⊎ (result ≡ other) }
{
    if one < other { other } else { one }
}

// How many spans, or cells, `plans` have together. They are at most 200: the plans of one operator.
fn sum_of(counted: Counted, plans: &[FiledPlan]) -> usize
    requires { length plans.now ≤ max_plans }
    ensures { result ≡ sum_by (λ p. count_of counted p.row) plans.now }
{
    let mut sum = 0;
    for plan in plans {
        sum += count_in(counted, plan);
    }
    sum
}

// How many spans, or cells, `plan` has. A closed plan has no spans.
fn count_in(counted: Counted, plan: &FiledPlan) -> usize
    ensures value { result ≡ count_of counted plan.now.row }
    ensures few { result ≤ max_volumes * max_cover }
{
    match counted {
        Counted::Spans => plan.row.span_count() as usize,
        Counted::Cells => plan.row.cell_count() as usize,
    }
}
