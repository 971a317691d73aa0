//! The queries with parameters: their SQL, and the values of the parameters. A span filter (`SpanFilter`) has
//! seven parameters, `?1` to `?7`: its `last`, `first`, `upper`, `lower`, `stop`, `start` and `priority`.
//! Columns are counted from 0.

ghost use Rattle.std.specs.Prelude.{◌≡◌, [], ◌∷◌, ℕ, ℤ, List, filter, map};
ghost use Rattle.sqlite.specs.declared.types.Value.TheVariants.{Text};
ghost use Rattle.desk_sql.specs.declared.reading.rivals.SpanFilter.{SpanFilter as Reach};
ghost use Rattle.desk_sql.specs.Queries.{params_of, order_of, rows_of, plan_params, rival_params, others_params};
ghost use Rattle.desk_sql.specs.Rows.{columns_from_first, is_of, is_row_by, is_rival_from, with_volumes, is_others_from, is_plan_span};
ghost use Rattle.desk_sql.specs.Statements.{Selects};

use crate::parameters::Parameters;
use crate::reading::rivals::SpanFilter;
use sqlite::params;

// NULL, given to `spans_but_text` in place of a plan's id. No comparison with NULL is true, so that the query
// then leaves out all spans of the operator.
const NO_ID: Option<&'static str> = None;

/// A query with the values of its parameters.
#[derive(Clone, Copy)]
pub(crate) enum Query<'a> {
    /// The row of `plan` of the operator's plan `id`.
    PlanOf {
        operator: &'a str,
        id: &'a str,
    },
    /// The rows of `volume2` of the operator's plan `id`, ordered by place.
    VolumesOf {
        operator: &'a str,
        id: &'a str,
    },
    /// Each plan of an operator with each of its volumes, ordered by id and place.
    OwnPlans {
        operator: &'a str,
    },
    /// The spans that `span_filter` selects and that begin at the leaf position `low` or later, except those
    /// of the operator's plan `id`, ordered by `first`.
    RivalSpans {
        operator: &'a str,
        id: &'a str,
        span_filter: SpanFilter,
        low: i64,
    },
    /// The spans that `span_filter` selects and that begin at the leaf position `low` or later, except those
    /// of the operator, ordered by `first`.
    OtherSpans {
        operator: &'a str,
        span_filter: SpanFilter,
        low: i64,
    },
    /// The spans of the operator's plan `id` that `span_filter` selects, in no given order.
    SpansOf {
        operator: &'a str,
        id: &'a str,
        span_filter: SpanFilter,
    },
}

impl<'a> Query<'a> {
    /// The query as SQL. Its parameters `?1`, `?2` and so on are those that `params` returns. `RivalSpans`
    /// and `OtherSpans` have the same text: they differ in the id, which is NULL for `OtherSpans`.
    pub(crate) fn text(self) -> &'static str
        ensures { Selects result.now (params_of self.entry) (order_of self.entry) (rows_of self.entry) }
    {
        match self {
            Query::PlanOf { .. } => plan_of_text(),
            Query::VolumesOf { .. } => volumes_of_text(),
            Query::OwnPlans { .. } => own_plans_text(),
            Query::RivalSpans { .. } => spans_but_text(),
            Query::OtherSpans { .. } => spans_but_text(),
            Query::SpansOf { .. } => plan_spans_text(),
        }
    }

    /// The values of the query's parameters, in the order of their numbers. A span filter's come first.
    pub(crate) fn params(self) -> Parameters<'a>
        ensures { result ≡ params_of self.entry }
    {
        match self {
            Query::PlanOf { operator, id } => Parameters::of(params![operator, id]),
            Query::VolumesOf { operator, id } => Parameters::of(params![operator, id]),
            Query::OwnPlans { operator } => Parameters::of(params![operator]),
            Query::RivalSpans {
                operator,
                id,
                span_filter: r,
                low,
            } => Parameters::of(params![
                r.last, r.first, r.upper, r.lower, r.stop, r.start, r.priority, operator, id, low
            ]),
            Query::OtherSpans {
                operator,
                span_filter: r,
                low,
            } => Parameters::of(params![
                r.last, r.first, r.upper, r.lower, r.stop, r.start, r.priority, operator, NO_ID,
                low
            ]),
            Query::SpansOf {
                operator,
                id,
                span_filter: r,
            } => Parameters::of(params![
                r.last, r.first, r.upper, r.lower, r.stop, r.start, r.priority, operator, id
            ]),
        }
    }
}

// The query of the row of operator `?1`'s plan `?2`.
fn plan_of_text() -> &'static str
    ensures { (operator id : List ℕ) → Selects result.now (Text operator ∷ Text id ∷ []) []
        (λ t. filter (is_of operator id) t.plans) }
{
    "SELECT operator, id, priority, usage, aircraft FROM plan WHERE operator = ?1 AND id = ?2"
}

// The query of the volumes (without `canon`) of operator `?1`'s plan `?2`, ordered by place (column 2).
fn volumes_of_text() -> &'static str
    ensures { (operator id : List ℕ) → Selects result.now (Text operator ∷ Text id ∷ []) (2 ∷ [])
        (λ t. filter (is_of operator id) t.volumes) }
{
    "SELECT operator, id, place, lower, upper, start, stop, asked FROM volume2 \
     WHERE operator = ?1 AND id = ?2 ORDER BY place"
}

// The query of each plan of the operator `?1` with each of its volumes: one row for each volume, ordered by
// the plan's id (column 1) and the volume's place (column 5).
fn own_plans_text() -> &'static str
    ensures { (operator : List ℕ) → Selects result.now (Text operator ∷ []) (1 ∷ 5 ∷ [])
        (with_volumes (is_row_by operator)) }
{
    "SELECT plan.operator, plan.id, plan.priority, plan.usage, plan.aircraft, volume2.place, \
     volume2.lower, volume2.upper, volume2.start, volume2.stop, volume2.asked \
     FROM plan JOIN volume2 ON volume2.operator = plan.operator AND volume2.id = plan.id \
     WHERE plan.operator = ?1 ORDER BY plan.id, volume2.place"
}

// The query of the spans that the filter (`?1` to `?7`) selects and that begin at the leaf position `?10` or
// later, except those of operator `?8`'s plan `?9`, or of all its plans if `?9` is NULL. They are ordered by
// `first` (column 0).
fn spans_but_text() -> &'static str
    ensures rivals { (operator id : List ℕ) (span_filter : Reach) (low : ℤ) → Selects result.now
        (rival_params operator id span_filter low) (0 ∷ [])
        (λ t. map columns_from_first (filter (is_rival_from operator id span_filter low) t.spans)) }
    ensures others { (operator : List ℕ) (span_filter : Reach) (low : ℤ) → Selects result.now
        (others_params operator span_filter low) (0 ∷ [])
        (λ t. map columns_from_first (filter (is_others_from operator span_filter low) t.spans)) }
{
    "SELECT first, last, lower, upper, start, stop, priority FROM span2 \
     WHERE first >= ?10 AND first <= ?1 AND last >= ?2 AND lower < ?3 AND upper > ?4 \
     AND start < ?5 AND stop > ?6 AND priority >= ?7 AND (operator <> ?8 OR id <> ?9) \
     ORDER BY first"
}

// The query of the spans of operator `?8`'s plan `?9` that the filter (`?1` to `?7`) selects, in no given
// order.
fn plan_spans_text() -> &'static str
    ensures { (operator id : List ℕ) (span_filter : Reach) → Selects result.now
        (plan_params operator id span_filter) []
        (λ t. map columns_from_first (filter (is_plan_span operator id span_filter) t.spans)) }
{
    "SELECT first, last, lower, upper, start, stop, priority FROM span2 \
     WHERE first <= ?1 AND last >= ?2 AND lower < ?3 AND upper > ?4 AND start < ?5 \
     AND stop > ?6 AND priority >= ?7 AND operator = ?8 AND id = ?9"
}
