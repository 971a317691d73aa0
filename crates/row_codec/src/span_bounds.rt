//! How long the spans of live plans are, so that a query of the spans near a region need not begin far before
//! it. A span is a range of leaves (S2 cells of level 30, by their positions along the curve), both ends
//! included; rows of spans are looked up by where they begin. Its length is its last position less its first,
//! so 0 for a single leaf. Bounds hold for a span if the queries that they give find its row.

ghost use Rattle.std.specs.Prelude.{◌≡◌, ◌≤◌, ◌<◌, ◌≤ℤ◌, ◌↔◌, ℕ, pos, IfOk, IfSome, IsPermutation, IsTrue, OnOk, Some, length};
ghost use Rattle.std.specs.List.{AllByRecursion, list_any};
ghost use Rattle.s2_cover.specs.declared.spans.Span.{Span as Range};
ghost use Rattle.row_codec.specs.SpanBounds.{FindAll, BeginsOrNone, IsAmong, IsKnown, IsKnownBetween, IsLow, IsRoomFor, IsBoundedBy, IsWithinExtent, Keeps, begins_in, takes_in};

use s2_cover::Span;
use std::alloc::{AllocError, Global};
use volume4d::Slab;

// How many long spans are kept one by one, at most.
const MAX_LONG_SPANS: usize = 16;

// How many positions after its first leaf the last leaf of a cell of level 6 is. A span is long if its last
// leaf is farther from its first.
const MAX_ORDINARY_LENGTH: u64 = (1 << 48) - 1;

/// Which spans live plans may have: those whose last leaf is at most `bound` positions after the first, and
/// the few longer ones of `long_spans`.
#[derive(Clone, Copy)]
pub struct SpanBounds {
    bound: u64,
    // ascending by their first leaves, none of which comes twice; then None for each free place
    long_spans: [Option<Span>; MAX_LONG_SPANS],
}

impl SpanBounds {
    /// The least bounds: they hold for spans of one leaf, and for no longer one.
    pub fn new() -> SpanBounds
        ensures bound { result.bound ≡ 0 }
        ensures long_spans { (span : Range) → ¬ IsAmong result.long_spans span }
    {
        SpanBounds {
            bound: 0,
            long_spans: [None; MAX_LONG_SPANS],
        }
    }

    /// Bounds that also hold for the span `first..=last`. They are the same if the span has one leaf, or if
    /// `first` and `last` aren't the leaf positions of a span.
    pub fn with(&self, first: i64, last: i64) -> SpanBounds
        ensures kept { Keeps self.now result }
        ensures known { IsKnownBetween result first last }
    {
        if 0 <= first && first < last {
            self.with_span(Span {
                first: position_of(first),
                last: position_of(last),
            })
        } else {
            *self
        }
    }

    /// The queries that together find all spans which may hold a point of `extent`. Each is a range of leaves
    /// at which the spans begin: one leaf for each long span that overlaps `extent` and begins more than
    /// `bound` positions before it, and then one range for all other spans.
    ///
    /// # Errors
    ///
    /// `AllocError` if memory runs out.
    pub fn queries(&self, alloc: Global, extent: &Slab) -> Result<Vec<Span>, AllocError>
        ensures complete { IfOk result (λ queries.
            FindAll extent.now (IsKnown self.now) queries.items) }
        ensures within { IfOk result (λ queries.
            AllByRecursion (IsWithinExtent extent.now) queries.items) }
        ensures not_empty { IfOk result (λ queries. 0 < length queries.items) }
    {
        let low = self.low(extent);
        let mut queries = Vec::new(alloc);
        for long_span in &self.long_spans {
            push_query(long_span, low, extent, &mut queries)?;
        }
        queries.push(Span {
            first: low,
            last: extent.last,
        })?;
        Ok(queries)
    }

    // The least leaf at which a span may begin if it overlaps `extent` and is no longer than `bound`.
    fn low(&self, extent: &Slab) -> u64
        ensures low { IsLow result extent.now (IsBoundedBy self.now.bound) }
        ensures small { result ≤ extent.now.first }
    {
        extent.first.saturating_sub(self.bound)
    }

    // Bounds that also hold for `span`. If it is longer than `bound` and than a cell of level 6, it joins
    // `long_spans`. Otherwise, or if there is no room for it, `bound` becomes its length, if that is greater.
    fn with_span(&self, span: Span) -> SpanBounds
        requires { span.first ≤ span.last }
        ensures kept { Keeps self.now result }
        ensures known { IsKnown result span }
    {
        let length = span.last - span.first;
        if length <= self.bound.max(MAX_ORDINARY_LENGTH) {
            return self.with_bound(length);
        }
        match with_long_span(&self.long_spans, span) {
            Some(long_spans) => SpanBounds {
                bound: self.bound,
                long_spans,
            },
            None => self.with_bound(length),
        }
    }

    // The bounds with the greater of their `bound` and `length`; the long spans stay as they are.
    fn with_bound(&self, length: u64) -> SpanBounds
        ensures kept { Keeps self.now result }
        ensures bound { length ≤ result.bound }
    {
        SpanBounds {
            bound: self.bound.max(length),
            long_spans: self.long_spans,
        }
    }
}

// `number`, the value of a column, as a leaf position. It isn't negative.
fn position_of(number: i64) -> u64
    requires { pos 0 ≤ℤ number }
    ensures { (a : ℕ) → number ≡ pos a → result ≡ a }
{
    number as u64
}

// The long spans with `span`. Of two that begin at the same leaf, the longer is kept. `None` if there is no
// room for `span`.
fn with_long_span(
    long_spans: &[Option<Span>; MAX_LONG_SPANS],
    span: Span,
) -> Option<[Option<Span>; MAX_LONG_SPANS]>
    ensures kept { IfSome result (λ more.
        (known : Range) → IsAmong long_spans.now known → IsAmong more known) }
    ensures among { IfSome result (λ more. IsAmong more span) }
{
    let at = slot_for(long_spans, span.first)?;
    let mut more = *long_spans;
    more[at] = Some(longer_of(long_spans[at], span));
    Some(sorted_by_first(more))
}

// The index of the long span that begins at `first`, or else of the first free place; `None` if there is
// neither.
fn slot_for(long_spans: &[Option<Span>; MAX_LONG_SPANS], first: u64) -> Option<usize>
    ensures { IfSome result (λ at. IsRoomFor long_spans.now first at) }
{
    for (at, long_span) in long_spans.iter().enumerate() {
        match long_span {
            Some(long_span) if long_span.first != first => {}
            _ => return Some(at),
        }
    }
    None
}

// The longer of `long_span` and `span`, which begin at the same leaf; `span` if there is no `long_span`.
fn longer_of(long_span: Option<Span>, span: Span) -> Span
    requires { BeginsOrNone span.first long_span }
    ensures kept { (known : Range) → IsTrue (takes_in known long_span)
        → IsTrue (takes_in known (Some result)) }
    ensures among { IsTrue (takes_in span (Some result)) }
{
    match long_span {
        Some(long_span) if span.last < long_span.last => long_span,
        _ => span,
    }
}

// Adds a query for `long_span` if it overlaps `extent` and begins before `low`, where the last query begins;
// else adds none.
fn push_query(
    long_span: &Option<Span>,
    low: u64,
    extent: &Slab,
    queries: &mut Vec<Span>,
) -> Result<(), AllocError>
    requires { low ≤ extent.now.first }
    ensures asked { OnOk result (FindAll extent.now
        (λ span. IsTrue (takes_in span long_span.now) × (span.first < low)) queries.new.items) }
    ensures kept { OnOk result ((span : Range) → IsTrue (list_any (begins_in span) queries.old.items)
        → IsTrue (list_any (begins_in span) queries.new.items)) }
    ensures within { OnOk result (AllByRecursion (IsWithinExtent extent.now) queries.old.items
        → AllByRecursion (IsWithinExtent extent.now) queries.new.items) }
{
    match long_span {
        Some(long_span) if needs_own_query(long_span, low, extent) => {
            queries.push(Span {
                first: long_span.first,
                last: long_span.first,
            })?;
            Ok(())
        }
        _ => Ok(()),
    }
}

// Whether `long_span` overlaps `extent` and begins before `low`, where the last query begins.
fn needs_own_query(long_span: &Span, low: u64, extent: &Slab) -> bool
    ensures { IsTrue result ↔ (long_span.now.first < low) × (long_span.now.first ≤ extent.now.last)
        × (extent.now.first ≤ long_span.now.last) }
{
    long_span.first < low && long_span.first <= extent.last && extent.first <= long_span.last
}

// The long spans in ascending order of their first leaves; free places come last. The contract says only that
// they are the same ones, not their order.
fn sorted_by_first(mut long_spans: [Option<Span>; MAX_LONG_SPANS]) -> [Option<Span>; MAX_LONG_SPANS]
    ensures { IsPermutation long_spans result }
{
    long_spans.sort_unstable_by_key(|long_span| long_span.map_or(
        u64::MAX,
        |long_span| long_span.first,
    ));
    long_spans
}
