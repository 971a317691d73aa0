//! Pieces of a plan: a plan that takes many leaves of the S2 curve is compared with stored plans piece by
//! piece, along the curve. A slab has the points of a range of leaves in one range of altitudes and one of
//! seconds; a piece is the slab round a plan, restricted to some leaves. A function fails only if memory runs
//! out or the store fails.
//!
//! In contracts, `IsHonest` says that the storage is intact, the clause `reads` that a call only reads, and
//! the clause `cause` that the store has counted an error that is returned as `Store`.

ghost use Rattle.std.specs.Prelude.{◌+◌, ◌<◌, ◌*◌, ◌^◌, IfOk, IfErr};
ghost use Rattle.desk_store.specs.Changes.{OnlyReads, IsHonest, IsCounted};
ghost use Rattle.volume4d.specs.Slab.{AreFilled};
ghost use Rattle.desk_run.specs.HeldAmong.{IsFirstAmong, AreCut, IsCutTo, IsFirstBlockedAt, IsPiece};

use super::conflict::least_of;
use super::windows::extents_in;
use desk_rules::conflict::first_conflict;
use desk_rules::operator::Operator;
use desk_rules::permission::Permitted;
use desk_rules::plan_id::PlanId;
use desk_store::{PlanStore, StoreFault};
use std::alloc::Global;
use volume4d::{Held, Meeting, Slab, bounds_of};

// How many leaves after its first one the first piece ends: as many as a cell of level 10 has. A plan that is
// no longer takes one query.
const FIRST_LENGTH: u64 = 1 << 40;

// How many times as long each piece is as the one before. All six faces take at most five pieces.
const GROWTH: u64 = 64;

// The first blocked point among `slabs`, one or more: those of the operator's plan `id` of this priority.
// `None` if none is blocked. The store is asked piece by piece, so that nothing is read after the piece with
// that point. Pieces grow, so that a plan that isn't blocked takes only a few queries.
pub fn first_among<S: PlanStore>(
    alloc: Global,
    store: &mut S,
    permitted: &Permitted,
    operator: &Operator,
    id: &PlanId,
    slabs: &[Slab],
    priority: u32,
) -> Result<Option<Meeting>, StoreFault>
    requires { AreFilled slabs.now }
    ensures value { IsHonest (S.doubt store.new) → IfOk result
        (IsFirstAmong permitted.now (S.content store.old) operator.now id.now slabs.now priority) }
    ensures reads { OnlyReads S.content S.doubt S.faults S.may_leave S.is_shielded store.old store.new }
    ensures cause { IfErr result (IsCounted S.faults store.old store.new) }
{
    let whole = bounds_of(slabs);
    let mut length = FIRST_LENGTH;
    let mut piece = piece_from(&whole, whole.first, length);
    while piece.last < whole.last {
        let meeting = first_at(
            alloc, store, permitted, operator, id, slabs, priority, &piece,
        )?;
        if meeting.is_some() {
            return Ok(meeting);
        }
        length = length.saturating_mul(GROWTH);
        piece = next_piece(&whole, &piece, length);
    }
    first_at(
        alloc, store, permitted, operator, id, slabs, priority, &piece,
    )
}

// The piece of `whole`, the bounds of a plan, that follows `piece`: it ends `length` leaves after its first
// one, or with `whole` if that is first. There is such a piece, since `piece` ends before `whole`.
fn next_piece(whole: &Slab, piece: &Slab, length: u64) -> Slab
    requires { piece.now.last < whole.now.last }
    ensures { IsPiece whole.now (piece.now.last + 1) result }
{
    piece_from(whole, piece.last + 1, length)
}

// The slab `whole`, restricted to the leaves from `position` to `length` leaves after it, or to its own last
// leaf if that is first. A position is the number of a leaf along the S2 curve, of which there are 6 * 2^60.
fn piece_from(whole: &Slab, position: u64, length: u64) -> Slab
    requires { position < 6 * 2 ^ 60 }
    ensures { IsPiece whole.now position result }
{
    Slab {
        first: position,
        last: position.saturating_add(length).min(whole.last),
        lower: whole.lower,
        upper: whole.upper,
        start: whole.start,
        end: whole.end,
    }
}

// The first point of `slabs` at the leaves of `piece` where another live plan blocks the operator's plan `id`
// of this priority; `None` if there is none. The store may return slabs that extend beyond the piece, so
// these are cut to it.
fn first_at<S: PlanStore>(
    alloc: Global,
    store: &mut S,
    permitted: &Permitted,
    operator: &Operator,
    id: &PlanId,
    slabs: &[Slab],
    priority: u32,
    piece: &Slab,
) -> Result<Option<Meeting>, StoreFault>
    ensures value { IsHonest (S.doubt store.new) → IfOk result (IsFirstBlockedAt permitted.now
        (S.content store.old) operator.now id.now slabs.now piece.now priority) }
    ensures reads { OnlyReads S.content S.doubt S.faults S.may_leave S.is_shielded store.old store.new }
    ensures cause { IfErr result (IsCounted S.faults store.old store.new) }
{
    let extents = extents_in(alloc, slabs, piece)?;
    let mut theirs = store.rivals_near(operator, id, least_of(permitted, priority), &extents)?;
    cut_in_order(&mut theirs, piece);
    Ok(first_conflict(slabs, &theirs))
}

// Cuts each held slab to the leaves of `piece`, and sorts the slabs by their first leaves, so that one pass
// can compare them with a plan's. (A store may return them plan by plan.)
fn cut_in_order(helds: &mut [Held], piece: &Slab)
    ensures { AreCut piece.now helds.old helds.new }
{
    cut_all(helds, piece);
    helds.sort_unstable_by_key(|held| held.slab.first);
}

// Cuts each held slab to the leaves of `piece`. One without such leaves has no point then.
fn cut_all(helds: &mut [Held], piece: &Slab)
    ensures { AreCut piece.now helds.old helds.new }
{
    for held in helds.iter_mut() {
        *held = Held {
            slab: cut(&held.slab, piece),
            priority: held.priority,
        };
    }
}

// `slab`, restricted to the leaves of `piece`; if it has none of them, `first` is above `last` in the result.
pub fn cut(slab: &Slab, piece: &Slab) -> Slab
    ensures { IsCutTo slab.now piece.now result }
{
    Slab {
        first: slab.first.max(piece.first),
        last: slab.last.min(piece.last),
        lower: slab.lower,
        upper: slab.upper,
        start: slab.start,
        end: slab.end,
    }
}
