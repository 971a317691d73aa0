//! Groups of chunks, each within a bounding box of its own, so that a search skips most chunks.
//!
//! Groups, and the chunks of each, ascend by the rank (`Rank`) of their volumes, an order in which neighbours
//! are close together. A group begins at its `low`: no volume of it has a lesser rank. The bounds of a volume
//! are the smallest slab that has its points. A volume is near what is sought if its bounds overlap one of
//! the slabs sought. A plan is wanted if `Wanted` selects it.

ghost use Rattle.std.specs.Prelude.{◌≡◌, ◌∷◌, ◌++◌, [], true, ◌<◌, ◌≤◌, ◌+◌, ◌-◌, length, slice_get, IfOk, OnOk, OnErr, IfSome, IsPermutation};
ghost use Rattle.std.specs.List.{AllByRecursion, filter, insert as insert_at};
ghost use Rattle.live_index.specs.Live.{AreBoundedChunks, AreBoundedGroups, IsInBox, IsBoundedGroup, RemovesPlanVolumes, count_of, group_has_plan, is_of_other_plan, volumes_in, volumes_under, group_has_theirs, AddsPlans};
ghost use Rattle.slab_regions.specs.Regions.{sought_has};

use crate::bbox::BoundingBox;
use crate::chunk as chunks;
use crate::chunk::{Chunk, FULL, INITIAL_LEN, chunk_with, chunked};
use crate::near::{NearPlans, PlanKey, Wanted};
use crate::order::Rank;
use crate::volume::LiveVolume;
use desk_rules::operator::Operator;
use desk_rules::plan_id::PlanId;
use slab_regions::SearchArea;
use std::alloc::{AllocError, Global};
use std::slice;
use volume4d::Slab;

// How many volumes a group gets when an index is built.
const INITIAL_VOLUMES: usize = INITIAL_LEN * INITIAL_LEN;

/// Chunks that follow each other by rank, within a bounding box.
#[derive(Drop)]
pub(crate) struct Group {
    bbox: BoundingBox,
    // at most the least rank of its volumes, since a removal doesn't raise it; no clause mentions it
    low: Option<Rank>,
    chunks: Vec<Chunk>,
}

impl Group {
    // A group of the volumes `lives`, which ascend by rank, in chunks. If memory runs out, the error is
    // `AllocError`.
    fn try_new(alloc: Global, lives: &[LiveVolume]) -> Result<Group, AllocError>
        ensures same { IfOk result (λ group. volumes_in group.chunks.items ≡ lives.now) }
        ensures group_bounded { IfOk result IsBoundedGroup }
    {
        Ok(Group {
            bbox: BoundingBox::around_all(lives),
            low: lives.first().map(|live| live.rank()),
            chunks: chunked(alloc, lives)?,
        })
    }

    // A group of these chunks, which follow each other by rank.
    fn of(chunks: Vec<Chunk>) -> Group
        ensures same { result.chunks.items ≡ chunks.items }
        ensures group_bounded { AreBoundedChunks chunks.items → IsBoundedGroup result }
    {
        Group {
            bbox: around_chunks(&chunks),
            low: chunks.first().and_then(|chunk| chunk.low),
            chunks,
        }
    }

    // Adds a volume to the chunk to which it belongs by its rank, widens the bounding box, and lowers `low`
    // if need be. If memory runs out, the group has the same volumes as before.
    fn insert(&mut self, alloc: Global, live: &LiveVolume) -> Result<(), AllocError>
        ensures added { OnOk result (IsPermutation (live.now ∷ volumes_in self.old.chunks.items)
            (volumes_in self.new.chunks.items)) }
        ensures kept { OnErr result (IsPermutation (volumes_in self.old.chunks.items)
            (volumes_in self.new.chunks.items)) }
        ensures group_bounded { IsBoundedGroup self.old → IsBoundedGroup self.new }
    {
        chunks::insert(alloc, &mut self.chunks, live)?;
        self.bbox = self.bbox.widened(live);
        self.low = self.low.min(Some(live.rank()));
        Ok(())
    }

    // Splits the group: it keeps the first half of its chunks, and a new group of the others is returned. If
    // memory runs out, it stays as it is.
    fn halve(&mut self) -> Result<Group, AllocError>
        ensures same { IfOk result (λ later. volumes_in self.old.chunks.items
            ≡ volumes_in self.new.chunks.items ++ volumes_in later.chunks.items) }
        ensures group_bounded { IfOk result (λ later.
            IsBoundedGroup self.old → IsBoundedGroup self.new × IsBoundedGroup later) }
        ensures unchanged { OnErr result (self.new ≡ self.old) }
    {
        let later = self.chunks.split_off(self.chunks.len() / 2)?;
        self.bbox = around_chunks(&self.chunks);
        Ok(Group::of(later))
    }

    // Removes the volumes of the plan `rank.plan` from the chunk that `chunk_with` finds: the first that may
    // have the rank and has volumes of that plan. Returns how many were removed, or 0 if there is none.
    fn remove_plan(&mut self, rank: &Rank) -> usize
        ensures removed { RemovesPlanVolumes rank.now.plan.operator rank.now.plan.id
            (volumes_in self.old.chunks.items) (volumes_in self.new.chunks.items) result }
        ensures group_bounded { IsBoundedGroup self.old → IsBoundedGroup self.new }
    {
        let gone = chunks::remove_at(&mut self.chunks, rank);
        self.bbox = around_chunks(&self.chunks);
        gone
    }

    // Whether the chunks of `next` may be added to this group: it would be at most half full, and there is
    // capacity for them. The clause says of `true` only that there is capacity, and nothing of `false`.
    fn has_room_for(&self, next: &Group) -> bool
        ensures { result ≡ true → length self.now.chunks.items + length next.now.chunks.items
            ≤ self.now.chunks.cap }
    {
        let sum = self.chunks.len().saturating_add(next.chunks.len());
        sum <= FULL / 2 && sum <= self.chunks.capacity()
    }

    // Adds the chunks of `next`, the group that follows by rank, for which there is capacity. `low` stays,
    // since no volume of `next` has a lesser rank.
    fn absorb(&mut self, next: Group)
        requires { length self.old.chunks.items + length next.chunks.items ≤ self.old.chunks.cap }
        ensures same { volumes_in self.new.chunks.items
            ≡ volumes_in self.old.chunks.items ++ volumes_in next.chunks.items }
        ensures group_bounded { IsBoundedGroup self.old → IsBoundedGroup next → IsBoundedGroup self.new }
    {
        move_all(&mut self.chunks, next.chunks);
        self.bbox = around_chunks(&self.chunks);
    }

    // Whether the group has no chunk.
    fn is_empty(&self) -> bool
        ensures { result ≡ true → self.now.chunks.items ≡ [] }
    {
        self.chunks.is_empty()
    }

    // Whether one of its chunks may have the rank and has a volume of the plan `rank.plan`.
    fn has_plan_at(&self, rank: &Rank) -> bool
        ensures { result ≡ true
            → group_has_plan rank.now.plan.operator rank.now.plan.id self.now ≡ true }
    {
        chunk_with(&self.chunks, rank) < self.chunks.len()
    }

    // Adds to `near` the wanted plans that have a volume of the group near `sought`. Skips the chunks if the
    // bounding box isn't near, if its priority is below `wanted.least`, or if `near` isn't complete any more.
    // If memory runs out, the error is `AllocError`.
    fn add_near(
        &self,
        near: &mut NearPlans,
        wanted: &Wanted,
        sought: &SearchArea,
    ) -> Result<(), AllocError>
        ensures { OnOk result (IsBoundedGroup self.now → AddsPlans wanted.now (sought_has sought.now)
            (volumes_in self.now.chunks.items) near.old near.new) }
    {
        if !near.is_complete {
            return Ok(());
        }
        if !self.bbox.may_meet(wanted.least, sought) {
            return Ok(());
        }
        chunks::add_near_in(near, &self.chunks, wanted, sought)
    }

    /// Whether the group has a volume of an operator other than `operator` whose bounds overlap `extent`. If
    /// the bounding box doesn't overlap it, no chunk is looked at.
    pub(crate) fn has_theirs(&self, operator: &Operator, extent: &Slab) -> bool
        ensures { result ≡ group_has_theirs operator.now extent.now self.now }
    {
        if !self.bbox.bounds.overlaps(extent) {
            return false;
        }
        self.chunks
            .iter()
            .any(|chunk| chunk.has_theirs(operator, extent))
    }
}

// Appends the chunks `more` to `chunks`. There is capacity for them, so `append` can't fail.
fn move_all(chunks: &mut Vec<Chunk>, mut more: Vec<Chunk>)
    requires { length chunks.old.items + length more.items ≤ chunks.old.cap }
    ensures { chunks.new.items ≡ chunks.old.items ++ more.items }
{
    if let Err(refused) = chunks.append(&mut more) {
        drop(refused);
    }
}

// A bounding box of the volumes of all chunks: the boxes of the chunks, joined; the empty one if there are
// none.
fn around_chunks(chunks: &[Chunk]) -> BoundingBox
    ensures { AreBoundedChunks chunks.now → AllByRecursion (IsInBox result) (volumes_in chunks.now) }
{
    match chunks.split_first() {
        Some((first, others)) => join_of_boxes(first, others),
        None => BoundingBox::none(),
    }
}

// A bounding box of the volumes of `first` and `others`: the boxes of these chunks, joined.
fn join_of_boxes(first: &Chunk, others: &[Chunk]) -> BoundingBox
    ensures { AreBoundedChunks (first.now ∷ others.now)
        → AllByRecursion (IsInBox result) (volumes_in (first.now ∷ others.now)) }
{
    let mut bbox = first.bbox;
    for chunk in others {
        bbox = bbox.join(&chunk.bbox);
    }
    bbox
}

/// Adds to `near` the wanted plans that have a volume near `sought` in one of `groups`, as long as `near` is
/// complete.
///
/// # Errors
///
/// `AllocError` if memory runs out.
pub(crate) fn add_near_in(
    near: &mut NearPlans,
    groups: &[Group],
    wanted: &Wanted,
    sought: &SearchArea,
) -> Result<(), AllocError>
    ensures { OnOk result (AreBoundedGroups groups.now → AddsPlans wanted.now (sought_has sought.now)
        (volumes_under groups.now) near.old near.new) }
{
    for group in groups {
        group.add_near(near, wanted, sought)?;
    }
    Ok(())
}

// ---- making and filling

/// Divides volumes, which ascend by rank, into groups of up to `INITIAL_VOLUMES` volumes, and these into
/// chunks, in their order.
///
/// # Errors
///
/// `AllocError` if memory runs out.
pub(crate) fn grouped(alloc: Global, lives: &[LiveVolume]) -> Result<Vec<Group>, AllocError>
    ensures same { IfOk result (λ groups. volumes_under groups.items ≡ lives.now) }
    ensures group_bounded { IfOk result (λ groups. AreBoundedGroups groups.items) }
{
    let mut groups = Vec::new(alloc);
    let mut rest = lives;
    while !rest.is_empty() {
        let (part, later) = rest.split_at(rest.len().min(INITIAL_VOLUMES));
        groups.push(Group::try_new(alloc, part)?)?;
        rest = later;
    }
    Ok(groups)
}

/// Adds a volume to the group and the chunk to which it belongs by its rank. If one is full, it is split
/// first.
///
/// # Errors
///
/// `AllocError` if memory runs out; the groups have the same volumes as before then.
pub(crate) fn insert(
    alloc: Global,
    groups: &mut Vec<Group>,
    live: &LiveVolume,
) -> Result<(), AllocError>
    ensures added { OnOk result (IsPermutation (live.now ∷ volumes_under groups.old.items)
        (volumes_under groups.new.items)) }
    ensures kept { OnErr result (IsPermutation (volumes_under groups.old.items)
        (volumes_under groups.new.items)) }
    ensures group_bounded { AreBoundedGroups groups.old.items → AreBoundedGroups groups.new.items }
{
    make_room(groups, &live.rank())?;
    add(alloc, groups, live)
}

// Splits the group to which a volume of this rank belongs, if it is full. If memory runs out, the groups stay
// as they are.
fn make_room(groups: &mut Vec<Group>, rank: &Rank) -> Result<(), AllocError>
    ensures same { volumes_under groups.new.items ≡ volumes_under groups.old.items }
    ensures group_bounded { AreBoundedGroups groups.old.items → AreBoundedGroups groups.new.items }
{
    let at = last_at_or_before(groups, rank);
    if at < groups.len() && groups[at].chunks.len() >= FULL {
        return cut(groups, at);
    }
    Ok(())
}

// Adds a volume to the group to which it belongs by its rank, or to a new one if there are no groups. If
// memory runs out, the groups have the same volumes as before.
fn add(alloc: Global, groups: &mut Vec<Group>, live: &LiveVolume) -> Result<(), AllocError>
    ensures added { OnOk result (IsPermutation (live.now ∷ volumes_under groups.old.items)
        (volumes_under groups.new.items)) }
    ensures kept { OnErr result (IsPermutation (volumes_under groups.old.items)
        (volumes_under groups.new.items)) }
    ensures group_bounded { AreBoundedGroups groups.old.items → AreBoundedGroups groups.new.items }
{
    let at = last_at_or_before(groups, &live.rank());
    if at < groups.len() {
        return groups[at].insert(alloc, live);
    }
    groups.push(Group::try_new(alloc, slice::from_ref(live))?)?;
    Ok(())
}

// Splits the group at the index `at` into two halves. Capacity for the second is reserved first, so no chunk
// is lost if memory runs out.
fn cut(groups: &mut Vec<Group>, at: usize) -> Result<(), AllocError>
    requires { at < length groups.old.items }
    ensures same { volumes_under groups.new.items ≡ volumes_under groups.old.items }
    ensures group_bounded { AreBoundedGroups groups.old.items → AreBoundedGroups groups.new.items }
{
    groups.reserve(1)?;
    let later = groups[at].halve()?;
    insert_after(groups, at, later);
    Ok(())
}

// Inserts the group `later` after the one at the index `at`. There is capacity for it, so `insert` can't
// fail.
fn insert_after(groups: &mut Vec<Group>, at: usize, later: Group)
    requires place { at < length groups.old.items }
    requires room { length groups.old.items + 1 ≤ groups.old.cap }
    ensures { groups.new.items ≡ insert_at groups.old.items (at + 1) later }
{
    if let Err(refused) = groups.insert(at + 1, later) {
        drop(refused);
    }
}

// Returns the index of the last group whose `low` is at most `rank`: a volume of this rank belongs there.
// Returns 0 if no group has such a `low`, also if there are no groups. The groups ascend by `low`. Ranks are
// compared by place, then by operator, then by id. The contract only says that the index is that of some
// group, or 0 if there are none.
fn last_at_or_before(groups: &[Group], rank: &Rank) -> usize
    ensures { result ≤ length groups.now - 1 }
{
    groups
        .partition_point(|group| group.low <= Some(*rank))
        .saturating_sub(1)
}

// ---- removing

/// Removes the volumes of a plan from the groups. `places` has the place of each volume, and may have others.
/// First the volumes are looked for at these places; if fewer are found than there are places, all groups are
/// searched.
pub(crate) fn remove_all(groups: &mut Vec<Group>, plan: &PlanKey, places: &[u128])
    ensures same { count_of plan.now.operator plan.now.id (volumes_under groups.old.items)
        ≤ length places.now → volumes_under groups.new.items
        ≡ filter (is_of_other_plan plan.now.operator plan.now.id) (volumes_under groups.old.items) }
    ensures group_bounded { AreBoundedGroups groups.old.items → AreBoundedGroups groups.new.items }
{
    let gone = remove_at_places(groups, plan, places);
    if gone < places.len() {
        remove_from_all(groups, &plan.operator, &plan.id);
    }
}

// Removes the volumes of a plan that are found at `places`. Returns how many were removed.
fn remove_at_places(groups: &mut Vec<Group>, plan: &PlanKey, places: &[u128]) -> usize
    ensures removed { RemovesPlanVolumes plan.now.operator plan.now.id (volumes_under groups.old.items)
        (volumes_under groups.new.items) result }
    ensures group_bounded { AreBoundedGroups groups.old.items → AreBoundedGroups groups.new.items }
{
    let mut gone: usize = 0;
    for place in places {
        gone = gone.saturating_add(remove_at(groups, &Rank::of(plan, *place)));
    }
    gone
}

// Removes the volumes of the plan `rank.plan` from one chunk of the group that `group_with` finds. Returns
// how many were removed, or 0 if it finds none.
fn remove_at(groups: &mut Vec<Group>, rank: &Rank) -> usize
    ensures removed { RemovesPlanVolumes rank.now.plan.operator rank.now.plan.id
        (volumes_under groups.old.items) (volumes_under groups.new.items) result }
    ensures group_bounded { AreBoundedGroups groups.old.items → AreBoundedGroups groups.new.items }
{
    let at = group_with(groups, rank);
    if at < groups.len() {
        remove_from_group(groups, rank, at)
    } else {
        0
    }
}

// The index of the first group with a chunk that may have this rank and has a volume of the plan `rank.plan`,
// of the groups that may have the rank: from the last that begins before it to the first that begins after
// it. If none has one, the number of groups.
fn group_with(groups: &[Group], rank: &Rank) -> usize
    ensures bound { result ≤ length groups.now }
    ensures found { IfSome (slice_get groups.now result)
        (λ group. group_has_plan rank.now.plan.operator rank.now.plan.id group ≡ true) }
{
    let mut at = groups
        .partition_point(|group| group.low < Some(*rank))
        .saturating_sub(1);
    while at < groups.len() && !groups[at].has_plan_at(rank) {
        if Some(*rank) < groups[at].low {
            return groups.len();
        }
        at += 1;
    }
    at
}

// Removes the volumes of the plan `rank.plan` from one chunk of the group at the index `at`, and the group if
// it is empty then. Merges what is there with its neighbours if they are small. Returns how many volumes were
// removed.
fn remove_from_group(groups: &mut Vec<Group>, rank: &Rank, at: usize) -> usize
    requires { at < length groups.old.items }
    ensures removed { RemovesPlanVolumes rank.now.plan.operator rank.now.plan.id
        (volumes_under groups.old.items) (volumes_under groups.new.items) result }
    ensures group_bounded { AreBoundedGroups groups.old.items → AreBoundedGroups groups.new.items }
{
    let gone = groups[at].remove_plan(rank);
    drop_if_empty(groups, at);
    merge(groups, at);
    merge(groups, at.saturating_sub(1));
    gone
}

// Merges the group at the index `at` with the next one, if both together are at most half full and there is
// capacity. Else the groups stay as they are.
fn merge(groups: &mut Vec<Group>, at: usize)
    ensures same { volumes_under groups.new.items ≡ volumes_under groups.old.items }
    ensures group_bounded { AreBoundedGroups groups.old.items → AreBoundedGroups groups.new.items }
{
    if at < groups.len().saturating_sub(1) && groups[at].has_room_for(&groups[at + 1]) {
        let next = groups.remove(at + 1);
        groups[at].absorb(next);
    }
}

// Removes the group at the index `at` if it has no chunks.
fn drop_if_empty(groups: &mut Vec<Group>, at: usize)
    requires { at < length groups.old.items }
    ensures same { volumes_under groups.new.items ≡ volumes_under groups.old.items }
    ensures group_bounded { AreBoundedGroups groups.old.items → AreBoundedGroups groups.new.items }
{
    if groups[at].is_empty() {
        let empty = groups.remove(at);
        drop(empty);
    }
}

// Removes the volumes of the operator's plan with this id from all groups. The bounding boxes stay as they
// are, so they may be too big. Empty chunks and groups stay, too.
fn remove_from_all(groups: &mut Vec<Group>, operator: &Operator, id: &PlanId)
    ensures same { volumes_under groups.new.items
        ≡ filter (is_of_other_plan operator.now id.now) (volumes_under groups.old.items) }
    ensures group_bounded { AreBoundedGroups groups.old.items → AreBoundedGroups groups.new.items }
{
    let mut at = 0;
    while at < groups.len() {
        chunks::remove_from_all(&mut groups[at].chunks, operator, id);
        at += 1;
    }
}
