//! Chunks of volumes, each within a bounding box of its own, so that a search skips most of them.
//!
//! Chunks ascend by the rank (`Rank`) of their volumes, an order in which neighbours are close together.
//! Within a chunk volumes come in any order. A chunk begins at its `low`: no volume of it has a lesser rank.
//! The bounds of a volume are the smallest slab that has its points. A volume is near what is sought if its
//! bounds overlap one of the slabs sought. A plan is wanted if `Wanted` selects it.

ghost use Rattle.std.specs.Prelude.{◌≡◌, ◌+◌, ◌-◌, ◌≤◌, ◌∷◌, ◌++◌, ◌<◌, [], true, length, slice_get, IfOk, OnOk, OnErr, IfSome, IsPermutation};
ghost use Rattle.std.specs.List.{AllByRecursion, filter};
ghost use Rattle.live_index.specs.Live as spec;
ghost use Rattle.live_index.specs.Live.{AreBoundedChunks, IsInBox, RemovesPlanVolumes, IsBoundedChunk, chunk_has_plan, is_of_other_plan, volumes_in, chunk_has_theirs, AddsPlans};
ghost use Rattle.slab_regions.specs.Regions.{sought_has};

use crate::bbox::BoundingBox;
use crate::changing::{push_all, remove_plan_volumes};
use crate::near::{NearPlans, PlanKey, Wanted, add_each};
use crate::order::{Rank, put_in_order};
use crate::volume::LiveVolume;
use desk_rules::operator::Operator;
use desk_rules::plan_id::PlanId;
use slab_regions::SearchArea;
use std::alloc::{AllocError, Global};
use std::slice;
use volume4d::Slab;

/// The most volumes of a chunk, and the most chunks of a group.
pub(crate) const FULL: usize = 64;

/// How many volumes a chunk, or chunks a group, gets when an index is built, so that it has room for more.
pub(crate) const INITIAL_LEN: usize = 48;

/// Volumes that are close to each other, within a bounding box.
#[derive(Drop)]
pub(crate) struct Chunk {
    pub(crate) bbox: BoundingBox,
    // at most the least rank of its volumes, since a removal doesn't raise it; no clause mentions it
    pub(crate) low: Option<Rank>,
    volumes: Vec<LiveVolume>,
}

impl Chunk {
    // A chunk of the volumes `lives`, which ascend by rank, with capacity for `FULL` volumes. If memory runs
    // out, the error is `AllocError`.
    fn from_all(alloc: Global, lives: &[LiveVolume]) -> Result<Chunk, AllocError>
        ensures same { IfOk result (λ chunk. chunk.volumes.items ≡ lives.now) }
        ensures bounded { IfOk result IsBoundedChunk }
    {
        let mut volumes = Vec::new(alloc);
        volumes.reserve(FULL)?;
        volumes.extend_from_slice(lives)?;
        Ok(Chunk {
            bbox: BoundingBox::around_all(lives),
            low: lives.first().map(|live| live.rank()),
            volumes,
        })
    }

    // Adds a volume, widens the bounding box, and lowers `low` if need be. If memory runs out, the chunk
    // stays as it is.
    fn push(&mut self, live: &LiveVolume) -> Result<(), AllocError>
        ensures same { OnOk result (self.new.volumes.items ≡ self.old.volumes.items ++ live.now ∷ []) }
        ensures bounded { OnOk result (IsBoundedChunk self.old → IsBoundedChunk self.new) }
        ensures volumes_unchanged { OnErr result (self.new.volumes.items ≡ self.old.volumes.items) }
        ensures box_unchanged { OnErr result (self.new.bbox ≡ self.old.bbox) }
    {
        self.volumes.push(*live)?;
        self.bbox = self.bbox.widened(live);
        self.low = self.low.min(Some(live.rank()));
        Ok(())
    }

    // Two new chunks with the volumes of this one: the half that is first by rank, and the others. This chunk
    // stays as it is. If memory runs out, the error is `AllocError`.
    fn halves(&self, alloc: Global) -> Result<(Chunk, Chunk), AllocError>
        ensures same { IfOk result (λ halves. IsPermutation self.now.volumes.items
            (halves.0.volumes.items ++ halves.1.volumes.items)) }
        ensures bounded { IfOk result (λ halves. IsBoundedChunk halves.0 × IsBoundedChunk halves.1) }
    {
        let mut lives = Vec::from_slice(alloc, &self.volumes)?;
        put_in_order(&mut lives);
        let (front, back) = lives.split_at(lives.len() / 2);
        Ok((
            Chunk::from_all(alloc, front)?,
            Chunk::from_all(alloc, back)?,
        ))
    }

    // Removes the volumes of the operator's plan with this id, and makes the bounding box anew. Returns how
    // many were removed. `low` stays, though the least rank may be gone.
    fn remove_plan(&mut self, operator: &Operator, id: &PlanId) -> usize
        ensures removed { RemovesPlanVolumes operator.now id.now self.old.volumes.items
            self.new.volumes.items result }
        ensures bounded { IsBoundedChunk self.new }
    {
        let before = self.volumes.len();
        remove_plan_volumes(&mut self.volumes, operator, id);
        self.bbox = BoundingBox::around_all(&self.volumes);
        before.saturating_sub(self.volumes.len())
    }

    // Whether the volumes of `next` may be added to this chunk: together they are at most `FULL / 2`, so that
    // it isn't split again soon, and there is capacity for them. The clause says of `true` only that there is
    // capacity, and nothing of `false`.
    fn has_room_for(&self, next: &Chunk) -> bool
        ensures { result ≡ true → length self.now.volumes.items + length next.now.volumes.items
            ≤ self.now.volumes.cap }
    {
        let sum = self.volumes.len().saturating_add(next.volumes.len());
        sum <= FULL / 2 && sum <= self.volumes.capacity()
    }

    // Adds the volumes of `next`, the chunk that follows by rank, for which there is capacity. `low` stays,
    // since no volume of `next` has a lesser rank.
    fn absorb(&mut self, next: &Chunk)
        requires { length self.old.volumes.items + length next.now.volumes.items ≤ self.old.volumes.cap }
        ensures same { self.new.volumes.items ≡ self.old.volumes.items ++ next.now.volumes.items }
        ensures bounded { IsBoundedChunk self.old → IsBoundedChunk next.now → IsBoundedChunk self.new }
    {
        push_all(&mut self.volumes, &next.volumes);
        self.bbox = self.bbox.join(&next.bbox);
    }

    // Whether the chunk has no volume.
    fn is_empty(&self) -> bool
        ensures { result ≡ true → self.now.volumes.items ≡ [] }
    {
        self.volumes.is_empty()
    }

    // Whether the chunk has a volume of the plan with this key.
    fn has_plan(&self, plan: &PlanKey) -> bool
        ensures { result ≡ chunk_has_plan plan.now.operator plan.now.id self.now }
    {
        self.volumes
            .iter()
            .any(|live| live.is_of(&plan.operator, &plan.id))
    }

    // Adds to `near` the wanted plans that have a volume of the chunk near `sought`. If the bounding box
    // isn't near, or its priority is below `wanted.least`, the volumes are skipped; else the chunk counts as
    // searched. If memory runs out, the error is `AllocError`.
    fn add_near(
        &self,
        near: &mut NearPlans,
        wanted: &Wanted,
        sought: &SearchArea,
    ) -> Result<(), AllocError>
        ensures { OnOk result (IsBoundedChunk self.now
            → AddsPlans wanted.now (sought_has sought.now) self.now.volumes.items near.old near.new) }
    {
        if !self.bbox.may_meet(wanted.least, sought) {
            return Ok(());
        }
        near.count_search();
        add_each(near, &self.volumes, wanted, sought)
    }

    /// Whether the chunk has a volume of an operator other than `operator` whose bounds overlap `extent`. If
    /// the bounding box doesn't overlap it, no volume is looked at.
    pub(crate) fn has_theirs(&self, operator: &Operator, extent: &Slab) -> bool
        ensures { result ≡ chunk_has_theirs operator.now extent.now self.now }
    {
        if !self.bbox.bounds.overlaps(extent) {
            return false;
        }
        self.volumes
            .iter()
            .any(|live| live.is_theirs(operator, extent))
    }
}

/// Adds to `near` the wanted plans that have a volume near `sought` in one of `chunks`, as long as `near` is
/// complete.
///
/// # Errors
///
/// `AllocError` if memory runs out.
pub(crate) fn add_near_in(
    near: &mut NearPlans,
    chunks: &[Chunk],
    wanted: &Wanted,
    sought: &SearchArea,
) -> Result<(), AllocError>
    ensures { OnOk result (AreBoundedChunks chunks.now
        → AddsPlans wanted.now (sought_has sought.now) (volumes_in chunks.now) near.old near.new) }
{
    for chunk in chunks {
        chunk.add_near(near, wanted, sought)?;
    }
    Ok(())
}

// ---- making and filling

/// Divides volumes, which ascend by rank, into chunks of up to `INITIAL_LEN` volumes, in their order.
///
/// # Errors
///
/// `AllocError` if memory runs out.
pub(crate) fn chunked(alloc: Global, lives: &[LiveVolume]) -> Result<Vec<Chunk>, AllocError>
    ensures same { IfOk result (λ chunks. volumes_in chunks.items ≡ lives.now) }
    ensures bounded { IfOk result (λ chunks. AreBoundedChunks chunks.items) }
{
    let mut chunks = Vec::new(alloc);
    let mut rest = lives;
    while !rest.is_empty() {
        let (part, later) = rest.split_at(rest.len().min(INITIAL_LEN));
        chunks.push(Chunk::from_all(alloc, part)?)?;
        rest = later;
    }
    Ok(chunks)
}

/// Adds a volume to the chunk to which it belongs by its rank. A full chunk is split first.
///
/// # Errors
///
/// `AllocError` if memory runs out; the chunks have the same volumes as before then.
pub(crate) fn insert(
    alloc: Global,
    chunks: &mut Vec<Chunk>,
    live: &LiveVolume,
) -> Result<(), AllocError>
    ensures added { OnOk result (IsPermutation (live.now ∷ volumes_in chunks.old.items)
        (volumes_in chunks.new.items)) }
    ensures kept { OnErr result (IsPermutation (volumes_in chunks.old.items) (volumes_in chunks.new.items)) }
    ensures bounded { AreBoundedChunks chunks.old.items → AreBoundedChunks chunks.new.items }
{
    make_room(alloc, chunks, &live.rank())?;
    add(alloc, chunks, live)
}

// Splits the chunk to which a volume of this rank belongs, if it is full. If memory runs out, the chunks stay
// as they are.
fn make_room(alloc: Global, chunks: &mut Vec<Chunk>, rank: &Rank) -> Result<(), AllocError>
    ensures same { IsPermutation (volumes_in chunks.old.items) (volumes_in chunks.new.items) }
    ensures bounded { AreBoundedChunks chunks.old.items → AreBoundedChunks chunks.new.items }
{
    let at = last_at_or_before(chunks, rank);
    if at < chunks.len() && chunks[at].volumes.len() >= FULL {
        return cut(alloc, chunks, at);
    }
    Ok(())
}

// Adds a volume to the chunk to which it belongs by its rank, or to a new one if there are no chunks. If
// memory runs out, the chunks have the same volumes as before.
fn add(alloc: Global, chunks: &mut Vec<Chunk>, live: &LiveVolume) -> Result<(), AllocError>
    ensures added { OnOk result (IsPermutation (live.now ∷ volumes_in chunks.old.items)
        (volumes_in chunks.new.items)) }
    ensures kept { OnErr result (IsPermutation (volumes_in chunks.old.items) (volumes_in chunks.new.items)) }
    ensures bounded { AreBoundedChunks chunks.old.items → AreBoundedChunks chunks.new.items }
{
    let at = last_at_or_before(chunks, &live.rank());
    if at < chunks.len() {
        return chunks[at].push(live);
    }
    chunks.push(Chunk::from_all(alloc, slice::from_ref(live))?)?;
    Ok(())
}

// Splits the chunk at the index `at` into two halves. The second is inserted before the first takes the place
// of the whole, so no volume is lost if memory runs out.
fn cut(alloc: Global, chunks: &mut Vec<Chunk>, at: usize) -> Result<(), AllocError>
    requires { at < length chunks.old.items }
    ensures same { IsPermutation (volumes_in chunks.old.items) (volumes_in chunks.new.items) }
    ensures bounded { AreBoundedChunks chunks.old.items → AreBoundedChunks chunks.new.items }
{
    let (before, after) = chunks[at].halves(alloc)?;
    chunks.insert(at + 1, after)?;
    chunks[at] = before;
    Ok(())
}

// Returns the index of the last chunk whose `low` is at most `rank`: a volume of this rank belongs there.
// Returns 0 if no chunk has such a `low`, also if there are no chunks. The chunks ascend by `low`. Ranks are
// compared by place, then by operator, then by id. The contract only says that the index is that of some
// chunk, or 0 if there are none.
fn last_at_or_before(chunks: &[Chunk], rank: &Rank) -> usize
    ensures { result ≤ length chunks.now - 1 }
{
    chunks
        .partition_point(|chunk| chunk.low <= Some(*rank))
        .saturating_sub(1)
}

// ---- removing

/// Removes the volumes of the plan `rank.plan` from the chunk that `chunk_with` finds. Returns how many were
/// removed, or 0 if it finds none.
pub(crate) fn remove_at(chunks: &mut Vec<Chunk>, rank: &Rank) -> usize
    ensures removed { RemovesPlanVolumes rank.now.plan.operator rank.now.plan.id (volumes_in chunks.old.items)
        (volumes_in chunks.new.items) result }
    ensures bounded { AreBoundedChunks chunks.old.items → AreBoundedChunks chunks.new.items }
{
    let at = chunk_with(chunks, rank);
    if at < chunks.len() {
        remove_from_chunk(chunks, &rank.plan.operator, &rank.plan.id, at)
    } else {
        0
    }
}

/// The index of the first chunk that has a volume of the plan `rank.plan`, of those that may have this rank:
/// from the last chunk that begins before it to the first that begins after it. If none has one, the number
/// of chunks.
pub(crate) fn chunk_with(chunks: &[Chunk], rank: &Rank) -> usize
    ensures bound { result ≤ length chunks.now }
    ensures found { IfSome (slice_get chunks.now result)
        (λ chunk. chunk_has_plan rank.now.plan.operator rank.now.plan.id chunk ≡ true) }
{
    let mut at = chunks
        .partition_point(|chunk| chunk.low < Some(*rank))
        .saturating_sub(1);
    while at < chunks.len() && !chunks[at].has_plan(&rank.plan) {
        if Some(*rank) < chunks[at].low {
            return chunks.len();
        }
        at += 1;
    }
    at
}

// Removes the volumes of the operator's plan with this id from the chunk at the index `at`, and the chunk if
// it is empty then. Merges what is there with its neighbours if they are small. Returns how many volumes were
// removed.
fn remove_from_chunk(chunks: &mut Vec<Chunk>, operator: &Operator, id: &PlanId, at: usize) -> usize
    requires { at < length chunks.old.items }
    ensures removed { RemovesPlanVolumes operator.now id.now (volumes_in chunks.old.items)
        (volumes_in chunks.new.items) result }
    ensures bounded { AreBoundedChunks chunks.old.items → AreBoundedChunks chunks.new.items }
{
    let gone = chunks[at].remove_plan(operator, id);
    drop_if_empty(chunks, at);
    merge(chunks, at);
    merge(chunks, at.saturating_sub(1));
    gone
}

// Merges the chunk at the index `at` with the next one, if both together are at most half full and there is
// capacity. Else the chunks stay as they are.
fn merge(chunks: &mut Vec<Chunk>, at: usize)
    ensures same { volumes_in chunks.new.items ≡ volumes_in chunks.old.items }
    ensures bounded { AreBoundedChunks chunks.old.items → AreBoundedChunks chunks.new.items }
{
    if at < chunks.len().saturating_sub(1) && chunks[at].has_room_for(&chunks[at + 1]) {
        let next = chunks.remove(at + 1);
        chunks[at].absorb(&next);
        drop(next);
    }
}

// Removes the chunk at the index `at` if it has no volumes.
fn drop_if_empty(chunks: &mut Vec<Chunk>, at: usize)
    requires { at < length chunks.old.items }
    ensures same { volumes_in chunks.new.items ≡ volumes_in chunks.old.items }
    ensures bounded { AreBoundedChunks chunks.old.items → AreBoundedChunks chunks.new.items }
{
    if chunks[at].is_empty() {
        let empty = chunks.remove(at);
        drop(empty);
    }
}

/// Removes the volumes of the operator's plan with this id from all chunks. The bounding boxes stay as they
/// are, so they may be too big. Empty chunks stay, too.
pub(crate) fn remove_from_all(chunks: &mut Vec<Chunk>, operator: &Operator, id: &PlanId)
    ensures same { volumes_in chunks.new.items
        ≡ filter (is_of_other_plan operator.now id.now) (volumes_in chunks.old.items) }
    ensures bounded { AreBoundedChunks chunks.old.items → AreBoundedChunks chunks.new.items }
{
    let mut at = 0;
    while at < chunks.len() {
        remove_plan_volumes(&mut chunks[at].volumes, operator, id);
        at += 1;
    }
}
