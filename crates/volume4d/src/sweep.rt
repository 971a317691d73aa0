//! The sweep: the first point that two lists of slabs share, found along both lists at once. Points are
//! ordered by leaf, then altitude, then second. `pairs` counts the pairs of slabs that are compared, which
//! tests read and of which no clause speaks.
//!
//! The sweep makes a lane for each window (altitudes and seconds) of the slabs `mine`, at most 32. A lane
//! walks over `mine` and stops only at slabs with its window. If there are more windows, or if a list isn't
//! sorted, each pair is compared.

ghost use Rattle.std.specs.Prelude.{◌≡◌, ◌≤◌, ◌&&◌, nat_lt, true, false, List, All, IfSome, IsTrue, length, take};
ghost use Rattle.std.specs.List.{list_any};
ghost use Rattle.s2_hilbert.specs.Curve.{position_of};
ghost use Rattle.volume4d.specs.declared.slab.Slab.{Slab};
ghost use Rattle.volume4d.specs.{Volume.Point, Slab.slab_has, Slab.slabs_have};
ghost use Rattle.volume4d.specs.Sweep.{IsFirstPoint, items_have, Ascend, IsPassed, AreLate, AddsFirst, is_alike, alike_have, KeepsFrom, IsReached, BeginsReached, lanes_have, LanesAscend, HaveAllLeft, IsCovered};

use crate::area::MAX_VOLUMES;
use crate::corner::{Corner, earlier, least_corner};
use crate::geometry::{meet_in_height, meet_in_time};
use crate::has_slab::HasSlab;
use crate::slab::Slab;

// The most lanes: an area has at most so many windows, since all slabs of a volume have the volume's window.
const MAX_LANES: usize = MAX_VOLUMES;

// A window of altitudes and seconds (the leaves of `window` don't matter), and the slabs of `mine` that are
// left to look at. Only those with this window count.
#[derive(Clone, Copy, Debug)]
pub(crate) struct Lane<'a> {
    window: Slab,
    left: &'a [Slab],
}

/// The first point that a slab of `mine` shares with one of `theirs`, or `None` if they share none. Adds the
/// number of pairs of slabs that it compares to `pairs`. The lists may be in any order; it is faster if both
/// ascend by their first leaves.
pub(crate) fn first_shared<T: HasSlab>(
    mine: &[Slab],
    theirs: &[T],
    pairs: &mut u128,
) -> Option<Corner>
    ensures { IsFirstPoint (λ x. slabs_have mine.now x && items_have T.slab_of theirs.now x) result }
{
    if theirs.is_empty() {
        return None;
    }
    match first_ascending(mine, theirs, pairs) {
        Some(first) => first,
        None => first_of_all_pairs(mine, theirs, pairs),
    }
}

// The first point that slabs of `mine` and `theirs` share, by a sweep; `Some(None)` if they share none.
// `None` if a list does not ascend, or if `mine` have more than 32 windows: then a sweep is not possible.
fn first_ascending<T: HasSlab>(
    mine: &[Slab],
    theirs: &[T],
    pairs: &mut u128,
) -> Option<Option<Corner>>
    ensures { IfSome result (IsFirstPoint
        (λ x. slabs_have mine.now x && items_have T.slab_of theirs.now x)) }
{
    if !is_ascending(mine) {
        return None;
    }
    if !is_ascending(theirs) {
        return None;
    }
    sweep(mine, theirs, pairs)
}

// Whether the slabs of a list ascend by their first leaves; equal ones may follow each other. True of no
// slabs.
fn is_ascending<T: HasSlab>(list: &[T]) -> bool
    ensures { IsTrue result → Ascend T.slab_of list.now }
{
    let mut first = 0;
    for item in list {
        let next = item.slab().first;
        if next < first {
            return false;
        }
        first = next;
    }
    true
}

// The first point that two ascending lists share; `Some(None)` if they share none. `None` if `mine` have more
// windows than there are lanes.
fn sweep<T: HasSlab>(mine: &[Slab], theirs: &[T], pairs: &mut u128) -> Option<Option<Corner>>
    requires mine { Ascend (λ s. s) mine.now }
    requires theirs { Ascend T.slab_of theirs.now }
    ensures { IfSome result (IsFirstPoint
        (λ x. slabs_have mine.now x && items_have T.slab_of theirs.now x)) }
{
    let mut lanes = [Lane {
        window: Slab::empty(),
        left: mine,
    }; MAX_LANES];
    let count = fill_lanes(mine, &mut lanes)?;
    Some(first_along(&mut lanes[..count], theirs, pairs))
}

// Makes a lane for each window of `mine`, from the first lane on, with all of `mine` left to look at. Returns
// the number of windows, or `None` if there are more windows than lanes.
fn fill_lanes<'a>(mine: &'a [Slab], lanes: &mut [Lane<'a>]) -> Option<usize>
    requires { HaveAllLeft mine.now lanes.old }
    ensures within { IfSome result (λ count. count ≤ length lanes.new) }
    ensures covered { IfSome result (λ count. All (IsCovered (take count lanes.new)) mine.now) }
    ensures all_left { HaveAllLeft mine.now lanes.new }
{
    let mut count = 0;
    for slab in mine {
        count = add_lane(mine, lanes, count, slab)?;
    }
    Some(count)
}

// Makes a lane for the window of `slab` behind the first `count` lanes, if none of these has that window.
// Returns how many lanes there are then, or `None` if one is needed and none is free.
fn add_lane<'a>(
    mine: &'a [Slab],
    lanes: &mut [Lane<'a>],
    count: usize,
    slab: &Slab,
) -> Option<usize>
    requires within { count ≤ length lanes.old }
    requires all_left { HaveAllLeft mine.now lanes.old }
    ensures within { IfSome result (λ more. more ≤ length lanes.new) }
    ensures kept { IfSome result (λ more. (s : Slab) → IsCovered (take count lanes.old) s
        → IsCovered (take more lanes.new) s) }
    ensures covered { IfSome result (λ more. IsCovered (take more lanes.new) slab.now) }
    ensures all_left { HaveAllLeft mine.now lanes.new }
{
    if has_lane(lanes.split_at(count).0, slab) {
        return Some(count);
    }
    if count >= lanes.len() {
        return None;
    }
    lanes[count] = Lane {
        window: *slab,
        left: mine,
    };
    Some(count + 1)
}

// Whether one of the lanes has the window of `slab`: the same altitudes and seconds.
fn has_lane(lanes: &[Lane], slab: &Slab) -> bool
    ensures { result ≡ list_any (λ l. is_alike l.window slab.now) lanes.now }
{
    lanes.iter().any(|lane| are_alike(&lane.window, slab))
}

// Whether two slabs have the same altitudes and seconds.
fn are_alike(window: &Slab, slab: &Slab) -> bool
    ensures { result ≡ is_alike window.now slab.now }
{
    window.lower == slab.lower
        && window.upper == slab.upper
        && window.start == slab.start
        && window.end == slab.end
}

// The first point that slabs of the lanes share with `theirs`, which ascend; `None` if they share none. Each
// lane drops slabs that end before the current slab of `theirs`, since later ones can't meet them. The walk
// ends at a slab that begins after the point found so far.
fn first_along<T: HasSlab>(lanes: &mut [Lane], theirs: &[T], pairs: &mut u128) -> Option<Corner>
    requires lanes { LanesAscend lanes.old }
    requires theirs { Ascend T.slab_of theirs.now }
    ensures { IsFirstPoint (λ x. lanes_have lanes.old x && items_have T.slab_of theirs.now x) result }
{
    let mut first = None;
    for item in theirs {
        let other = item.slab();
        if is_after(other.first, &first) {
            return first;
        }
        first = first_across(lanes, other, first, pairs);
    }
    first
}

// The first of `found` and of the points that the lanes share with `other`; `None` if there is none. The
// lanes drop slabs that end before `other`.
fn first_across(
    lanes: &mut [Lane],
    other: &Slab,
    found: Option<Corner>,
    pairs: &mut u128,
) -> Option<Corner>
    requires { LanesAscend lanes.old }
    ensures order { LanesAscend lanes.new }
    ensures kept { (x : Point) → other.now.first ≤ position_of x.leaf
        → lanes_have lanes.new x ≡ lanes_have lanes.old x }
    ensures first { AddsFirst (λ x. lanes_have lanes.old x && slab_has other.now x) found result }
{
    let mut first = found;
    for lane in lanes.iter_mut() {
        first = first_in_lane(lane, other, first, pairs);
    }
    first
}

// The first of `found` and of the points that a lane shares with `other`; `None` if there is none. If their
// windows meet, the lane drops the slabs at its front that have another window or end before `other`.
fn first_in_lane(
    lane: &mut Lane,
    other: &Slab,
    found: Option<Corner>,
    pairs: &mut u128,
) -> Option<Corner>
    requires { Ascend (λ s. s) lane.old.left.now }
    ensures order { Ascend (λ s. s) lane.new.left.now }
    ensures kept { (x : Point) → other.now.first ≤ position_of x.leaf
        → alike_have lane.new.window lane.new.left.now x ≡ alike_have lane.old.window lane.old.left.now x }
    ensures first { AddsFirst (λ x. alike_have lane.old.window lane.old.left.now x && slab_has other.now x)
        found result }
{
    if is_apart(&lane.window, other) {
        return found;
    }
    lane.left = without_skipped(lane.left, &lane.window, other.first);
    earlier(found, first_of_head(lane.left, &lane.window, other, pairs))
}

// Whether the seconds or the altitudes of two slabs don't overlap. Then no slab with the window of the first
// shares a point with `other`.
fn is_apart(window: &Slab, other: &Slab) -> bool
    ensures { IsTrue result → (slabs : List Slab) (x : Point)
        → (alike_have window.now slabs x && slab_has other.now x) ≡ false }
{
    if !meet_in_time(window, other) {
        return true;
    }
    !meet_in_height(window, other)
}

// `slabs` without those at the front that have another window than `window` or end before `position`. The
// first slab left, if any, has this window and reaches `position`.
fn without_skipped<'a>(slabs: &'a [Slab], window: &Slab, position: u64) -> &'a [Slab]
    requires { Ascend (λ s. s) slabs.now }
    ensures order { Ascend (λ s. s) result.now }
    ensures left { KeepsFrom window.now position slabs.now result.now }
    ensures begins { BeginsReached window.now position result.now }
{
    let mut left = slabs;
    while let Some((slab, others)) = left.split_first() {
        if !is_skipped(window, slab, position) {
            return left;
        }
        left = others;
    }
    left
}

// Whether a slab has another window (altitudes and seconds) than `window`, or no leaf at `position` or after
// it.
fn is_skipped(window: &Slab, slab: &Slab, position: u64) -> bool
    ensures passed { IsTrue result → (x : Point) → position ≤ position_of x.leaf
        → (is_alike window.now slab.now && slab_has slab.now x) ≡ false }
    ensures reached { result ≡ false → IsReached window.now position slab.now }
{
    ends_before(slab, position) || !are_alike(window, slab)
}

// The first point that the slabs of `left` with this window share with `other`; `None` if they share none.
// The first slab of `left` has the window and reaches `other`, and ascending slabs follow. So if any of them
// shares a point, the first shares the earliest, and only the first is compared.
fn first_of_head(left: &[Slab], window: &Slab, other: &Slab, pairs: &mut u128) -> Option<Corner>
    requires order { Ascend (λ s. s) left.now }
    requires begins { BeginsReached window.now other.now.first left.now }
    ensures { IsFirstPoint (λ x. alike_have window.now left.now x && slab_has other.now x) result }
{
    match left.split_first() {
        Some((slab, _)) => compare_if_begun(slab, other, pairs),
        None => None,
    }
}

// The first point that two slabs share; `None` if they share none. A slab that begins after the end of
// `other` isn't compared.
fn compare_if_begun(slab: &Slab, other: &Slab, pairs: &mut u128) -> Option<Corner>
    ensures { IsFirstPoint (λ x. slab_has slab.now x && slab_has other.now x) result }
{
    if slab.first > other.last {
        return None;
    }
    compare(slab, other, pairs)
}

// Whether `position` is after the leaf of the point `first`; false if there is no point.
#[tactic(auto, using(crate::proofs::Sweeping::late_after))]
fn is_after(position: u64, first: &Option<Corner>) -> bool
    ensures { IsTrue result → AreLate position first.now }
{
    first.is_some_and(|corner| is_beyond(position, &corner))
}

// Whether `position` is after the leaf of the point `corner`.
#[tactic(auto, using(s2_hilbert::proofs::lemmas::Curve::position_undone))]
fn is_beyond(position: u64, corner: &Corner) -> bool
    ensures { result ≡ nat_lt (position_of corner.now.leaf) position }
{
    corner.pos < position
}

// Whether a slab has no leaf at `position` or after it; true of a slab without leaves.
fn ends_before(slab: &Slab, position: u64) -> bool
    ensures passed { IsTrue result → IsPassed position slab.now }
    ensures some { result ≡ false → slab.now.first ≤ slab.now.last }
    ensures reaches { result ≡ false → position ≤ slab.now.last }
{
    slab.last < slab.first || slab.last < position
}

// The first point that two lists in any order share; `None` if they share none. Compares each pair.
fn first_of_all_pairs<T: HasSlab>(mine: &[Slab], theirs: &[T], pairs: &mut u128) -> Option<Corner>
    ensures { IsFirstPoint (λ x. slabs_have mine.now x && items_have T.slab_of theirs.now x) result }
{
    let mut first = None;
    for item in theirs {
        first = earlier(first, first_shared_with(mine, item.slab(), pairs));
    }
    first
}

// The first point that a slab of `mine` shares with `other`; `None` if they share none. Compares each pair.
fn first_shared_with(mine: &[Slab], other: &Slab, pairs: &mut u128) -> Option<Corner>
    ensures { IsFirstPoint (λ x. slabs_have mine.now x && slab_has other.now x) result }
{
    let mut first = None;
    for slab in mine {
        first = earlier(first, compare(slab, other, pairs));
    }
    first
}

// The first point that two slabs share; `None` if they share none. Adds one to `pairs`, up to the greatest
// `u128`.
fn compare(slab: &Slab, other: &Slab, pairs: &mut u128) -> Option<Corner>
    ensures { IsFirstPoint (λ x. slab_has slab.now x && slab_has other.now x) result }
{
    *pairs = pairs.saturating_add(1);
    least_corner(slab, other)
}
