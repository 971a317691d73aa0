//! Corners: points that slabs may share, and their order: by leaf (its position along the S2 curve), then
//! altitude, then second.

ghost use Rattle.std.specs.Prelude.{◌≡◌, ◌&&◌, ◌||◌, Bool, int_le, int_lt};
ghost use Rattle.std.specs.Ordering.{is_lt};
ghost use Rattle.volume4d.specs.{Volume.Point, Volume.point_cmp, Slab.slab_has_leaf, Slab.slab_has, Sweep.IsFirstPoint};
ghost use Rattle.volume4d.specs.Slab as spec;

use crate::slab::Slab;
use std::marker::Model;

/// A point, as the least corner of a slab: the position of its leaf along the S2 curve, its altitude in
/// decimetres above the WGS84 ellipsoid, and its Unix second.
#[derive(Clone, Copy, Debug)]
pub(crate) struct Corner {
    pub(crate) pos: u64,
    pub(crate) altitude: i32,
    pub(crate) second: i64,
}

impl Model for Corner {
    ghost use Rattle.std.specs.Prelude.{◌<◌, ◌*◌, ◌^◌};
    ghost use Rattle.s2_hilbert.specs.Curve.{position_of, grid_leaf_at};
    ghost use Rattle.s2_hilbert.proofs.lemmas.Curve.{position_undone};
    ghost use Rattle.volume4d.specs.Volume.{Point};

    ghost Value = { Point };

    ghost view = { λ c. record {
      leaf = grid_leaf_at c.pos;
      altitude = c.altitude;
      second = c.second;
    } };

    ghost invariant = { λ c. c.pos < 6 * 2 ^ 60 };

    ghost inverse = { λ x. record {
      pos = position_of x.leaf;
      altitude = x.altitude;
      second = x.second;
    } };

    ghost inverse_ok = { λ c _. λ i. record {
      pos = position_undone c.pos i;
      altitude = c.altitude;
      second = c.second;
    } };
}

/// The first point that two slabs share, by leaf, then altitude, then second; `None` if they share none.
pub(crate) fn least_corner(mine: &Slab, theirs: &Slab) -> Option<Corner>
    ensures { IsFirstPoint (λ x. slab_has mine.now x && slab_has theirs.now x) result }
{
    let corner = corner_of(mine, theirs);
    if !has_leaf(mine, &corner) {
        return None;
    }
    if !has_leaf(theirs, &corner) {
        return None;
    }
    if !has_altitude_and_second(mine, &corner) {
        return None;
    }
    if !has_altitude_and_second(theirs, &corner) {
        return None;
    }
    Some(corner)
}

// The point at the greater of each two lower bounds of two slabs. If the slabs share a point, this is the
// first that they share; else one of them doesn't have it.
fn corner_of(mine: &Slab, theirs: &Slab) -> Corner
    ensures { result ≡ spec.corner_of mine.now theirs.now }
{
    Corner {
        pos: mine.first.max(theirs.first),
        altitude: mine.lower.max(theirs.lower),
        second: mine.start.max(theirs.start),
    }
}

/// Whether the slab has the point `x`.
pub(crate) fn has(slab: &Slab, x: &Corner) -> bool
    ensures { result ≡ slab_has slab.now x.now }
{
    has_leaf(slab, x) && has_altitude_and_second(slab, x)
}

// Whether the slab has the leaf of the point `x`.
#[tactic(auto, using(crate::proofs::Corners::slab_has_position))]
fn has_leaf(slab: &Slab, x: &Corner) -> bool
    ensures { result ≡ slab_has_leaf slab.now x.now.leaf }
{
    slab.first <= x.pos && x.pos <= slab.last
}

// Whether the slab has the altitude and the second of the point `x`.
fn has_altitude_and_second(slab: &Slab, x: &Corner) -> bool
    ensures { result ≡ ((int_le slab.now.lower x.now.altitude && int_lt x.now.altitude slab.now.upper)
        && (int_le slab.now.start x.now.second && int_lt x.now.second slab.now.end)) }
{
    (slab.lower <= x.altitude && x.altitude < slab.upper)
        && (slab.start <= x.second && x.second < slab.end)
}

/// The earlier of two points, either of which may be missing; `None` if both are. If they are equal it is
/// `a`.
pub(crate) fn earlier(a: Option<Corner>, b: Option<Corner>) -> Option<Corner>
    ensures { (f g : Point → Bool) → IsFirstPoint f a → IsFirstPoint g b
        → IsFirstPoint (λ x. f x || g x) result }
{
    match (a, b) {
        (None, _) => b,
        (Some(_), None) => a,
        (Some(x), Some(y)) => { if precedes(&y, &x) { b } else { a } }
    }
}

// Whether `a` comes before `b`, by leaf, then altitude, then second; false if they are equal.
#[tactic(auto, using(crate::proofs::Corners::less_position))]
fn precedes(a: &Corner, b: &Corner) -> bool
    ensures { result ≡ is_lt (point_cmp a.now b.now) }
{
    if a.pos != b.pos {
        return a.pos < b.pos;
    }
    if a.altitude != b.altitude {
        return a.altitude < b.altitude;
    }
    a.second < b.second
}
