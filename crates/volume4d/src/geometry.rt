//! Two slabs: whether they overlap, the smallest one round both, and the one of the points that both have.
//! The upper bounds of altitudes and of seconds are not included, the last leaf is.

ghost use Rattle.std.specs.Prelude.{◌≡◌, ◌&&◌, false, int_lt, nat_le};
ghost use Rattle.std.specs.Int.{int_min, int_max};
ghost use Rattle.volume4d.specs.{Volume.Point, Slab.slab_has, Slab.IsClip, Slab.IsJoin};
ghost use Rattle.volume4d.specs.Slab as spec;

use crate::slab::Slab;

impl Slab {
    /// A slab without points: its first leaf is after its last.
    pub fn empty() -> Slab
        ensures { (x : Point) → slab_has result x ≡ false }
    {
        Slab {
            first: 1,
            last: 0,
            lower: 0,
            upper: 0,
            start: 0,
            end: 0,
        }
    }

    /// Whether the seconds, the altitudes and the leaves of two slabs overlap. If each slab has a point, this
    /// is whether they share one.
    pub fn overlaps(&self, other: &Slab) -> bool
        ensures { result ≡ spec.overlap self.now other.now }
    {
        meet_in_time(self, other) && meet_in_height(self, other) && meet_on_ground(self, other)
    }

    /// The smallest slab round this one and another: the lesser of each two lower bounds, and the greater of
    /// each two upper ones. It has all points of both. The bounds of a slab count even if it has no points.
    pub fn join(&self, other: &Slab) -> Slab
        ensures { IsJoin self.now other.now result }
    {
        let (lower, upper) = joined_altitudes(self, other);
        let (start, end) = joined_seconds(self, other);
        Slab {
            first: self.first.min(other.first),
            last: self.last.max(other.last),
            lower,
            upper,
            start,
            end,
        }
    }

    /// The slab of the points that this one shares with another; it has no points if they share none.
    pub fn clip(&self, other: &Slab) -> Slab
        ensures { IsClip self.now other.now result }
    {
        let (lower, upper) = shared_altitudes(self, other);
        let (start, end) = shared_seconds(self, other);
        Slab {
            first: self.first.max(other.first),
            last: self.last.min(other.last),
            lower,
            upper,
            start,
            end,
        }
    }
}

/// Whether the seconds of two slabs overlap: if each slab has a second, whether they have one in common.
pub(crate) fn meet_in_time(one: &Slab, other: &Slab) -> bool
    ensures { result ≡ (int_lt one.now.start other.now.end && int_lt other.now.start one.now.end) }
{
    one.start < other.end && other.start < one.end
}

/// Whether the altitudes of two slabs overlap: if each slab has an altitude, whether they have one in common.
pub(crate) fn meet_in_height(one: &Slab, other: &Slab) -> bool
    ensures { result ≡ (int_lt one.now.lower other.now.upper && int_lt other.now.lower one.now.upper) }
{
    one.lower < other.upper && other.lower < one.upper
}

// Whether the leaves of two slabs overlap: if each slab has a leaf, whether they have one in common.
fn meet_on_ground(one: &Slab, other: &Slab) -> bool
    ensures { result ≡ (nat_le one.now.first other.now.last && nat_le other.now.first one.now.last) }
{
    one.first <= other.last && other.first <= one.last
}

// The lesser lower bound and the greater upper bound of the altitudes of two slabs: those of the smallest
// slab round both.
fn joined_altitudes(one: &Slab, other: &Slab) -> (i32, i32)
    ensures lower { result.0 ≡ int_min one.now.lower other.now.lower }
    ensures upper { result.1 ≡ int_max one.now.upper other.now.upper }
{
    (one.lower.min(other.lower), one.upper.max(other.upper))
}

// The lesser start and the greater end of the seconds of two slabs: those of the smallest slab round both.
fn joined_seconds(one: &Slab, other: &Slab) -> (i64, i64)
    ensures start { result.0 ≡ int_min one.now.start other.now.start }
    ensures end { result.1 ≡ int_max one.now.end other.now.end }
{
    (one.start.min(other.start), one.end.max(other.end))
}

// The greater lower bound and the lesser upper bound of the altitudes of two slabs: those of the altitudes
// that both have. The first is less than the second only if there are any.
fn shared_altitudes(one: &Slab, other: &Slab) -> (i32, i32)
    ensures lower { result.0 ≡ int_max one.now.lower other.now.lower }
    ensures upper { result.1 ≡ int_min one.now.upper other.now.upper }
{
    (one.lower.max(other.lower), one.upper.min(other.upper))
}

// The greater start and the lesser end of the seconds of two slabs: those of the seconds that both have. The
// first is less than the second only if there are any.
fn shared_seconds(one: &Slab, other: &Slab) -> (i64, i64)
    ensures start { result.0 ≡ int_max one.now.start other.now.start }
    ensures end { result.1 ≡ int_min one.now.end other.now.end }
{
    (one.start.max(other.start), one.end.min(other.end))
}
