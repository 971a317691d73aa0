//! Laws of the definitions of a conflict and of a shared point. Each is the contract of a function that does
//! nothing. A caller makes the law known to the prover by calling the function. `levels` gives for each point
//! the greatest priority that other plans hold there, or none; a spot is a point with such a priority.

ghost use Rattle.std.specs.Prelude.{◌≡◌, ◌↔◌, ℕ, List, Option, true};
ghost use Rattle.volume4d.specs.{Volume.Point, Volume.Block, Sweep.Spot, Sweep.IsFirst};
ghost use Rattle.volume4d.specs.declared.slab.Slab.{Slab};
ghost use Rattle.desk_rules.specs.Conflict.{AreSlabsOf, is_blocked_among, IsConflict, conflict, HaveAPoint, share_a_point};

/// An area has only one conflict: two spots (or none) that satisfy `IsConflict` for the same area, levels,
/// priority and permitted priorities are equal.
pub fn one_conflict()
    ensures { (permitted : List ℕ) (area : List Block) (levels : Point → Option ℕ) (priority : ℕ)
        (a b : Option Spot) → IsConflict permitted area levels priority a →
        IsConflict permitted area levels priority b → a ≡ b }
{}

/// What `conflict` finds as it searches point by point is the conflict: it satisfies `IsConflict`.
pub fn conflict_is_found()
    ensures { (permitted : List ℕ) (area : List Block) (levels : Point → Option ℕ) (priority : ℕ) →
        IsConflict permitted area levels priority (conflict permitted area levels priority) }
{}

/// If slabs have just the points of an area, the first blocked point among the slabs is the area's conflict.
pub fn conflict_among_slabs()
    ensures { (permitted : List ℕ) (area : List Block) (levels : Point → Option ℕ) (priority : ℕ)
        (slabs : List Slab) → AreSlabsOf slabs area → (spot : Option Spot) →
        IsFirst (is_blocked_among permitted slabs levels priority) levels spot →
        spot ≡ conflict permitted area levels priority }
{}

/// If two functions `f` and `g` give the same greatest priority of others at each point, `conflict` finds the
/// same with both, and what is the conflict by `f` is the one by `g`.
pub fn same_levels_same_conflict()
    ensures found { (permitted : List ℕ) (area : List Block) (f g : Point → Option ℕ)
        (priority : ℕ) →
        ((x : Point) → f x ≡ g x) →
        conflict permitted area f priority ≡ conflict permitted area g priority }
    ensures kept { (permitted : List ℕ) (area : List Block) (f g : Point → Option ℕ) (priority : ℕ)
        (spot : Option Spot) → ((x : Point) → f x ≡ g x) → IsConflict permitted area f priority spot
        → IsConflict permitted area g priority spot }
{}

/// `share_a_point` is true if, and only if, two areas share a point.
pub fn shared_point_is_found()
    ensures { (area other : List Block) → (share_a_point area other ≡ true) ↔ HaveAPoint area other }
{}
