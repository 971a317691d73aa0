//! Laws of the definitions of covers and ranges. Each is the contract of a function that does nothing. A
//! caller makes the law known to the prover by calling the function. A set of leaves is given by a function
//! that says which positions it has. Its canonical list is that of the largest cells that have no other
//! leaves, ascending.

ghost use Rattle.std.specs.Prelude.{◌≡◌, ◌↔◌, ℕ, ◌*◌, ◌^◌, ◌<◌, ◌≤◌, Bool, IsTrue, List, Contains, length};
ghost use Rattle.s2_hilbert.specs.Grid.{GridLeaf};
ghost use Rattle.s2_cellid.specs.Cell.{IsCellId};
ghost use Rattle.s2_cover.specs.Covers.{leaves_of, IsCanonical, canonical_list, RectParts, IsRect, IsInFootprint, widened, wide_has, IsRanges, range_count};
ghost use Rattle.s2_cover.specs.declared.spans.Span.{Span};

/// A set of leaves has at most one canonical list of cells.
pub fn one_canonical_list()
    ensures { (set : ℕ → Bool) (one other : List ℕ) → IsCanonical set one
        → IsCanonical set other → one ≡ other }
{}

/// Sets with the same leaves have the same canonical list: what is the list of one is that of the other.
pub fn equal_sets_have_equal_covers()
    ensures { (set other : ℕ → Bool) (ids : List ℕ) → ((p : ℕ) → set p ≡ other p)
        → IsCanonical set ids → IsCanonical other ids }
{}

/// Each set of leaves has a canonical list of cells. The cells have just the leaves of the set.
pub fn canonical_list_exists()
    ensures { (set : ℕ → Bool) → ((p : ℕ) → IsTrue (set p) → p < 6 * 2 ^ 60)
        → (ids : List ℕ) × (IsCanonical set ids × ((p : ℕ) → leaves_of ids p ≡ set p)) }
{}

/// The definition `canonical_list` gives the canonical list of a set of leaves.
pub fn canonical_list_is()
    ensures { (set : ℕ → Bool) → IsCanonical set (canonical_list set) }
{}

/// No list of cells with the leaves of a set is shorter than its canonical list.
pub fn shortest()
    ensures { (set : ℕ → Bool) (ids others : List ℕ) → IsCanonical set ids
        → ((id : ℕ) → Contains others id → IsCellId id)
        → ((p : ℕ) → leaves_of others p ≡ set p) → length ids ≤ length others }
{}

/// The test `wide_has` of a rectangle passes for exactly the leaves of its footprint. (`wide_has` compares
/// coordinates of squares; the footprint is defined by leaves that share a square.)
pub fn rectangles_are_squares()
    ensures { (rect : RectParts) (leaf : GridLeaf) → IsRect rect
        → IsTrue (wide_has (widened rect) leaf) ↔ IsInFootprint rect leaf }
{}

/// A set of leaf positions has at most one list of ranges: its longest runs of positions, ascending.
pub fn one_list_of_ranges()
    ensures { (set : ℕ → Bool) (one other : List Span) → IsRanges set one
        → IsRanges set other → one ≡ other }
{}

/// Sets with the same positions have the same ranges: what are the ranges of one are those of the other.
pub fn equal_sets_have_equal_ranges()
    ensures { (set other : ℕ → Bool) (spans : List Span) → ((p : ℕ) → set p ≡ other p)
        → IsRanges set spans → IsRanges other spans }
{}

/// A set of leaf positions has as many ranges as `range_count` says: it counts the positions that begin one.
pub fn ranges_are_counted()
    ensures { (set : ℕ → Bool) (spans : List Span) → IsRanges set spans → length spans ≡ range_count set }
{}

/// A set of leaves has at most as many ranges as any list of cells that has its leaves.
pub fn ranges_are_few()
    ensures { (set : ℕ → Bool) (ids : List ℕ) → ((p : ℕ) → leaves_of ids p ≡ set p)
        → range_count set ≤ length ids }
{}
