//! The slabs that a search for volumes is about: it looks for volumes whose bounding slab overlaps one of
//! them.

ghost use Rattle.std.specs.Prelude.{◌≡◌, true};
ghost use Rattle.volume4d.specs.{Volume.Point, Slab.slab_has};
ghost use Rattle.slab_regions.specs.Regions as spec;

use std::slice;
use volume4d::Slab;

/// The slabs of a search (`parts`), and one slab that encloses them (`whole`). What doesn't overlap `whole`
/// overlaps no part, and is skipped after one test.
#[derive(Clone, Copy, Debug)]
pub struct SearchArea<'a> {
    pub whole: Slab,
    pub parts: &'a [Slab],
}

impl SearchArea<'_> {
    /// A search about the one slab `extent`: it is the whole and the only part.
    pub fn one(extent: &Slab) -> SearchArea<'_>
        ensures { (x : Point) → slab_has extent.now x ≡ true → spec.sought_has result x ≡ true }
    {
        SearchArea {
            whole: *extent,
            parts: slice::from_ref(extent),
        }
    }

    /// Whether `slab` overlaps `whole` and one of `parts`.
    pub fn meets(&self, slab: &Slab) -> bool
        ensures { result ≡ spec.meets self.now slab.now }
    {
        if !slab.overlaps(&self.whole) {
            return false;
        }
        self.parts.iter().any(|part| slab.overlaps(part))
    }
}
