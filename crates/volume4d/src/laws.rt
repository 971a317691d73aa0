//! Laws of the definitions of footprints. Each is the contract of a function that does nothing else. A caller
//! makes the law known to the prover by calling the function.

ghost use Rattle.std.specs.Prelude.{◌≡◌, ◌≤◌, IsTrue, length};
ghost use Rattle.s2_cover.specs.Covers.{canonical_list};
ghost use Rattle.volume4d.specs.{VolumeLimits.max_cover, Footprint.HasValidParts, Footprint.footprint_bytes};
ghost use Rattle.volume4d.specs.Volume.{Shape, is_footprint, shape_positions, volume_cells, volume_spans, Block};

use s2_cover::laws::{
    canonical_list_exists, canonical_list_is, equal_sets_have_equal_covers, one_canonical_list,
    ranges_are_few, shortest,
};

/// Two footprints that have the same bytes (`Footprint::to_bytes`) are the same.
pub fn one_shape()
    ensures { (one other : Shape) → HasValidParts one → HasValidParts other
        → footprint_bytes one ≡ footprint_bytes other → one ≡ other }
{}

/// The canonical cover of a footprint within its limits has at most 1,024 cells, as many as that of a
/// rectangle may have.
pub fn covers_are_few()
    ensures { (shape : Shape) → IsTrue (is_footprint shape) → HasValidParts shape
        → length (canonical_list (shape_positions shape)) ≤ max_cover }
{
    one_canonical_list();
    equal_sets_have_equal_covers();
    canonical_list_is();
    shortest();
}

/// A volume whose footprint is within its limits has at most 1,024 spans (ranges of its leaves), as many as
/// the cover of a rectangle may have cells.
pub fn spans_are_few()
    ensures { (v : Block) → IsTrue (is_footprint v.footprint) → HasValidParts v.footprint
        → volume_spans v ≤ max_cover }
{
    covers_are_few();
    one_canonical_list();
    canonical_list_exists();
    canonical_list_is();
    ranges_are_few();
}

/// A volume whose footprint is within its limits has at most 1,024 cells, as many as the cover of a rectangle
/// may have.
pub fn cells_are_few()
    ensures { (v : Block) → IsTrue (is_footprint v.footprint) → volume_cells v ≤ max_cover }
{}
