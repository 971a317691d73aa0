//! Cells, covers and areas, without a desk.

ghost use Rattle.std.specs.Prelude.{◌↔◌, IfOk, IsTrue};
ghost use Rattle.s2_cover.specs.Covers.{IsRanges, rect_leaves};
ghost use Rattle.desk_rules.specs.Conflict.{HaveAPoint};
ghost use Rattle.desk_examples.specs.Desks.{TokensShare};

use desk_rules::conflict::share_a_point;
use desk_rules::laws::shared_point_is_found;
use s2_cellid::{CellId, TokenFault};
use s2_cover::{CoverFault, Ranges, Rect, cover};
use std::alloc::{AllocError, Global};
use volume4d::Area;

/// Whether the cells of two tokens share a leaf.
///
/// # Errors
///
/// Why the first is no token of a cell, or else why the second is none.
pub fn tokens_share(one: &[u8], other: &[u8]) -> Result<bool, TokenFault>
    ensures { IfOk result (λ share. IsTrue share ↔ TokensShare one.now other.now) }
{
    let cell = CellId::from_token(one)?;
    Ok(cell.intersects(&CellId::from_token(other)?))
}

/// The leaves that a rectangle stands for, as ranges along the curve.
///
/// # Errors
///
/// `TooManyCells` if its cover has more than `limit` cells, `OutOfMemory` if memory runs out.
pub fn ranges_of(alloc: Global, rect: &Rect, limit: u32) -> Result<Ranges, CoverFault>
    ensures { IfOk result (IsRanges (rect_leaves rect.now)) }
{
    let cover = cover(alloc, rect, limit)?;
    cover.ranges().map_err(|_| CoverFault::OutOfMemory)
}

/// Whether two areas have a point in common.
///
/// # Errors
///
/// `AllocError` if memory runs out.
pub fn areas_share(one: &Area, other: &Area) -> Result<bool, AllocError>
    ensures { IfOk result (λ share. IsTrue share ↔ HaveAPoint one.now other.now) }
{
    shared_point_is_found();
    Ok(share_a_point(&one.slabs()?, &other.slabs()?))
}
