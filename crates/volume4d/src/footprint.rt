//! Footprints: the ground that a volume covers, and its bytes, as they are stored. A call of a law, as
//! `ranges_are_counted`, does nothing: it makes the law known to the prover.

ghost use Rattle.std.specs.Prelude.{◌≡◌, ◌+◌, ◌≤◌, [], ◌∷◌, IfOk, IfErr, MatchOption, length, slice_index};
ghost use Rattle.std.specs.{Int.w32, Int.w64, Int.to_be_bytes, Int.from_be_bytes, Option.SomeIff};
ghost use Rattle.s2_cellid.specs.Cell.{IsCellId};
ghost use Rattle.volume4d.specs.{VolumeLimits.within_cells, Volume.Shape, Volume.shape_cells, Volume.HasRanges, Volume.IsFaultOf, Footprint.shape_of, Footprint.footprint_bytes, Footprint.HasValidParts, Footprint.AreBytesOf};
ghost use Rattle.volume4d.specs.Volume as shapes;

use crate::fault::VolumeFault;
use s2_cellid::CellId;
use s2_cover::laws::{ranges_are_counted, ranges_are_few};
use s2_cover::{CoverFault, Ranges, Rect, cover, normalise};
use std::alloc::{AllocError, Global};

// The first byte of a cell list, before the ids.
const CELLS: u8 = 1;

// The first byte of a rectangle, before its parts.
const RECTANGLE: u8 = 2;

// How many bytes the parts of a rectangle take, without the first byte.
const RECTANGLE_BYTES: usize = 18;

/// The most cells of a cell list.
pub const MAX_CELLS: usize = 64;

/// The most cells of the canonical cover of a rectangle.
pub const MAX_COVER: u32 = 1024;

/// The ground that a volume covers.
#[derive(Debug, Drop)]
pub enum Footprint {
    /// A list of S2 cells: the footprint has the leaves of each. The list keeps its order, and
    /// cells that it has more than once.
    Cells(Vec<CellId>),
    /// A rectangle of a face: the footprint has the leaves of each square of its level that it touches.
    Rectangle(Rect),
}

impl Footprint {
    /// The footprint as bytes. A cell list is the byte 1, and then each cell's id as eight bytes,
    /// the most significant first, in the order of the list. A rectangle is the byte 2, its face as one
    /// byte, `i_min`, `i_max`, `j_min` and `j_max` as four bytes each, the most significant first, and its
    /// level as one byte.
    ///
    /// # Errors
    ///
    /// `AllocError` if memory runs out.
    pub fn to_bytes(&self, alloc: Global) -> Result<Vec<u8>, AllocError>
        ensures value { IfOk result (λ bytes. bytes.items ≡ footprint_bytes (shape_of self.now)) }
        ensures valid { IfOk result (λ bytes. HasValidParts (shape_of self.now)) }
    {
        match self {
            Footprint::Cells(cells) => cell_bytes(alloc, cells),
            Footprint::Rectangle(rect) => rect_bytes(alloc, rect),
        }
    }

    /// The footprint for which `to_bytes` gives these bytes: 1 to 64 cells, or a rectangle. `None` if there
    /// is no such footprint.
    ///
    /// # Errors
    ///
    /// `AllocError` if memory runs out.
    pub fn from_bytes(alloc: Global, bytes: &[u8]) -> Result<Option<Footprint>, AllocError>
        ensures { IfOk result (λ found. MatchOption found
            ((shape : Shape) → ¬ AreBytesOf bytes.now shape)
            (λ footprint. AreBytesOf bytes.now (shape_of footprint))) }
    {
        match bytes.split_first() {
            Some((&CELLS, ids)) => Ok(cells_of(alloc, ids)?.map(Footprint::Cells)),
            Some((&RECTANGLE, parts)) => Ok(rect_of(parts).map(Footprint::Rectangle)),
            _ => Ok(None),
        }
    }

    /// An equal footprint, in memory of its own.
    ///
    /// # Errors
    ///
    /// `AllocError` if memory runs out.
    pub fn copy(&self) -> Result<Footprint, AllocError>
        ensures { IfOk result (λ copy. shape_of copy ≡ shape_of self.now) }
    {
        match self {
            Footprint::Cells(cells) => Ok(Footprint::Cells(cells.clone()?)),
            Footprint::Rectangle(rect) => Ok(Footprint::Rectangle(*rect)),
        }
    }

    /// The footprint's leaves as ranges of positions along the S2 curve, and how many cells it has: those of
    /// its list, or of the canonical cover of its rectangle.
    ///
    /// # Errors
    ///
    /// `Cells` if a cell list does not have 1 to 64 cells, `TooManyCells` if the canonical cover of a
    /// rectangle has more than 1,024, `OutOfMemory` if memory runs out.
    pub(crate) fn ranges(&self, alloc: Global) -> Result<(Ranges, u32), VolumeFault>
        ensures ok { IfOk result (λ found. HasRanges (shape_of self.now) found.0) }
        ensures cells { IfOk result (λ found. found.1 ≡ shape_cells (shape_of self.now)) }
        ensures err { IfErr result (IsFaultOf (shape_of self.now)) }
    {
        match self {
            Footprint::Cells(cells) => cell_ranges(alloc, cells),
            Footprint::Rectangle(rect) => rect_ranges(alloc, rect),
        }
    }
}

// The leaves of a cell list as ranges of positions along the S2 curve, and the length of the list. `Cells` if
// it does not have 1 to 64 cells, `OutOfMemory` if memory runs out.
fn cell_ranges(alloc: Global, cells: &[CellId]) -> Result<(Ranges, u32), VolumeFault>
    ensures ok { IfOk result (λ found. HasRanges (shapes.cells cells.now) found.0) }
    ensures cells { IfOk result (λ found. found.1 ≡ length cells.now) }
    ensures err { IfErr result (IsFaultOf (shapes.cells cells.now)) }
{
    if !is_allowed_count(cells.len()) {
        return Err(VolumeFault::Cells);
    }
    ranges_are_counted();
    ranges_are_few();
    let ranges = normalise(alloc, cells)?.ranges()?;
    Ok((ranges, cells.len() as u32))
}

// The leaves of a rectangle's footprint as ranges of positions along the S2 curve, and how many cells its
// canonical cover has. `TooManyCells` if these are more than 1,024, `OutOfMemory` if memory runs out.
fn rect_ranges(alloc: Global, rect: &Rect) -> Result<(Ranges, u32), VolumeFault>
    ensures ok { IfOk result (λ found. HasRanges (shapes.rectangle rect.now) found.0) }
    ensures cells { IfOk result (λ found. found.1 ≡ shape_cells (shapes.rectangle rect.now)) }
    ensures err { IfErr result (IsFaultOf (shapes.rectangle rect.now)) }
{
    ranges_are_counted();
    ranges_are_few();
    match cover(alloc, rect, MAX_COVER) {
        Ok(cover) => Ok((cover.ranges()?, cover.cells().len() as u32)),
        Err(CoverFault::TooManyCells { .. }) => Err(VolumeFault::TooManyCells),
        Err(CoverFault::OutOfMemory) => Err(VolumeFault::OutOfMemory),
    }
}

// A cell list as bytes: the byte 1, and each cell's id as eight bytes, the most significant first.
fn cell_bytes(alloc: Global, cells: &[CellId]) -> Result<Vec<u8>, AllocError>
    ensures value { IfOk result (λ bytes. bytes.items ≡ footprint_bytes (shapes.cells cells.now)) }
    ensures valid { IfOk result (λ bytes. HasValidParts (shapes.cells cells.now)) }
{
    let mut bytes = vec![in alloc; CELLS]?;
    for cell in cells {
        bytes.extend_from_slice(&id_bytes(cell))?;
    }
    Ok(bytes)
}

// A rectangle as bytes: the byte 2, and then 18 bytes: face, `i_min`, `i_max`, `j_min`, `j_max` and level.
// The four coordinates have four bytes each, the most significant first.
fn rect_bytes(alloc: Global, rect: &Rect) -> Result<Vec<u8>, AllocError>
    ensures value { IfOk result (λ bytes. bytes.items ≡ footprint_bytes (shapes.rectangle rect.now)) }
    ensures valid { IfOk result (λ bytes. HasValidParts (shapes.rectangle rect.now)) }
{
    let mut bytes = vec![in alloc; RECTANGLE, rect.face()]?;
    bytes.extend_from_slice(&rect.i_min().to_be_bytes())?;
    bytes.extend_from_slice(&rect.i_max().to_be_bytes())?;
    bytes.extend_from_slice(&rect.j_min().to_be_bytes())?;
    bytes.extend_from_slice(&rect.j_max().to_be_bytes())?;
    bytes.push(rect.level())?;
    Ok(bytes)
}

// A cell's id as eight bytes, the most significant first.
fn id_bytes(cell: &CellId) -> [u8; 8]
    ensures value { result ≡ to_be_bytes w64 cell.now }
    ensures valid { IsCellId cell.now }
{
    cell.raw().to_be_bytes()
}

// The cell list whose bytes after the first, the byte 1, are `bytes`; `None` if they are not the ids of 1 to
// 64 cells.
fn cells_of(alloc: Global, bytes: &[u8]) -> Result<Option<Vec<CellId>>, AllocError>
    ensures { IfOk result (λ found. MatchOption found
        ((shape : Shape) → ¬ AreBytesOf (1 ∷ bytes.now) shape)
        (λ cells. AreBytesOf (1 ∷ bytes.now) (shapes.cells cells.items))) }
{
    let (ids, rest) = bytes.as_chunks::<8>();
    if !rest.is_empty() || !is_allowed_count(ids.len()) {
        return Ok(None);
    }
    let mut cells = Vec::new(alloc);
    for id in ids {
        let Some(cell) = cell_of(id) else {
            return Ok(None);
        };
        cells.push(cell)?;
    }
    Ok(Some(cells))
}

// The cell with the id that eight bytes give, the most significant first; `None` if that id is not valid.
fn cell_of(id: &[u8; 8]) -> Option<CellId>
    ensures { SomeIff result (IsCellId (from_be_bytes w64 id.now)) (from_be_bytes w64 id.now) }
{
    CellId::from_raw(u64::from_be_bytes(*id))
}

// Whether a cell list may have this many cells: 1 to 64.
fn is_allowed_count(count: usize) -> bool
    ensures { result ≡ within_cells count }
{
    (1..=MAX_CELLS).contains(&count)
}

// The rectangle whose bytes after the first, the byte 2, are `bytes`. `None` if they are not 18 bytes, or not
// those of a rectangle.
fn rect_of(bytes: &[u8]) -> Option<Rect>
    ensures { MatchOption result
        ((shape : Shape) → ¬ AreBytesOf (2 ∷ bytes.now) shape)
        (λ rect. AreBytesOf (2 ∷ bytes.now) (shapes.rectangle rect)) }
{
    if bytes.len() != RECTANGLE_BYTES {
        return None;
    }
    rect_in(bytes)
}

// The rectangle of 18 bytes (the face, four coordinates of four bytes each, and the level), or `None` if
// these numbers are not those of a rectangle.
fn rect_in(bytes: &[u8]) -> Option<Rect>
    requires { length bytes.now ≡ 18 }
    ensures { MatchOption result
        ((shape : Shape) → ¬ AreBytesOf (2 ∷ bytes.now) shape)
        (λ rect. AreBytesOf (2 ∷ bytes.now) (shapes.rectangle rect)) }
{
    let (i_min, i_max) = (number_at(bytes, 1), number_at(bytes, 5));
    let (j_min, j_max) = (number_at(bytes, 9), number_at(bytes, 13));
    Rect::try_new(bytes[0], i_min, i_max, j_min, j_max, bytes[17]).ok()
}

// The number of the four bytes from the index `place` on, the most significant first.
fn number_at(bytes: &[u8], place: usize) -> u32
    requires { place + 4 ≤ length bytes.now }
    ensures { result ≡ from_be_bytes w32
        (slice_index bytes.now place ∷ slice_index bytes.now (place + 1)
        ∷ slice_index bytes.now (place + 2) ∷ slice_index bytes.now (place + 3) ∷ []) }
{
    u32::from_be_bytes([
        bytes[place],
        bytes[place + 1],
        bytes[place + 2],
        bytes[place + 3],
    ])
}
