//! The canonical covers of volumes, as bytes for the column `canon` of `volume2`. The canonical cover of a
//! volume has the fewest S2 cells whose leaves (cells of level 30) are exactly those of the volume's
//! footprint.

ghost use Rattle.std.specs.Prelude.{◌≡◌, IfOk, map};
ghost use Rattle.std.specs.{List.flat_map, Int.w64, Int.to_be_bytes};
ghost use Rattle.row_codec.specs.Tables.{canon_bytes, AreCanonOf};

use s2_cellid::CellId;
use s2_cover::laws::{canonical_list_is, one_canonical_list};
use std::alloc::{AllocError, Global};
use volume4d::Volume;

/// The canonical cover of `volume` as bytes: the ids of its cells, ascending, each as eight big-endian bytes.
///
/// # Errors
///
/// `AllocError` if memory runs out.
pub fn canon_of(alloc: Global, volume: &Volume) -> Result<Vec<u8>, AllocError>
    ensures { IfOk result (λ bytes. bytes.items ≡ canon_bytes volume.now.footprint) }
{
    // Laws, which change nothing: the cells of a cover are the canonical list of its leaves.
    one_canonical_list();
    canonical_list_is();
    let cover = volume.cover()?;
    ids_of(alloc, cover.cells())
}

/// The canonical covers of `volumes`, in the same order, each as the bytes that `canon_of` returns.
///
/// # Errors
///
/// `AllocError` if memory runs out.
pub fn canons_of(alloc: Global, volumes: &[Volume]) -> Result<Vec<Vec<u8>>, AllocError>
    ensures { IfOk result (λ canon. AreCanonOf volumes.now (map (λ bytes. bytes.items) canon.items)) }
{
    let mut canon = Vec::new(alloc);
    for volume in volumes {
        canon.push(canon_of(alloc, volume)?)?;
    }
    Ok(canon)
}

// The ids of `cells`, in the same order, each as eight big-endian bytes.
fn ids_of(alloc: Global, cells: &[CellId]) -> Result<Vec<u8>, AllocError>
    ensures { IfOk result (λ bytes. bytes.items ≡ flat_map (λ id. to_be_bytes w64 id) cells.now) }
{
    let mut bytes = Vec::new(alloc);
    for cell in cells {
        bytes.extend_from_slice(&cell.raw().to_be_bytes())?;
    }
    Ok(bytes)
}
