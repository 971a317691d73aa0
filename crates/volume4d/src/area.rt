//! Areas: the volumes of a plan. A slab has the points of one range of a volume's leaves (numbered along the
//! S2 curve) in the volume's window of altitudes and times.

ghost use Rattle.std.specs.Prelude.{◌≡◌, ◌*◌, ◌<◌, ◌≤◌, Some, None, if◌then◌else◌, IsTrue, IfOk, length};
ghost use Rattle.std.specs.List.Sorted.{IsPermutation, IsNonDecreasingBy};
ghost use Rattle.volume4d.specs.{VolumeLimits.max_cover, VolumeLimits.max_volumes, VolumeLimits.within_volumes, Volume.Point, Volume.area_cells, Volume.area_spans, Volume.is_area, Volume.area_has, Slab.slabs_have, Slab.AreFilled, Slab.IsBounds, Slab.AreAreaSlabs, Slab.AreSortedSlabs};

use crate::bounds::bounds_of;
use crate::slab::Slab;
use crate::volume::Volume;
use std::alloc::{AllocError, Global};
use std::marker::Model;

/// The most volumes of an area.
pub const MAX_VOLUMES: usize = 32;

/// The volumes of a plan (`Volume4D` of ASTM F3548-21), always 1 to 32 of them. A point belongs to
/// the area if it belongs to one of the volumes.
#[derive(Debug, Drop)]
pub struct Area {
    volumes: Vec<Volume>,
}

impl Model for Area {
    ghost use Rattle.std.specs.Prelude.{List, IsTrue};
    ghost use Rattle.volume4d.specs.Volume.{Block, is_area};

    ghost Value = { List Block };

    ghost view = { λ a. a.volumes.items };

    ghost invariant = { λ a. IsTrue (is_area a.volumes.items) };
}

impl Area {
    /// The area of these volumes, in their order. `None` if there are none or more than 32; the volumes are
    /// dropped then.
    pub fn try_new(volumes: Vec<Volume>) -> Option<Area>
        ensures { result ≡ (if is_area volumes.items then Some volumes.items else None) }
    {
        if volumes.is_empty() || volumes.len() > MAX_VOLUMES {
            return None;
        }
        Some(Area { volumes })
    }

    /// The volumes, in the order given to `try_new`.
    pub fn volumes(&self) -> &[Volume]
        ensures value { result.now ≡ self.now }
        ensures limits { IsTrue (is_area self.now) }
    {
        &self.volumes
    }

    /// The slabs of the volumes, ascending by their first leaves. There is at least one slab, and each has a
    /// point. A point belongs to one of the slabs exactly if it belongs to the area.
    ///
    /// # Errors
    ///
    /// `AllocError` if memory runs out.
    pub fn slabs(&self) -> Result<Vec<Slab>, AllocError>
        ensures ranges { IfOk result (λ slabs. AreSortedSlabs self.now slabs.items) }
        ensures points { IfOk result (λ slabs. (x : Point) →
            slabs_have slabs.items x ≡ area_has self.now x) }
        ensures filled { IfOk result (λ slabs. AreFilled slabs.items) }
    {
        sorted_slabs(*self.volumes.allocator(), &self.volumes)
    }

    /// How many slabs the area has: one for each range of leaves of each of its volumes. There are at most
    /// 32,768.
    pub fn span_count(&self) -> u32
        ensures value { result ≡ area_spans self.now }
        ensures few { result ≤ max_volumes * max_cover }
    {
        let mut spans = 0;
        let volumes: &[Volume] = &self.volumes;
        for volume in volumes {
            spans += volume.span_count();
        }
        spans
    }

    /// How many cells the area has: for each of its volumes those of its cell list, or of the canonical cover
    /// of its rectangle. There are at most 32,768.
    pub fn cell_count(&self) -> u32
        ensures value { result ≡ area_cells self.now }
        ensures few { result ≤ max_volumes * max_cover }
    {
        let mut cells = 0;
        let volumes: &[Volume] = &self.volumes;
        for volume in volumes {
            cells += volume.cell_count();
        }
        cells
    }

    /// The smallest slab that has all points of the area.
    ///
    /// # Errors
    ///
    /// `AllocError` if memory runs out.
    pub fn bounds(&self) -> Result<Slab, AllocError>
        ensures { IfOk result (IsBounds (area_has self.now)) }
    {
        let slabs = self.slabs()?;
        Ok(bounds_of(&slabs))
    }

    /// Frees the memory that its volumes have for their ranges of leaves (`Volume::drop_ranges`). As a value
    /// the area stays as it is.
    pub fn drop_ranges(&mut self)
        ensures { self.new ≡ self.old }
    {
        drop_ranges_of(&mut self.volumes);
    }

    /// An equal area, in memory of its own.
    ///
    /// # Errors
    ///
    /// `AllocError` if memory runs out.
    pub fn copy(&self) -> Result<Area, AllocError>
        ensures { IfOk result (λ copy. copy ≡ self.now) }
    {
        Ok(Area {
            volumes: copies(&self.volumes)?,
        })
    }
}

// The slabs of volumes, ascending by their first leaves; those with the same first leaf in any order.
// `AllocError` if memory runs out.
fn sorted_slabs(alloc: Global, volumes: &[Volume]) -> Result<Vec<Slab>, AllocError>
    ensures ranges { IfOk result (λ slabs. AreSortedSlabs volumes.now slabs.items) }
    ensures filled { 0 < length volumes.now → IfOk result (λ slabs. AreFilled slabs.items) }
{
    Ok(sort_by_first(slabs_of(alloc, volumes)?))
}

// The slabs of volumes, one volume after the other, in the order of the curve for each. `AllocError` if
// memory runs out.
fn slabs_of(alloc: Global, volumes: &[Volume]) -> Result<Vec<Slab>, AllocError>
    ensures ranges { IfOk result (λ slabs. AreAreaSlabs volumes.now slabs.items) }
    ensures filled { 0 < length volumes.now → IfOk result (λ slabs. AreFilled slabs.items) }
{
    let mut slabs = Vec::new(alloc);
    for volume in volumes {
        slabs.extend_from_slice(&volume.slabs()?)?;
    }
    Ok(slabs)
}

// Sorts slabs, ascending by their first leaves; those with the same first leaf come in any order.
#[tactic(auto, using(crate::proofs::Filled::filled_again))]
fn sort_by_first(mut slabs: Vec<Slab>) -> Vec<Slab>
    ensures same { IsPermutation slabs.items result.items }
    ensures order { IsNonDecreasingBy (λ s. s.first) result.items }
    ensures filled { AreFilled slabs.items → AreFilled result.items }
{
    slabs.sort_unstable_by_key(|slab| slab.first);
    slabs
}

// Copies of the volumes, in their order; `AllocError` if memory runs out.
fn copies(volumes: &Vec<Volume>) -> Result<Vec<Volume>, AllocError>
    ensures { IfOk result (λ copies. copies.items ≡ volumes.now.items) }
{
    let mut copies = Vec::new(*volumes.allocator());
    for volume in volumes {
        copies.push(volume.copy()?)?;
    }
    Ok(copies)
}

// Has each volume drop its ranges (`Volume::drop_ranges`). As values the volumes stay as they are.
fn drop_ranges_of(volumes: &mut [Volume])
    ensures { volumes.new ≡ volumes.old }
{
    for volume in volumes.iter_mut() {
        volume.drop_ranges();
    }
}
