//! Volumes: footprints with a window of altitudes and times. A footprint's ranges are its leaves as ranges of
//! positions (numbers of leaves along the S2 curve). A slab has the points of one range in one window. A call
//! of a law, as `ranges_are_counted`, does nothing: it makes the law known to the prover.

ghost use Rattle.std.specs.Prelude.{◌≡◌, ◌≤◌, IsTrue, IfOk, IfErr, All};
ghost use Rattle.s2_cover.specs.Covers.{IsCanonical, IsSpan};
ghost use Rattle.volume4d.specs.Volume.{Point, is_window, volume_cells, volume_spans, Shape, shape_positions, is_footprint, block_has, IsFaultOf, HasRanges};
ghost use Rattle.volume4d.specs.{Footprint.shape_of, VolumeLimits.max_cover};
ghost use Rattle.volume4d.specs.Slab.{slabs_have, span_of, slab_window, AreFilled, AreSlabsOn, AreVolumeSlabs};

use crate::fault::VolumeFault;
use crate::footprint::Footprint;
use crate::laws::cells_are_few;
use crate::slab::Slab;
use crate::window::Window;
use s2_cover::laws::ranges_are_counted;
use s2_cover::{Cover, Ranges, Span};
use std::alloc::{AllocError, Global};
use std::marker::Model;

/// A footprint with altitudes and times (`Volume4D` of ASTM F3548-21), always within the desk's
/// limits. It keeps the ranges of its footprint's leaves, so that they are computed once, until
/// `drop_ranges`.
#[derive(Debug, Drop)]
pub struct Volume {
    footprint: Footprint,
    window: Window,
    // the number of ranges of the footprint's leaves, and the ranges themselves until `drop_ranges`
    count: u32,
    ranges: Option<Ranges>,
    // how many cells the footprint has: those of its list, or of its rectangle's canonical cover
    cells: u32,
    alloc: Global,
}

impl Model for Volume {
    ghost use Rattle.std.specs.Prelude.{IsTrue};
    ghost use Rattle.volume4d.specs.Volume.{is_window, KeepsRanges, Block};

    ghost Value = { Block };

    ghost use Rattle.volume4d.specs.Footprint.{shape_of};

    ghost view = { λ v. record { footprint = shape_of v.footprint; window = v.window } };

    ghost invariant = { λ v. KeepsRanges (shape_of v.footprint) v.count v.ranges v.cells
        × IsTrue (is_window v.window) };
}

impl Volume {
    ghost use Rattle.volume4d.specs.Footprint.{shape_of};

    /// The volume over a footprint in a window. The footprint is dropped if it is refused. The memory of its
    /// ranges, and later of `slabs` and `cover`, comes from `alloc`.
    ///
    /// # Errors
    ///
    /// `Cells` if a cell list does not have 1 to 64 cells, `TooManyCells` if the canonical cover of a
    /// rectangle has more than 1,024, `OutOfMemory` if memory runs out.
    pub fn try_new(
        alloc: Global,
        footprint: Footprint,
        window: Window,
    ) -> Result<Volume, VolumeFault>
        ensures value { IfOk result (λ volume.
            volume ≡ record { footprint = shape_of footprint; window = window }) }
        ensures limits { IfOk result (λ volume. IsTrue (is_footprint (shape_of footprint))) }
        ensures fault { IfErr result (IsFaultOf (shape_of footprint)) }
    {
        let (ranges, cells) = footprint.ranges(alloc)?;
        ranges_are_counted();
        Ok(Volume {
            footprint,
            window,
            count: ranges.spans().len() as u32,
            ranges: Some(ranges),
            cells,
            alloc,
        })
    }

    /// Frees the memory of the ranges of the footprint's leaves, up to 16 KB. As a value the volume stays as
    /// it is: `slabs` and `cover` compute the ranges anew.
    pub fn drop_ranges(&mut self)
        ensures { self.new ≡ self.old }
    {
        self.ranges = None;
    }

    /// The footprint given to `try_new`.
    pub fn footprint(&self) -> &Footprint
        ensures value { shape_of result.now ≡ self.now.footprint }
        ensures limits { IsTrue (is_footprint self.now.footprint) }
    {
        &self.footprint
    }

    /// The altitudes and times, within the limits of `Window`.
    pub fn window(&self) -> Window
        ensures value { result ≡ self.now.window }
        ensures limits { IsTrue (is_window self.now.window) }
    {
        self.window
    }

    /// The slabs of the volume, ascending: one for each range of the footprint's leaves along the
    /// S2 curve, so cells that follow each other on the curve share one. There is at least one slab, and each
    /// has a point. A point belongs to one of the slabs exactly if it belongs to the volume.
    ///
    /// # Errors
    ///
    /// `AllocError` if memory runs out.
    pub fn slabs(&self) -> Result<Vec<Slab>, AllocError>
        ensures ranges { IfOk result (λ slabs. AreVolumeSlabs self.now slabs.items) }
        ensures points { IfOk result (λ slabs. (x : Point) →
            slabs_have slabs.items x ≡ block_has self.now x) }
        ensures filled { IfOk result (λ slabs. AreFilled slabs.items) }
    {
        match &self.ranges {
            Some(ranges) => slabs_over(self.alloc, ranges, self.window),
            None => slabs_over(self.alloc, &self.recompute_ranges()?, self.window),
        }
    }

    /// How many slabs the volume has: one for each range of the footprint's leaves along the S2 curve. There
    /// are at most 1,024.
    pub fn span_count(&self) -> u32
        ensures value { result ≡ volume_spans self.now }
        ensures few { result ≤ max_cover }
    {
        self.count
    }

    /// How many cells the volume has: those of its cell list, or of the canonical cover of its rectangle.
    /// There are at most 1,024.
    pub fn cell_count(&self) -> u32
        ensures value { result ≡ volume_cells self.now }
        ensures few { result ≤ max_cover }
    {
        cells_are_few();
        self.cells
    }

    /// The canonical cover of the footprint's leaves: the normal form of S2, a shortest list of cells that
    /// has just these. For a rectangle it has at most 1,024 cells.
    ///
    /// # Errors
    ///
    /// `AllocError` if memory runs out.
    pub fn cover(&self) -> Result<Cover, AllocError>
        ensures { IfOk result (λ cover.
            IsCanonical (shape_positions self.now.footprint) cover.ids) }
    {
        match &self.ranges {
            Some(ranges) => Cover::of_ranges(self.alloc, ranges),
            None => Cover::of_ranges(self.alloc, &self.recompute_ranges()?),
        }
    }

    /// An equal volume, in memory of its own. It keeps the ranges if this one does.
    ///
    /// # Errors
    ///
    /// `AllocError` if memory runs out.
    pub fn copy(&self) -> Result<Volume, AllocError>
        ensures { IfOk result (λ copy. copy ≡ self.now) }
    {
        let ranges = match &self.ranges {
            Some(ranges) => Some(ranges.copy()?),
            None => None,
        };
        Ok(Volume {
            footprint: self.footprint.copy()?,
            window: self.window,
            count: self.count,
            ranges,
            cells: self.cells,
            alloc: self.alloc,
        })
    }

    // The ranges of the footprint's leaves, computed again. The footprint is within its limits, since it was
    // at `try_new`, so only memory can run out.
    fn recompute_ranges(&self) -> Result<Ranges, AllocError>
        ensures { IfOk result (HasRanges self.now.footprint) }
    {
        match self.footprint.ranges(self.alloc) {
            Ok((ranges, _)) => Ok(ranges),
            Err(VolumeFault::OutOfMemory) => Err(AllocError),
            Err(VolumeFault::Cells | VolumeFault::TooManyCells) => unreachable!(),
        }
    }
}

// One slab for each of the ranges of a footprint's leaves, ascending, all with the altitudes and seconds of
// `window`. `AllocError` if memory runs out.
fn slabs_over(alloc: Global, ranges: &Ranges, window: Window) -> Result<Vec<Slab>, AllocError>
    requires window { IsTrue (is_window window) }
    ensures slabs { (shape : Shape) → HasRanges shape ranges.now → IfOk result (λ slabs.
        AreVolumeSlabs (record { footprint = shape; window = window }) slabs.items) }
    ensures points { (shape : Shape) → HasRanges shape ranges.now → IfOk result (λ slabs. (x : Point) →
        slabs_have slabs.items x ≡ block_has (record { footprint = shape; window = window }) x) }
    ensures filled { (shape : Shape) → HasRanges shape ranges.now → IfOk result (λ slabs.
        AreFilled slabs.items) }
{
    slabs_of(alloc, ranges.spans(), window)
}

// One slab for each span of positions, in the order of `spans`, all with the altitudes and seconds of
// `window`. `AllocError` if memory runs out.
fn slabs_of(alloc: Global, spans: &[Span], window: Window) -> Result<Vec<Slab>, AllocError>
    requires { All IsSpan spans.now }
    ensures { IfOk result (λ slabs. AreSlabsOn spans.now window slabs.items) }
{
    let mut slabs = Vec::new(alloc);
    for span in spans {
        slabs.push(slab_of(span, window))?;
    }
    Ok(slabs)
}

// The slab of the leaves of one span of positions, with the altitudes and seconds of `window`.
fn slab_of(span: &Span, window: Window) -> Slab
    requires { IsSpan span.now }
    ensures span { span_of result ≡ span.now }
    ensures window { slab_window result ≡ window }
{
    Slab {
        first: span.first,
        last: span.last,
        lower: window.lower(),
        upper: window.upper(),
        start: window.start(),
        end: window.end(),
    }
}
