//! Bounding boxes of volumes. A volume is in a box if its bounds (the smallest slab that has its points) lie
//! within those of the box, and its priority is at most that of the box.

ghost use Rattle.std.specs.Prelude.{◌≡◌, false, ◌∷◌};
ghost use Rattle.std.specs.List.{AllByRecursion};
ghost use Rattle.volume4d.specs.{Volume.Point, Slab.slab_has};
ghost use Rattle.live_index.specs.Live as spec;
ghost use Rattle.live_index.specs.Live.{IsInBox};
ghost use Rattle.live_index.specs.declared.volume.LiveVolume.{LiveVolume as Live};

use crate::volume::LiveVolume;
use slab_regions::SearchArea;
use volume4d::Slab;

/// A slab that encloses the bounds of some volumes (`bounds`), and a priority that none of them exceeds
/// (`top`).
#[derive(Clone, Copy, Debug)]
pub(crate) struct BoundingBox {
    pub(crate) bounds: Slab,
    pub(crate) top: u32,
}

impl BoundingBox {
    // A bounding box of `first` and all of `more`.
    fn around(first: &LiveVolume, more: &[LiveVolume]) -> BoundingBox
        ensures { AllByRecursion (IsInBox result) (first.now ∷ more.now) }
    {
        let mut bbox = BoundingBox::of(first);
        for live in more {
            bbox = bbox.widened(live);
        }
        bbox
    }

    /// A bounding box of all of `lives`; the empty one if there are none.
    pub(crate) fn around_all(lives: &[LiveVolume]) -> BoundingBox
        ensures { AllByRecursion (IsInBox result) lives.now }
    {
        match lives.split_first() {
            Some((first, more)) => BoundingBox::around(first, more),
            None => BoundingBox::none(),
        }
    }

    /// The empty bounding box, which has no point and the priority 0.
    pub(crate) fn none() -> BoundingBox
        ensures bounds { (x : Point) → slab_has result.bounds x ≡ false }
        ensures top { result.top ≡ 0 }
    {
        BoundingBox {
            bounds: Slab::empty(),
            top: 0,
        }
    }

    // The bounding box of the one volume `live`.
    #[tactic(auto, using(crate::proofs::BoxLemmas::in_box_alone))]
    fn of(live: &LiveVolume) -> BoundingBox
        ensures { IsInBox result live.now }
    {
        BoundingBox {
            bounds: live.bounds,
            top: live.priority,
        }
    }

    /// This bounding box, widened so that it also encloses `live`.
    pub(crate) fn widened(&self, live: &LiveVolume) -> BoundingBox
        ensures one { IsInBox result live.now }
        ensures kept { (other : Live) → IsInBox self.now other → IsInBox result other }
    {
        self.join(&BoundingBox::of(live))
    }

    /// A bounding box that encloses this one and `other`.
    pub(crate) fn join(&self, other: &BoundingBox) -> BoundingBox
        ensures left { (live : Live) → IsInBox self.now live → IsInBox result live }
        ensures right { (live : Live) → IsInBox other.now live → IsInBox result live }
    {
        BoundingBox {
            bounds: self.bounds.join(&other.bounds),
            top: self.top.max(other.top),
        }
    }

    /// Whether a volume in this box may be near `sought` and have the priority `least` or a greater one. If
    /// false, none is so.
    pub(crate) fn may_meet(&self, least: u32, sought: &SearchArea) -> bool
        ensures { result ≡ spec.may_meet least sought.now self.now }
    {
        if self.top < least {
            return false;
        }
        sought.meets(&self.bounds)
    }
}
