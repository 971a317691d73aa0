//! An index in memory of the volumes of live plans, beside a store's tables: of each volume the operator, the
//! plan, the priority and the bounds.
//!
//! A live plan is planned or in use, not closed. The bounds of a volume are the smallest slab that has its
//! points; a slab has the leaf positions of one run along the S2 curve, in one range of altitudes and one of
//! seconds. Volumes are kept in chunks of up to 64 that lie close together, and chunks in groups of up to 64.
//! Each chunk and each group has a bounding box, so that a search skips those that are far away. An extent is
//! a slab that is searched.
#![tactic(auto)]

mod bbox;
mod changing;
mod chunk;
mod group;
mod live;
mod near;
mod order;
mod places;
mod volume;

pub use live::{LiveIndex, LiveIndexBuilder};
pub use near::{PlanKey, Wanted};
pub use slab_regions::{enclosing_slab, push_clipped};
pub use volume::LiveVolume;
