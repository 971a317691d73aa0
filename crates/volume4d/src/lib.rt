//! Volumes of flight in four dimensions. A footprint is ground: a list of S2 cells, or a rectangle on a face
//! of S2's cube. A volume is a footprint with a window: a range of altitudes and one of Unix seconds. An area
//! has the volumes of a plan.
//!
//! A leaf is the smallest S2 cell, and its position is its number along S2's curve over all six faces,
//! counted from 0. A slab has the points of one range of positions in one window, and volumes are compared by
//! their slabs. A held slab belongs to a stored plan and has its priority. A meeting is the first point that
//! slabs share with held slabs, and the greatest priority held there. Points are ordered by leaf, then
//! altitude, then second.
#![tactic(auto)]

mod area;
mod bounds;
mod clusters;
mod corner;
mod fault;
mod footprint;
mod geometry;
mod has_slab;
pub mod laws;
mod meeting;
mod slab;
mod sweep;
mod volume;
mod window;

pub use area::{Area, MAX_VOLUMES};
pub use bounds::bounds_of;
pub use clusters::split_cluster;
pub use fault::VolumeFault;
pub use footprint::{Footprint, MAX_CELLS, MAX_COVER};
pub use meeting::{Meeting, first_meeting, first_meeting_counted, meet};
pub use slab::{Held, Slab};
pub use volume::Volume;
pub use window::{MAX_SECOND, Window, WindowFault};
