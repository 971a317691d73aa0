//! Regions: slabs that enclose others, joined if they overlap; and the test whether a slab overlaps some.
//!
//! A slab has the leaf positions of one run along the S2 curve, in one range of altitudes and one of seconds.
//! An extent is a slab that is asked about: what do plans hold there?
#![tactic(auto)]

mod regions;
mod sought;

pub use regions::{at_most, enclosing_slab, joined, push_clipped};
pub use sought::SearchArea;
