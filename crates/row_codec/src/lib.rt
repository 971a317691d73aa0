//! Conversion of plans, operators and whole database states to rows of the tables, and back. Schema 2 has the
//! tables `operator`, `plan`, `volume2` and `span2`; the older schema 1 has `volume` and `span` instead of
//! the last two.
#![tactic(auto)]

pub mod canon;
pub mod content;
pub mod counting;
pub mod exact;
pub mod kept;
pub mod known;
pub mod listing;
pub mod records;
pub mod rivals;
pub mod span_bounds;
pub mod values;
