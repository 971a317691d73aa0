//! The database state that a store keeps, for contracts alone. At run time a `GhostState` holds nothing, and
//! the functions that make one compute nothing: the proof of each says what its `world` is.

ghost use Rattle.std.specs.Prelude.{◌≡◌, []};
ghost use Rattle.std.specs.Borrow.{ftrue};
ghost use Rattle.desk_store.specs.{World.World, Changes.changed_by};

use crate::content::Content;
use desk_store::Change;
use std::marker::Model;

/// The database state of a store: its operators and plans. It takes no memory: only contracts read it.
#[derive(Drop)]
pub struct GhostState {
    pub ghost world: { World },
}

impl Model for GhostState {
    ghost also_owns = { λ _. ftrue };
}

impl GhostState {
    /// The state without operators and plans.
    pub fn new() -> GhostState
        ensures { result.world ≡ record { operators = []; plans = [] } }
    {
        GhostState {}
    }

    /// The state that `_change` makes of `_before`. Only the contract reads these two.
    pub fn after(_before: &GhostState, _change: &Change) -> GhostState
        ensures { result.world ≡ changed_by _change.now _before.now.world }
    {
        GhostState {}
    }

    /// The state that was read into `_content`, which only the contract reads.
    pub fn of(_content: &Content) -> GhostState
        ensures { result.world ≡ _content.now }
    {
        GhostState {}
    }
}
