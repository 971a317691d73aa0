//! The tables of a store. The disk is intact if it returned what was written so far.

ghost use Rattle.std.specs.Prelude.{◌≡◌};
ghost use Rattle.table_load.specs.{Opening.Stands, Files.IsSettledAt};

use crate::laws::one_state;
use desk_sql::laws::committed_and_sound;
use desk_store::StoreFault;
use row_codec::kept::GhostState;
use sqlite::Connection;
use sqlite_trees::store::Alter;
use std::alloc::Global;
use std::marker::Model;

/// The tables of a store: a connection outside a transaction and without a step limit, and the state that its
/// rows stand for, while the disk is intact and the connection open. `kept` is that state for contracts.
#[derive(Drop)]
pub(crate) struct DeskTables<S: Alter> {
    pub connection: Connection<S>,
    pub kept: GhostState,
    pub alloc: Global,
    /// What an I/O error is reported as: `OutOfMemory` for a disk in memory, which has no other.
    pub reported: StoreFault,
}

impl<S: Alter> Model for DeskTables<S> {
    ghost use Rattle.table_load.specs.Opening.{Stands};
    ghost use Rattle.desk_tables.specs.Store.{HeldWorld, held_world_code};

    ghost Value = { HeldWorld S };

    ghost coded = { held_world_code S.code };

    ghost view = { λ t. record {
      held = t.connection;
      world = t.kept.world;
    } };

    ghost invariant = { λ t. Stands S.Store t.connection t.kept.world };
}

impl<S: Alter> DeskTables<S> {
    /// The allocator for what is read. The contract says nothing of the allocator: it states the invariant of
    /// this type, that the rows stand for the state, while the disk is intact and the connection is open. The
    /// proof of a method that opens no field has the invariant from this call.
    pub(crate) fn allocator(&self) -> Global
        ensures { Stands S.Store self.now.held self.now.world }
    {
        self.alloc
    }

    /// Changes nothing. For contracts alone, it states the invariant (`stands`), and that while the disk is
    /// intact and the connection is open, a crash leaves this state and no other (`left`): outside a
    /// transaction, the committed state is the only one, and it is the state that the connection shows.
    pub(crate) fn settled(&self)
        ensures stands { Stands S.Store self.now.held self.now.world }
        ensures left { IsSettledAt S.Store self.now.held self.now.world }
    {
        // Laws, which change nothing: what the connection shows is committed, and its rows stand for one
        // state.
        committed_and_sound(&self.connection);
        one_state();
    }

    /// Returns the connection, which has the rows of the state while the disk is intact and it is open.
    pub(crate) fn release(self) -> Connection<S>
        ensures value { result ≡ self.held }
        ensures stands { Stands S.Store result self.world }
    {
        self.connection
    }
}
