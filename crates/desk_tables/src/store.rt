//! A store of plans over tables in SQLite. Its four tables are `operator`, `plan`, `volume2` and `span2`.
//! What it also keeps in memory answers questions that need no row. A slab is one range of leaves (S2 cells
//! of level 30 along the curve), one of altitudes and one of times; an extent is a slab of which is asked
//! what plans hold in it. A live plan isn't closed.

ghost use Rattle.std.specs.Prelude.{◌≡◌, ◌≤◌, IfErr, IfOk};
ghost use Rattle.sqlite.specs.{Held.state, State.HasCleanDisk};
ghost use Rattle.desk_store.specs.Changes.{HasRisen};
ghost use Rattle.desk_sql.specs.Effects.{IsOpenIfClean};
ghost use Rattle.table_load.specs.{Opening.Stands, Files.IsSettledAt};
ghost use Rattle.row_codec.specs.SpanBounds.{Knows};

use crate::laws::one_state;
use crate::tables::DeskTables;
use desk_rules::operator::Operator;
use desk_rules::plan::{PlanRow, States};
use desk_rules::plan_id::PlanId;
use desk_store::laws::{cells_are_few, spans_are_few};
use desk_store::{Change, PlanStore, Sizes, StoreFault};
use live_index::Wanted;
use operator_index::ListedOperator;
use row_codec::kept::GhostState;
use row_codec::known::MemoryIndex;
use sqlite::Connection;
use sqlite_trees::store::Alter;
use std::alloc::{AllocError, Global};
use std::marker::Model;
use std::slice;
use volume4d::{Held, Slab};

/// A store of plans over tables in SQLite, with a connection of its own.
///
/// As long as the disk returned what was written, and no error has shut the connection, the rows of the four
/// tables are those of the store's state, in any order.
#[derive(Drop)]
pub struct SqliteStore<S: Alter> {
    tables: DeskTables<S>,
    // the operators with the sizes of their plans, the volumes of live plans, and the span bounds, which only
    // grow until the next start
    known: MemoryIndex,
    // how many faults of its own it had; it saturates
    faults: u64,
    // whether it had an operator when it was opened; true of a store that was copied or migrated
    is_enrolled: bool,
}

impl<S: Alter> Model for SqliteStore<S> {
    ghost use Rattle.desk_tables.specs.Store.{Shown, shown_code};
    ghost use Rattle.row_codec.specs.SpanBounds.{Knows};
    ghost use Rattle.desk_store.specs.World.{IsContent};
    ghost use Rattle.sqlite.specs.{Held.state, State.HasCleanDisk};

    ghost Value = { Shown S };

    ghost coded = { shown_code S.code };

    ghost view = { λ s. record {
      held = s.tables.held;
      world = s.tables.world;
      faults = s.faults;
    } };

    ghost invariant = { λ s. Knows s.known s.tables.world
        × (HasCleanDisk (state S.Store s.tables.held) → IsContent s.tables.world) };
}

impl<S: Alter> SqliteStore<S> {
    /// A store over `connection`, whose rows are those of the state `kept`, of which `known` are the indexes
    /// in memory. If the disk returned what was written, a crash leaves this state alone (`left`). No
    /// contract speaks of `reported`, the fault for I/O errors, and of `is_enrolled`.
    pub(crate) fn with(
        alloc: Global,
        connection: Connection<S>,
        kept: GhostState,
        known: MemoryIndex,
        reported: StoreFault,
        is_enrolled: bool,
    ) -> SqliteStore<S>
        requires stands { Stands S.Store connection kept.world }
        requires known { Knows known kept.world }
        requires live { IsOpenIfClean S.Store connection }
        ensures value { result ≡ record { held = connection; world = kept.world; faults = 0 } }
        ensures left { IsSettledAt S.Store connection kept.world }
    {
        let tables = DeskTables {
            connection,
            kept,
            alloc,
            reported,
        };
        tables.settled();
        SqliteStore {
            tables,
            known,
            faults: 0,
            is_enrolled,
        }
    }

    /// Whether the store had an operator when it was opened; also true if it was copied or migrated. No
    /// contract says this.
    pub fn has_begun_enrolled(&self) -> bool {
        self.is_enrolled
    }

    /// The enrolled operators with their ceilings, ascending by name, each once. They are read from memory,
    /// not from the tables. The contract says which they are, if the disk returned what was written.
    ///
    /// # Errors
    ///
    /// `AllocError` if memory runs out.
    pub fn roll(&self) -> Result<Vec<ListedOperator>, AllocError>
        ensures { HasCleanDisk (state S.Store self.now.held) →
            IfOk result (λ roll. roll.items ≡ self.now.world.operators) }
    {
        self.known.roll.listed(self.tables.allocator())
    }

    /// Ends the store and returns its connection. While the disk returned what was written and the connection
    /// is open, the rows of the four tables are those of the store's state.
    pub fn release(self) -> Connection<S>
        ensures value { result ≡ self.held }
        ensures rows { Stands S.Store result self.world }
    {
        self.tables.release()
    }
}

// Each method has the trait's contract: what it returns is the state's if the disk returned what was written.
impl<S: Alter> PlanStore for SqliteStore<S> {
    ghost use Rattle.sqlite_trees.specs.View.{doubt};
    ghost use Rattle.sqlite.specs.Held.{state};
    ghost use Rattle.table_load.specs.Files.{MayLeave};

    ghost content = { λ s. s.world };

    ghost doubt = { λ s. doubt (state S.Store s.held).is_clean };

    ghost faults = { λ s. s.faults };

    ghost may_leave = { λ s found. MayLeave S.Store s.held found };

    ghost is_shielded = { λ s. (state S.Store s.held).IsShielded };

    // The greatest priority that the operator may use, or `None` if it isn't enrolled. It can't fail.
    fn ceiling(&mut self, operator: &Operator) -> Result<Option<u32>, StoreFault> {
        Ok(self.known.roll.ceiling(operator))
    }

    // The operator's plan `id`, or `None` if there is none, read from its rows. A fault `Store` is counted.
    fn plan(&mut self, operator: &Operator, id: &PlanId) -> Result<Option<PlanRow>, StoreFault> {
        let answer = self.tables.plan(operator, id);
        count_fault(&mut self.faults, answer)
    }

    // The usage and the state of the aircraft of the operator's plan `id`, or `None` if there is none. It
    // reads no row and can't fail.
    fn states(&mut self, operator: &Operator, id: &PlanId) -> Result<Option<States>, StoreFault> {
        Ok(self.known.roll.states(operator, id))
    }

    // How many plans the operator has, closed ones too. It reads no row and can't fail.
    fn own_count(&mut self, operator: &Operator) -> Result<u32, StoreFault> {
        Ok(self.known.roll.count(operator))
    }

    // How many spans the operator's live plans have, and how many cells all its plans, without its plan `id`.
    // It reads no row and can't fail.
    fn own_sizes(&mut self, operator: &Operator, id: &PlanId) -> Result<Sizes, StoreFault> {
        // By these laws, the sums fit 32 bits.
        spans_are_few();
        cells_are_few();
        Ok(self.known.roll.sizes_beside(operator, id))
    }

    // The operator's plans, ascending by id, read from their rows. A fault `Store` is counted.
    fn own_plans(&mut self, operator: &Operator) -> Result<Vec<PlanRow>, StoreFault> {
        let answer = self.tables.own_plans(operator);
        count_fault(&mut self.faults, answer)
    }

    // What `rivals_near` returns for `extent` alone.
    fn rivals(
        &mut self,
        operator: &Operator,
        id: &PlanId,
        least: u32,
        extent: &Slab,
    ) -> Result<Vec<Held>, StoreFault> {
        self.rivals_near(operator, id, least, slice::from_ref(extent))
    }

    // Slabs that have, at each point of `extents`, the greatest priority of the live plans there, without the
    // operator's plan `id`, if that priority is at least `least`. Outside `extents` they mean nothing. The
    // indexes in memory are searched first, so that fewer rows are read. A fault `Store` is counted.
    fn rivals_near(
        &mut self,
        operator: &Operator,
        id: &PlanId,
        least: u32,
        extents: &[Slab],
    ) -> Result<Vec<Held>, StoreFault> {
        let wanted = Wanted {
            operator: *operator,
            id: Some(*id),
            least,
        };
        let answer = self.tables.rivals_near(&wanted, extents, &self.known);
        count_fault(&mut self.faults, answer)
    }

    // Slabs that have, at each point of `extents`, the greatest priority of other operators' live plans
    // there. Outside `extents` they mean nothing. The indexes in memory are searched first, so that fewer
    // rows are read. A fault `Store` is counted.
    fn held_by_others(
        &mut self,
        operator: &Operator,
        extents: &[Slab],
    ) -> Result<Vec<Held>, StoreFault> {
        let answer = self.tables.held_by_others(operator, extents, &self.known);
        count_fault(&mut self.faults, answer)
    }

    // Makes `change` in one transaction, and then in the indexes in memory. What these need is allocated
    // before, so that nothing can fail after the commit. After an error the state is as before, but a start
    // may find the changed one. A fault `Store` is counted.
    fn apply(&mut self, change: &Change) -> Result<(), StoreFault> {
        // A law, which changes nothing: the rows of tables stand for at most one state.
        one_state();
        let fresh = self.known.prepare(self.tables.allocator(), change)?;
        match self.tables.make(&self.known.span_bounds, change) {
            Ok(span_bounds) => {
                self.tables.settled();
                self.known.update_after(change, span_bounds, &fresh);
                Ok(())
            }
            Err(e) => count_fault(&mut self.faults, Err(e)),
        }
    }
}

// Returns `answer`, and adds one to `faults` if it is the fault `Store`; the count saturates.
fn count_fault<T>(faults: &mut u64, answer: Result<T, StoreFault>) -> Result<T, StoreFault>
    ensures same { result ≡ answer }
    ensures counted { faults.old ≤ faults.new }
    ensures cause { IfErr result (λ e. e ≡ StoreFault.Store → HasRisen faults.old faults.new) }
{
    if let Err(StoreFault::Store) = &answer {
        *faults = faults.saturating_add(1);
    }
    answer
}
