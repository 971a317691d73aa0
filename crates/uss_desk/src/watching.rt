//! A store over files that applies a change only while its files are at their paths.

ghost use Rattle.std.specs.Prelude.{◌≡◌, ◌≤◌, ◌+◌, [], ◌∷◌, Option, IfErr, IfOk, OnErr, OnOk};
ghost use Rattle.sqlite_wal.specs.Reads.{AreClean};
ghost use Rattle.sqlite.specs.Closing.{IsCopied};
ghost use Rattle.desk_store.specs.{World.LeavesOldOr, World.LeavesOnly, Changes.changed_by, Changes.IsFitting, Changes.HasRisen, Changes.IsHonest, Changes.Remembers};
ghost use Rattle.desk_tables.specs.Store.{IsLeftUnclosed};
ghost use Rattle.desk_wire.specs.Streams.{course};
ghost use Rattle.host_files.specs.Paths.{AreAtPaths};
ghost use Rattle.uss_desk.specs.{OpenedFor.HasNoted, FilesLeft.ChecksPaths};

use crate::rolls::NotedOperators;
use desk_rules::operator::Operator;
use desk_rules::plan::{PlanRow, States};
use desk_rules::plan_id::PlanId;
use desk_store::{Change, PlanStore, Sizes, StoreFault};
use desk_tables::{CheckpointError, SqliteStore};
use host_files::paths::OpenPaths;
use sqlite::{FileStore, Files};
use sqlite_disk::Disk;
use sqlite_trees::store::Alter;
use std::marker::Model;
use volume4d::{Held, Slab};

/// The result of closing a desk over files of a disk `D`.
#[derive(Drop)]
pub struct CloseReport<D: Disk> {
    /// The files, with the WAL checkpointed into the database file; or why that failed.
    pub files: Result<Files<D>, CheckpointError<D>>,
    /// Whether the files were at their paths right before they were closed.
    pub are_at_paths: bool,
}

/// A store over tables that applies a change only while its files are at their paths: a change of a file that
/// was moved or removed would be lost. All other calls go to the store inside.
#[derive(Drop)]
pub struct PathChecked<S: Alter, N: Drop> {
    store: SqliteStore<S>,
    paths: N,
    // how many changes were refused since the files weren't at their paths; the count saturates
    refused: u64,
}

impl<S: Alter, N: Drop> Model for PathChecked<S, N> {
    ghost use Rattle.std.specs.Prelude.{◌+◌};
    ghost use Rattle.desk_tables.specs.Store.{Shown, shown_code};

    ghost Value = { Shown S };

    ghost coded = { shown_code S.code };

    ghost view = { λ w. record {
      held = w.store.held;
      world = w.store.world;
      faults = w.store.faults + w.refused;
    } };
}

impl<S: Alter, N: Drop> PathChecked<S, N> {
    /// A store whose files are at `paths`.
    pub fn over(store: SqliteStore<S>, paths: N) -> PathChecked<S, N>
        ensures { result ≡ store }
    {
        PathChecked {
            store,
            paths,
            refused: 0,
        }
    }
}

impl<D: Disk + Drop, N: OpenPaths + Drop> PathChecked<FileStore<D>, N> {
    /// Notes the operators of the store in `roll`, if they are needed there.
    pub fn note(&self, roll: &mut NotedOperators)
        ensures { HasNoted self.now roll.new }
    {
        roll.note(&self.store);
    }

    /// Checkpoints the WAL into the database file, even if that isn't at its path any more. Returns the
    /// files, or why that failed; and whether the files were at their paths before.
    pub fn close(self) -> CloseReport<D>
        ensures copied { IfOk result.files (λ files. AreClean D.Disk files.log files.db →
            IsCopied self.held files) }
        ensures unclosed { IfErr result.files (IsLeftUnclosed self.held) }
    {
        let mut paths = self.paths;
        close_at(self.store, &mut paths)
    }
}

// Checks whether the files of a store are at their `paths`, and then closes the store in any case.
fn close_at<D: Disk + Drop, N: OpenPaths>(
    store: SqliteStore<FileStore<D>>,
    paths: &mut N,
) -> CloseReport<D>
    ensures looked { AreAtPaths (course (N.looks paths.old) (N.looks paths.new)) result.are_at_paths }
    ensures copied { IfOk result.files (λ files. AreClean D.Disk files.log files.db →
        IsCopied store.held files) }
    ensures unclosed { IfErr result.files (IsLeftUnclosed store.held) }
{
    let are_at_paths = are_at_paths(paths);
    CloseReport {
        files: store.close(),
        are_at_paths,
    }
}

// Whether both files are at their paths. If the database file isn't, the WAL isn't checked.
fn are_at_paths<N: OpenPaths>(paths: &mut N) -> bool
    ensures { AreAtPaths (course (N.looks paths.old) (N.looks paths.new)) result }
{
    if !paths.leads_to_file() {
        return false;
    }
    paths.leads_to_log()
}

// Applies a change if the files of the store are at their `paths`; else fails with `Store`, and adds one to
// `refused`, the count of such failures.
// Long: what each store owes, and that its paths are checked first.
fn apply_at<S: PlanStore, N: OpenPaths>(
    store: &mut S,
    paths: &mut N,
    refused: &mut u64,
    change: &Change,
) -> Result<(), StoreFault>
    requires { IsHonest (S.doubt store.old) → IsFitting change.now (S.content store.old) }
    ensures watched { ChecksPaths (course (N.looks paths.old) (N.looks paths.new))
        (course refused.old refused.new) (course store.old store.new) result }
    ensures ok { IsHonest (S.doubt store.new) →
        OnOk result (S.content store.new ≡ changed_by change.now (S.content store.old)) }
    ensures err { OnErr result (S.content store.new ≡ S.content store.old) }
    ensures crash { IsHonest (S.doubt store.new) → LeavesOldOr
        (changed_by change.now (S.content store.old)) (S.may_leave store.old) (S.may_leave store.new) }
    ensures kept { IsHonest (S.doubt store.new) →
        OnOk result (LeavesOnly (S.content store.new) (S.may_leave store.new)) }
    ensures remembered { Remembers S.doubt S.faults S.is_shielded store.old store.new }
    ensures counted { refused.old ≤ refused.new }
    ensures cause { IfErr result (λ e. e ≡ StoreFault.Store →
        HasRisen (S.faults store.old + refused.old) (S.faults store.new + refused.new)) }
{
    if !are_at_paths(paths) {
        *refused = refused.saturating_add(1);
        return Err(StoreFault::Store);
    }
    store.apply(change)
}

impl<S: Alter, N: OpenPaths + Drop> PlanStore for PathChecked<S, N> {
    ghost use Rattle.sqlite_trees.specs.View.{doubt};
    ghost use Rattle.sqlite.specs.Held.{state};
    ghost use Rattle.table_load.specs.Files.{MayLeave};

    ghost content = { λ w. w.world };

    ghost doubt = { λ w. doubt (state S.Store w.held).is_clean };

    ghost faults = { λ w. w.faults };

    ghost may_leave = { λ w found. MayLeave S.Store w.held found };

    ghost is_shielded = { λ w. (state S.Store w.held).IsShielded };

    fn ceiling(&mut self, operator: &Operator) -> Result<Option<u32>, StoreFault> {
        self.store.ceiling(operator)
    }

    fn plan(&mut self, operator: &Operator, id: &PlanId) -> Result<Option<PlanRow>, StoreFault> {
        self.store.plan(operator, id)
    }

    fn states(&mut self, operator: &Operator, id: &PlanId) -> Result<Option<States>, StoreFault> {
        self.store.states(operator, id)
    }

    fn own_count(&mut self, operator: &Operator) -> Result<u32, StoreFault> {
        self.store.own_count(operator)
    }

    fn own_sizes(&mut self, operator: &Operator, id: &PlanId) -> Result<Sizes, StoreFault> {
        self.store.own_sizes(operator, id)
    }

    fn own_plans(&mut self, operator: &Operator) -> Result<Vec<PlanRow>, StoreFault> {
        self.store.own_plans(operator)
    }

    fn rivals(
        &mut self,
        operator: &Operator,
        id: &PlanId,
        least: u32,
        extent: &Slab,
    ) -> Result<Vec<Held>, StoreFault> {
        self.store.rivals(operator, id, least, extent)
    }

    fn rivals_near(
        &mut self,
        operator: &Operator,
        id: &PlanId,
        least: u32,
        extents: &[Slab],
    ) -> Result<Vec<Held>, StoreFault> {
        self.store.rivals_near(operator, id, least, extents)
    }

    fn held_by_others(
        &mut self,
        operator: &Operator,
        extents: &[Slab],
    ) -> Result<Vec<Held>, StoreFault> {
        self.store.held_by_others(operator, extents)
    }

    // Applies a change if the files are at their paths; else fails with `Store`, and counts that.
    fn apply(&mut self, change: &Change) -> Result<(), StoreFault> {
        apply_at(&mut self.store, &mut self.paths, &mut self.refused, change)
    }
}
