//! The operators that a desk has when it is opened: its journal begins with them.

ghost use Rattle.std.specs.Prelude.{◌≡◌, ◌↔◌, [], IfOk, IsTrue, None, false, is_none, map};
ghost use Rattle.std.specs.Option.{IsSomeAnd};
ghost use Rattle.sqlite.specs.{Files.file_state, State.HasCleanDisk};
ghost use Rattle.desk_cli.specs.Lines.{file_of};
ghost use Rattle.uss_desk.specs.OpenedFor.{AreOperatorsOf, HasNoted, as_listed};

use desk_cli::{Database, Enrolment};
use desk_tables::{ListedOperator, SqliteStore};
use sqlite::FileStore;
use sqlite_disk::Disk;
use std::alloc::{AllocError, Global};

/// The operators that a desk has when its journal begins.
#[derive(Drop)]
pub struct NotedOperators {
    // whether the operators are needed, since the command writes a journal
    is_wanted: bool,
    // whether it is known that the desk has no operator
    is_empty: bool,
    // the operators; `None` if they aren't wanted, memory ran out for them, or they were taken
    operators: Option<Vec<Enrolment>>,
}

impl NotedOperators {
    /// Before the desk over `database` is opened: no operators are noted. A desk in memory is known to have
    /// none. `is_wanted` says whether `note` is to note them.
    pub fn new(alloc: Global, database: &Database, is_wanted: bool) -> NotedOperators
        ensures wanted { result.is_wanted ≡ is_wanted }
        ensures empty { result.is_empty ≡ is_none (file_of database.now) }
        ensures none { IsSomeAnd result.operators (λ all. all.items ≡ []) }
    {
        NotedOperators {
            is_wanted,
            is_empty: database.path().is_none(),
            operators: Some(Vec::new(alloc)),
        }
    }

    /// Notes the operators of a store, if they are needed. `take` returns `None` afterwards if they aren't,
    /// or if they can't be read because memory runs out. Also notes whether it is known that there are none.
    pub fn note<D: Disk + Drop>(&mut self, store: &SqliteStore<FileStore<D>>)
        ensures noted { HasNoted store.now self.new }
        ensures wanted { self.new.is_wanted ≡ self.old.is_wanted }
        ensures unwanted { self.old.is_wanted ≡ false → self.new.operators ≡ None }
        ensures empty { IsTrue self.old.is_wanted →
            (IsTrue self.new.is_empty ↔ IsSomeAnd self.new.operators (λ all. all.items ≡ [])) }
    {
        self.operators = None;
        self.is_empty = !store.has_begun_enrolled();
        if self.is_wanted {
            self.operators = operators_of(store).ok();
            self.is_empty = has_none(&self.operators);
        }
    }

    /// Whether it is known that the desk has no operator.
    pub fn is_empty(&self) -> bool
        ensures { result ≡ self.now.is_empty }
    {
        self.is_empty
    }

    /// Takes the operators that were noted last, in the order of the store; the empty list if `note` was
    /// never called. `None` if they weren't wanted, if memory ran out for them, or if they were taken before.
    pub fn take(&mut self) -> Option<Vec<Enrolment>>
        ensures taken { result ≡ self.old.operators }
        ensures rest { self.new ≡ record self.old { operators = None } }
    {
        self.operators.take()
    }
}

// Whether `operators` were noted (`Some`), and there are none.
fn has_none(operators: &Option<Vec<Enrolment>>) -> bool
    ensures { IsTrue result ↔ IsSomeAnd operators.now (λ all. all.items ≡ []) }
{
    match operators {
        Some(all) => all.is_empty(),
        None => false,
    }
}

// The operators of a store with their ceilings, in its order, if storage is intact. Fails if memory runs out.
fn operators_of<D: Disk + Drop>(
    store: &SqliteStore<FileStore<D>>,
) -> Result<Vec<Enrolment>, AllocError>
    ensures { HasCleanDisk (file_state store.now.held)
        → IfOk result (λ all. AreOperatorsOf store.now.world all.items) }
{
    let listed = store.roll()?;
    enrolments_of(*listed.allocator(), &listed)
}

// The `listed` operators of a store, as enrolments in the same order. Fails if memory runs out.
fn enrolments_of(alloc: Global, listed: &[ListedOperator]) -> Result<Vec<Enrolment>, AllocError>
    ensures { IfOk result (λ all. map as_listed all.items ≡ listed.now) }
{
    let mut operators = Vec::new(alloc);
    for one in listed {
        operators.push(Enrolment {
            operator: one.operator,
            ceiling: one.ceiling,
        })?;
    }
    Ok(operators)
}
