//! Calls that are prepared: each has its reply, and its change to be committed.
//!
//! In contracts, `IsHonest` says that the storage is intact, the clause `reads` that a call only reads, and
//! the clause `cause` that the store has counted an error that is returned as `Store`.

ghost use Rattle.std.specs.Prelude.{◌≡◌, IfOk, IfErr};
ghost use Rattle.desk_store.specs.Changes.{OnlyReads, IsHonest};
ghost use Rattle.desk_run.specs.{Calls.IsStoreFaultCounted, Calls.IsSamePending, Calls.Prepares, Calls.has_change, Calls.reply_in, Verdicts.with_content};

use crate::fault::DeskFault;
use clear::prepare_clear;
use delete::prepare_delete;
use desk_rules::call::{Asked, Call};
use desk_rules::reply::Reply;
use desk_rules::terms::Terms;
use desk_store::{Change, PlanStore};
use put::prepare_put;
use show::{prepare_list, prepare_show};
use std::alloc::{AllocError, Global};

mod clear;
mod conflict;
mod delete;
mod listing;
mod near;
mod own;
mod pieces;
mod put;
mod show;
mod windows;

/// A prepared call: its reply, and the change to be committed with it, if there is one.
#[derive(Debug, Drop)]
pub struct Pending {
    pub(crate) reply: Reply,
    pub(crate) change: Option<Change>,
}

impl Pending {
    /// The reply to the call.
    pub fn reply(&self) -> &Reply
        ensures { result.now ≡ reply_in self.now }
    {
        &self.reply
    }

    /// Whether there is a change to commit: a plan is to be stored or closed, even if it is so already, or
    /// plans are to be removed.
    pub fn has_change(&self) -> bool
        ensures { result ≡ has_change self.now }
    {
        self.change.is_some()
    }

    /// A copy of the reply and of the change, in memory of its own.
    ///
    /// # Errors
    ///
    /// `AllocError` if memory runs out.
    pub fn copy(&self) -> Result<Pending, AllocError>
        ensures { IfOk result (λ copy. IsSamePending self.now copy) }
    {
        let change = self.change.as_ref().map(Change::copy).transpose()?;
        Ok(Pending {
            reply: self.reply.copy()?,
            change,
        })
    }
}

// Prepares the reply to `asked`, an operator's call, at `moment` (a Unix second), and its change, over
// `store` under the settings `terms`. Changes nothing. `UnknownOperator` if the operator is not enrolled,
// even for a call that needs no plan; then the errors of the kind of call.
pub fn prepare_over<S: PlanStore>(
    alloc: Global,
    store: &mut S,
    terms: &Terms,
    moment: i64,
    asked: &Asked,
) -> Result<Pending, DeskFault>
    ensures value { IsHonest (S.doubt store.new) →
        Prepares (with_content terms.now (S.content store.old)) moment asked.now result }
    ensures reads { OnlyReads S.content S.doubt S.faults S.may_leave S.is_shielded store.old store.new }
    ensures cause { IfErr result (IsStoreFaultCounted S.faults store.old store.new) }
{
    let operator = &asked.operator;
    let Some(ceiling) = store.ceiling(operator)? else {
        return Err(DeskFault::UnknownOperator);
    };
    match &asked.call {
        Call::Status => Ok(Pending {
            reply: Reply::Ready,
            change: None,
        }),
        Call::List => prepare_list(alloc, store, &terms.permitted, operator),
        Call::Show(id) => prepare_show(alloc, store, &terms.permitted, operator, id),
        Call::Put(put) => prepare_put(alloc, store, terms, moment, operator, put, ceiling),
        Call::Delete(id) => prepare_delete(store, operator, id),
        Call::Clear(extent) => prepare_clear(alloc, store, operator, extent),
    }
}
