//! The desk: calls answered over a store.

ghost use Rattle.std.specs.Prelude.{◌≡◌, ◌≢◌, ◌≤◌, ◌<◌, ◌↔◌, [], Err, IfOk, IfErr, OnOk, OnErr};
ghost use Rattle.desk_rules.specs.{Limits.max_priority, Outcome.no_terms};

use crate::fault::DeskFault;
use crate::pending::{Pending, prepare_over};
use desk_rules::call::Asked;
use desk_rules::decide::MAX_PRIORITY;
use desk_rules::operator::Operator;
use desk_rules::permission::Permitted;
use desk_rules::reply::Reply;
use desk_rules::terms::Terms;
use desk_store::{Change, PlanStore};
use std::alloc::Global;
use std::marker::Model;

/// A desk over a store.
///
/// What a call replies and changes is proved if the storage is still intact ("honest") as the call ends. In
/// any case, a call that returns an error leaves the operators and plans unchanged.
///
/// After a crash during a call, a start finds the operators and plans as they were before the call or as they
/// are after it; once the call has returned a reply, as they are after it.
#[derive(Drop)]
pub struct Desk<S> {
    store: S,
    terms: Terms,
}

impl<S> Model for Desk<S> {
    ghost use Rattle.desk_run.specs.Verdicts.{Parts, parts_code};

    ghost Value = { Parts S };

    ghost coded = { parts_code S.code };

    ghost view = { λ d. record { store = d.store; terms = d.terms } };
}

impl<S> Desk<S> {
    /// A desk over `store` with the default settings: no priority is permitted, and spans and cells have no
    /// limit.
    pub fn new(store: S) -> Desk<S>
        ensures { result ≡ record { store = store; terms = no_terms } }
    {
        Desk {
            store,
            terms: Terms::none(),
        }
    }

    /// Takes the desk apart and returns its store. The settings are dropped.
    pub fn into_store(self) -> S
        ensures { result ≡ self.store }
    {
        self.store
    }

    /// Permits these priorities, and no others, for later calls: two plans of the same priority may share
    /// points if that priority is permitted. Stored plans stay as they are.
    pub fn permit(&mut self, permitted: Permitted)
        ensures { self.new ≡ record {
          store = self.old.store;
          terms = record self.old.terms { permitted = permitted };
        } }
    {
        self.terms.permitted = permitted;
    }

    /// Replaces the terms (the settings of the desk) for later calls. Stored plans stay as they are.
    pub fn set_terms(&mut self, terms: Terms)
        ensures { self.new ≡ record { store = self.old.store; terms = terms } }
    {
        self.terms = terms;
    }
}

impl<S: PlanStore> Desk<S> {
    ghost use Rattle.desk_store.specs.{Changes.Remembers, Changes.IsHonest, World.LeavesNoMore};
    ghost use Rattle.desk_run.specs.Calls.{Leaves, fault_in, IsBreakdown, IsStoreFaultCounted, ReportsReply, Prepares, CanCommit, reply_in, world_committed};
    ghost use Rattle.desk_run.specs.Verdicts.{IsSettled, enrolled, world_of, step_by};

    /// Enrols the operator with `ceiling`, the greatest priority that its plans may have (at most 1,000), or
    /// replaces its ceiling. Its plans stay.
    ///
    /// # Errors
    ///
    /// `Ceiling` if `ceiling` is above 1,000; else `OutOfMemory` if memory runs out, or `Store` if the store
    /// failed. The operators and plans are unchanged then.
    pub fn enrol(&mut self, operator: &Operator, ceiling: u32) -> Result<(), DeskFault>
        ensures ok { IsHonest (S.doubt self.new.store) → OnOk result (world_of S.content self.new
            ≡ enrolled (world_of S.content self.old) operator.now ceiling) }
        ensures kept { IsHonest (S.doubt self.new.store) →
            OnOk result (IsSettled S.content S.may_leave self.new) }
        ensures leaves { Leaves S.PlanStore self.old self.new
            (enrolled (world_of S.content self.old) operator.now ceiling) (fault_in result) }
        ensures ceiling { (result ≡ Err DeskFault.Ceiling) ↔ (max_priority < ceiling) }
        ensures fault { IfErr result (λ e. (e ≢ DeskFault.Ceiling) → IsBreakdown e) }
    {
        if ceiling > MAX_PRIORITY {
            return Err(DeskFault::Ceiling);
        }
        self.store.apply(&Change::Enrol {
            operator: *operator,
            ceiling,
        })?;
        Ok(())
    }

    /// Prepares the reply to `asked`, an operator's call, at `moment` (a Unix second), and the change for
    /// `commit`. Changes nothing. New lists take their memory from `alloc`.
    ///
    /// # Errors
    ///
    /// `UnknownOperator` if the operator isn't enrolled; `NoSuchPlan` if it has no plan with the id of the
    /// call to show or to delete one; `OutOfMemory` if memory runs out; `Store` if the store failed.
    pub fn prepare(
        &mut self,
        alloc: Global,
        moment: i64,
        asked: &Asked,
    ) -> Result<Pending, DeskFault>
        ensures value { IsHonest (S.doubt self.new.store) →
            Prepares (world_of S.content self.old) moment asked.now result }
        ensures same { world_of S.content self.new ≡ world_of S.content self.old }
        ensures crash { IsHonest (S.doubt self.new.store) →
            LeavesNoMore (S.may_leave self.old.store) (S.may_leave self.new.store) }
        ensures remembered { Remembers S.doubt S.faults S.is_shielded self.old.store self.new.store }
        ensures cause { IfErr result (IsStoreFaultCounted S.faults self.old.store self.new.store) }
    {
        prepare_over(alloc, &mut self.store, &self.terms, moment, asked)
    }

    /// Makes the change of a prepared call, if it has one, and returns its reply. The change has to fit the
    /// operators and plans: it does as long as they are as they were when it was prepared. On an error the
    /// reply is dropped.
    ///
    /// # Errors
    ///
    /// `OutOfMemory` if memory runs out, `Store` if the store failed. The operators and plans are unchanged
    /// then.
    pub fn commit(&mut self, pending: Pending) -> Result<Reply, DeskFault>
        requires { IsHonest (S.doubt self.old.store) →
            CanCommit (world_of S.content self.old) pending }
        ensures reply { IfOk result (λ reply. reply ≡ reply_in pending) }
        ensures ok { IsHonest (S.doubt self.new.store) → OnOk result
            (world_of S.content self.new ≡ world_committed (world_of S.content self.old) pending) }
        ensures leaves { Leaves S.PlanStore self.old self.new
            (world_committed (world_of S.content self.old) pending) (fault_in result) }
        ensures fault { IfErr result (λ e. IsBreakdown e) }
    {
        let Pending { reply, change } = pending;
        let Some(change) = change else {
            return Ok(reply);
        };
        self.store.apply(&change)?;
        Ok(reply)
    }

    /// Answers `asked`, an operator's call, at `moment` (a Unix second), and makes its change: `prepare`,
    /// then `commit`.
    ///
    /// # Errors
    ///
    /// Those of `prepare`. The operators and plans are unchanged then.
    pub fn call(&mut self, alloc: Global, moment: i64, asked: &Asked) -> Result<Reply, DeskFault>
        ensures reported { IsHonest (S.doubt self.new.store) →
            ReportsReply (world_of S.content self.old) moment asked.now result }
        ensures ok { IsHonest (S.doubt self.new.store) → OnOk result
            (world_of S.content self.new ≡ step_by (world_of S.content self.old) moment asked.now) }
        ensures leaves { Leaves S.PlanStore self.old self.new
            (step_by (world_of S.content self.old) moment asked.now) (fault_in result) }
    {
        let pending = self.prepare(alloc, moment, asked)?;
        self.commit(pending)
    }
}
