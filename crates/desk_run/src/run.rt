//! Runs: lists of calls that are answered one after the other.

ghost use Rattle.std.specs.Prelude.{◌≡◌, ◌≤◌, length, map, Some, IfOk, OnErr};
ghost use Rattle.desk_store.specs.Changes.{Remembers, IsHonest, HasRisen};
ghost use Rattle.desk_run.specs.{Calls.FindsOnly, Calls.IsFoundIn, Calls.IsRun, Calls.as_reported, Verdicts.world_of};
ghost use Rattle.desk_run.specs.Calls as spec;

use crate::desk::Desk;
use crate::fault::DeskFault;
use desk_rules::call::Asked;
use desk_rules::reply::Reply;
use desk_store::PlanStore;
use std::alloc::{AllocError, Global};

/// The outcome of a call of a run.
#[derive(Debug, Drop)]
pub enum Outcome {
    /// The call has this reply.
    Reply(Reply),
    /// The operator is not enrolled.
    UnknownOperator,
    /// The operator has no plan with the id of the call.
    NoSuchPlan,
}

/// The result of a run.
#[derive(Debug, Drop)]
pub struct Ran {
    /// The outcomes of the calls answered, in their order.
    pub outcomes: Vec<Outcome>,
    /// The error that stopped the run, if it didn't reach its end. The call with this error changed nothing.
    pub stopped: Option<DeskFault>,
}

impl Outcome {
    /// An outcome that says the same, in memory of its own.
    ///
    /// # Errors
    ///
    /// `AllocError` if memory runs out.
    pub fn copy(&self) -> Result<Outcome, AllocError>
        ensures { IfOk result (λ copy. as_reported copy ≡ as_reported self.now) }
    {
        match self {
            Outcome::Reply(reply) => Ok(Outcome::Reply(reply.copy()?)),
            Outcome::UnknownOperator => Ok(Outcome::UnknownOperator),
            Outcome::NoSuchPlan => Ok(Outcome::NoSuchPlan),
        }
    }
}

impl Ran {
    /// A result that says the same, in memory of its own.
    ///
    /// # Errors
    ///
    /// `AllocError` if memory runs out.
    pub fn copy(&self) -> Result<Ran, AllocError>
        ensures outcomes { IfOk result (λ copy.
            map as_reported copy.outcomes.items ≡ map as_reported self.now.outcomes.items) }
        ensures stopped { IfOk result (λ copy. copy.stopped ≡ self.now.stopped) }
    {
        Ok(Ran {
            outcomes: copies(&self.outcomes)?,
            stopped: self.stopped,
        })
    }
}

impl<S: PlanStore> Desk<S> {
    /// Answers `calls` in order, each at its moment (a Unix second), until memory runs out or the store fails
    /// in one: `stopped` says so, and later calls are not made. A call that ends in `UnknownOperator` or
    /// `NoSuchPlan` does not stop the run.
    ///
    /// # Errors
    ///
    /// `AllocError` if there is no memory for the list of outcomes. Nothing has changed then.
    pub fn run(&mut self, alloc: Global, calls: &[(i64, Asked)]) -> Result<Ran, AllocError>
        ensures ran { IsHonest (S.doubt self.new.store) → IfOk result (λ ran.
            IsRun (world_of S.content self.old) calls.now ran (world_of S.content self.new)) }
        ensures kept { IfOk result (λ ran. FindsOnly S.PlanStore self.old self.new
            (IsFoundIn (world_of S.content self.old) calls.now (length ran.outcomes.items))) }
        ensures err { OnErr result (self.new ≡ self.old) }
        ensures remembered { Remembers S.doubt S.faults S.is_shielded self.old.store self.new.store }
        ensures cause { IfOk result (λ ran. ran.stopped ≡ Some DeskFault.Store →
            HasRisen (S.faults self.old.store) (S.faults self.new.store)) }
    {
        let mut outcomes = Vec::with_capacity(alloc, calls.len())?;
        for (moment, asked) in calls {
            match outcome_of(self.call(alloc, *moment, asked)) {
                Ok(outcome) => outcomes.push_reserved(outcome),
                Err(fault) => return Ok(Ran {
                    outcomes,
                    stopped: Some(fault),
                }),
            }
        }
        Ok(Ran {
            outcomes,
            stopped: None,
        })
    }
}

// A copy of each outcome, in their order; `AllocError` if memory runs out.
fn copies(outcomes: &Vec<Outcome>) -> Result<Vec<Outcome>, AllocError>
    ensures { IfOk result (λ copies. map as_reported copies.items ≡ map as_reported outcomes.now.items) }
{
    let mut copies = Vec::new(*outcomes.allocator());
    for outcome in outcomes {
        copies.push(outcome.copy()?)?;
    }
    Ok(copies)
}

// The outcome of a call that returned `answered`. An error other than `UnknownOperator` and `NoSuchPlan` is
// passed on: it stops a run.
fn outcome_of(answered: Result<Reply, DeskFault>) -> Result<Outcome, DeskFault>
    ensures { result ≡ spec.call_outcome answered }
{
    match answered {
        Ok(reply) => Ok(Outcome::Reply(reply)),
        Err(DeskFault::UnknownOperator) => Ok(Outcome::UnknownOperator),
        Err(DeskFault::NoSuchPlan) => Ok(Outcome::NoSuchPlan),
        Err(fault) => Err(fault),
    }
}
