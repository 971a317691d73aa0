//! Replies of the desk: the results of calls, before they are written as JSON.

ghost use Rattle.std.specs.Prelude.{◌≡◌, IfOk};
ghost use Rattle.desk_rules.specs.Outcome.{said_in};

use crate::plan::PlanRow;
use crate::words::{Note, PlanResult, PlanStatus};
use std::alloc::AllocError;
use volume4d::Meeting;

/// A reply of the desk: the result of a call, before it is written as JSON.
#[derive(Debug, Drop)]
pub enum Reply {
    /// The desk is ready.
    Ready,
    /// The operator's plans, ascending by id.
    Plans(Vec<Shown>),
    /// The plan asked for.
    Plan(Shown),
    /// The result of a request to plan, change or close.
    Answered(PutReply),
    /// How many plans were removed.
    Cleared(u32),
}

/// A plan of the operator as it is shown.
#[derive(Debug, Drop)]
pub struct Shown {
    /// The plan as it is stored.
    pub row: PlanRow,
    /// The status of the plan.
    pub status: PlanStatus,
    /// The first point of the plan at which another plan blocks it, or `None` if there is none or
    /// the plan is closed.
    pub conflict: Option<Meeting>,
}

/// The result of a request to plan, change or close.
#[derive(Clone, Copy, Debug, PartialEq, Eq)]
pub struct PutReply {
    /// Whether the request was carried out.
    pub result: PlanResult,
    /// The status of the plan after the request.
    pub status: PlanStatus,
    /// Why the request was refused, or `None` if it was carried out.
    pub note: Option<Note>,
    /// The first blocked point, if the note is `Conflict`.
    pub meeting: Option<Meeting>,
}

impl Reply {
    /// A copy of the reply, which says the same, in memory of its own.
    ///
    /// # Errors
    ///
    /// `AllocError` if memory runs out.
    pub fn copy(&self) -> Result<Reply, AllocError>
        ensures { IfOk result (λ copy. said_in copy ≡ said_in self.now) }
    {
        match self {
            Reply::Ready => Ok(Reply::Ready),
            Reply::Plans(plans) => Ok(Reply::Plans(copies(plans)?)),
            Reply::Plan(shown) => Ok(Reply::Plan(shown.copy()?)),
            Reply::Answered(reply) => Ok(Reply::Answered(*reply)),
            Reply::Cleared(count) => Ok(Reply::Cleared(*count)),
        }
    }
}

impl Shown {
    /// An equal plan as it is shown, in memory of its own.
    ///
    /// # Errors
    ///
    /// `AllocError` if memory runs out.
    pub fn copy(&self) -> Result<Shown, AllocError>
        ensures { IfOk result (λ copy. copy ≡ self.now) }
    {
        Ok(Shown {
            row: self.row.copy()?,
            status: self.status,
            conflict: self.conflict,
        })
    }
}

// Copies of `plans`, in the same order; `AllocError` if memory runs out. The memory is from the allocator of
// `plans`.
fn copies(plans: &Vec<Shown>) -> Result<Vec<Shown>, AllocError>
    ensures { IfOk result (λ copies. copies.items ≡ plans.now.items) }
{
    let mut copies = Vec::new(*plans.allocator());
    for shown in plans {
        copies.push(shown.copy()?)?;
    }
    Ok(copies)
}
