//! Calls to the desk: requests, after they are read.

ghost use Rattle.std.specs.Prelude.{◌≡◌, IfOk};

use crate::operator::Operator;
use crate::plan::PutCall;
use crate::plan_id::PlanId;
use std::alloc::AllocError;
use volume4d::Volume;

/// A call to the desk.
#[derive(Debug, Drop)]
pub enum Call {
    /// Ask whether the desk is ready.
    Status,
    /// List the operator's plans.
    List,
    /// Show the plan with this id.
    Show(PlanId),
    /// Plan, activate, change or close a flight.
    Put(PutCall),
    /// Close the plan with this id.
    Delete(PlanId),
    /// Remove the operator's plans that share a point with this volume, closed ones too.
    Clear(Volume),
}

/// A call and the operator that makes it.
#[derive(Debug, Drop)]
pub struct Asked {
    /// The operator that makes the call.
    pub operator: Operator,
    /// The call.
    pub call: Call,
}

impl Call {
    /// An equal call, in memory of its own.
    ///
    /// # Errors
    ///
    /// `AllocError` if memory runs out.
    pub fn copy(&self) -> Result<Call, AllocError>
        ensures { IfOk result (λ copy. copy ≡ self.now) }
    {
        match self {
            Call::Status => Ok(Call::Status),
            Call::List => Ok(Call::List),
            Call::Show(id) => Ok(Call::Show(*id)),
            Call::Put(put) => Ok(Call::Put(put.copy()?)),
            Call::Delete(id) => Ok(Call::Delete(*id)),
            Call::Clear(extent) => Ok(Call::Clear(extent.copy()?)),
        }
    }
}

impl Asked {
    /// An equal call of the same operator, in memory of its own.
    ///
    /// # Errors
    ///
    /// `AllocError` if memory runs out.
    pub fn copy(&self) -> Result<Asked, AllocError>
        ensures { IfOk result (λ copy. copy ≡ self.now) }
    {
        Ok(Asked {
            operator: self.operator,
            call: self.call.copy()?,
        })
    }
}
