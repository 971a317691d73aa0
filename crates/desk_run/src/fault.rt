//! Why a call has no reply.

use desk_store::StoreFault;
use std::alloc::AllocError;
use std::error::Error;
use std::fmt;

/// Why a call has no reply, or an enrolment failed. The operators and plans are unchanged. Only an enrolment
/// ends in `Ceiling`, and only a call in `UnknownOperator` or `NoSuchPlan`.
#[derive(Clone, Copy, Debug, PartialEq, Eq)]
pub enum DeskFault {
    /// Memory ran out.
    OutOfMemory,
    /// The store failed.
    Store,
    /// The operator is not enrolled.
    UnknownOperator,
    /// The operator has no plan with this id.
    NoSuchPlan,
    /// The ceiling of an enrolment is above 1,000.
    Ceiling,
}

impl fmt::Display for DeskFault {
    ghost use Rattle.std.specs.Prelude.{Some};
    ghost use Rattle.desk_run.specs.Calls.{desk_fault_text};

    ghost output = { λ fault. Some (desk_fault_text fault) };

    // The fault as a sentence, in lower case and without a full stop.
    fn fmt<W: fmt::Write>(&self, f: &mut fmt::Formatter<W>) -> fmt::Result {
        f.pad(match self {
            DeskFault::OutOfMemory => "out of memory",
            DeskFault::Store => "the store failed",
            DeskFault::UnknownOperator => "the operator is not enrolled",
            DeskFault::NoSuchPlan => "the operator has no plan with this id",
            DeskFault::Ceiling => "the ceiling is above 1,000",
        })
    }
}

impl Error for DeskFault {}

impl From<StoreFault> for DeskFault {
    ghost use Rattle.std.specs.Prelude.{◌≡◌};
    ghost use Rattle.desk_run.specs.Calls.{fault_of};

    ghost from_gives = { λ fault e. e ≡ fault_of fault };

    // The fault of the store, as the fault of the call that met it.
    fn from(fault: StoreFault) -> DeskFault {
        match fault {
            StoreFault::OutOfMemory => DeskFault::OutOfMemory,
            StoreFault::Store => DeskFault::Store,
        }
    }
}

impl From<AllocError> for DeskFault {
    ghost use Rattle.std.specs.Prelude.{◌≡◌};
    ghost use Rattle.desk_run.specs.declared.fault.DeskFault.TheVariants.{OutOfMemory};

    ghost from_gives = { λ _ e. e ≡ OutOfMemory };

    // An allocation failed, so memory ran out.
    fn from(_error: AllocError) -> DeskFault {
        DeskFault::OutOfMemory
    }
}
