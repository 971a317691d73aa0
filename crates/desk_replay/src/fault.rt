//! Why an entry can't be replayed.

use desk_run::DeskFault;
use std::alloc::AllocError;

/// Why an entry can't be replayed.
#[derive(Clone, Copy, Debug, PartialEq, Eq)]
pub enum ReplayFault {
    /// Memory ran out.
    OutOfMemory,
    /// The store failed.
    Store,
    /// No journal has such an entry at this place.
    NoRecord,
    /// A journal file begins that is not the next of its folder.
    NotNext,
    /// The desk's answer differs from the recorded one.
    Differs,
}

impl From<AllocError> for ReplayFault {
    ghost use Rattle.std.specs.Prelude.{◌≡◌};
    ghost use Rattle.desk_replay.specs.declared.fault.ReplayFault.TheVariants as replay_fault;

    ghost from_gives = { λ _ fault. fault ≡ replay_fault.OutOfMemory };

    // A failed allocation means that memory ran out.
    fn from(_error: AllocError) -> ReplayFault {
        ReplayFault::OutOfMemory
    }
}

impl From<DeskFault> for ReplayFault {
    ghost use Rattle.std.specs.Prelude.{◌≡◌};
    ghost use Rattle.desk_replay.specs.Running.{replay_fault_of};

    ghost from_gives = { λ fault f. f ≡ replay_fault_of fault };

    // The fault of an entry for which a call of the desk failed. What the desk's rules refuse (an unknown
    // operator or plan, a ceiling above 1,000) is in no journal: it becomes `NoRecord`.
    fn from(fault: DeskFault) -> ReplayFault {
        match fault {
            DeskFault::OutOfMemory => ReplayFault::OutOfMemory,
            DeskFault::Store => ReplayFault::Store,
            DeskFault::UnknownOperator | DeskFault::NoSuchPlan | DeskFault::Ceiling =>
                ReplayFault::NoRecord,
        }
    }
}
