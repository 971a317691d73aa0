//! The errors of a store.

use std::alloc::{AllocError, AllocFailed};
use std::error::Error;
use std::fmt;

/// Why a store did not answer a query or make a change. Its content is unchanged.
#[derive(Clone, Copy, Debug, PartialEq, Eq)]
pub enum StoreFault {
    /// Memory ran out.
    OutOfMemory,
    /// The storage failed, or returned data that no store writes.
    Store,
}

impl fmt::Display for StoreFault {
    ghost use Rattle.std.specs.Prelude.{Some};
    ghost use Rattle.desk_store.specs.Changes.{store_fault_text};

    ghost output = { λ fault. Some (store_fault_text fault) };

    // The fault as a sentence, in lower case and without a full stop.
    fn fmt<W: fmt::Write>(&self, f: &mut fmt::Formatter<W>) -> fmt::Result {
        f.pad(match self {
            StoreFault::OutOfMemory => "out of memory",
            StoreFault::Store => "the store failed",
        })
    }
}

impl Error for StoreFault {}

impl From<AllocError> for StoreFault {
    ghost use Rattle.std.specs.Prelude.{◌≡◌};
    ghost use Rattle.desk_store.specs.declared.fault.StoreFault.TheVariants.{OutOfMemory};

    ghost from_gives = { λ _ e. e ≡ OutOfMemory };

    // An allocation failed, so memory ran out.
    fn from(_e: AllocError) -> StoreFault {
        StoreFault::OutOfMemory
    }
}

impl<T: Drop> From<AllocFailed<T>> for StoreFault {
    ghost use Rattle.std.specs.Prelude.{◌≡◌};
    ghost use Rattle.desk_store.specs.declared.fault.StoreFault.TheVariants.{OutOfMemory};

    ghost from_gives = { λ _ e. e ≡ OutOfMemory };

    // A list or map couldn't grow, so memory ran out. The value that was to be added is dropped.
    fn from(_e: AllocFailed<T>) -> StoreFault {
        StoreFault::OutOfMemory
    }
}
