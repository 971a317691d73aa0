//! Why a database can't be opened, and which errors become which fault.

use row_codec::exact::RowFault;
use sqlite::ErrorCode;
use std::alloc::AllocError;
use std::error::Error;
use std::fmt;

/// Why a store over tables cannot be opened.
#[derive(Clone, Copy, Debug, PartialEq, Eq)]
pub enum OpenFault {
    /// Memory ran out.
    OutOfMemory,
    /// SQLite failed for another cause.
    Store,
    /// The tables, indexes and views aren't those of a desk: others may only stand behind all of these, and
    /// apart from them. Or the rows aren't those of a valid state.
    NotADesk,
    /// There are rows of schema 1, which have to be migrated.
    OldSchema,
}

impl fmt::Display for OpenFault {
    ghost use Rattle.std.specs.Prelude.{Some};
    ghost use Rattle.table_load.specs.Opening.{open_fault_text};

    ghost output = { λ fault. Some (open_fault_text fault) };

    // The fault as a sentence, in lower case and without a full stop.
    fn fmt<W: fmt::Write>(&self, f: &mut fmt::Formatter<W>) -> fmt::Result {
        f.pad(match self {
            OpenFault::OutOfMemory => "out of memory",
            OpenFault::Store => "the database failed",
            OpenFault::NotADesk => "the tables are not a desk's",
            OpenFault::OldSchema => "the tables are of schema 1",
        })
    }
}

impl Error for OpenFault {}

impl From<sqlite::Error> for OpenFault {
    ghost use Rattle.std.specs.Prelude.{◌≡◌};
    ghost use Rattle.table_load.specs.Opening.{open_fault_of};

    ghost from_gives = { λ error fault. fault ≡ open_fault_of error };

    // `OutOfMemory` for the error of SQLite with this name, and `Store` for each other one.
    fn from(error: sqlite::Error) -> OpenFault {
        match error {
            sqlite::Error::SqliteFailure(ErrorCode::OutOfMemory) => OpenFault::OutOfMemory,
            _ => OpenFault::Store,
        }
    }
}

impl From<AllocError> for OpenFault {
    ghost use Rattle.std.specs.Prelude.{◌≡◌};
    ghost use Rattle.table_load.specs.declared.fault.OpenFault.TheVariants.{OutOfMemory};

    ghost from_gives = { λ _ fault. fault ≡ OutOfMemory };

    // An allocation failed, so memory ran out.
    fn from(_error: AllocError) -> OpenFault {
        OpenFault::OutOfMemory
    }
}

impl From<RowFault> for OpenFault {
    ghost use Rattle.std.specs.Prelude.{◌≡◌};
    ghost use Rattle.table_load.specs.Opening.{fault_of_rows};

    ghost from_gives = { λ rows fault. fault ≡ fault_of_rows rows };

    // Memory ran out, or the rows aren't those of a valid state: the database isn't a desk's.
    fn from(rows: RowFault) -> OpenFault {
        match rows {
            RowFault::OutOfMemory => OpenFault::OutOfMemory,
            RowFault::InvalidRows => OpenFault::NotADesk,
        }
    }
}
