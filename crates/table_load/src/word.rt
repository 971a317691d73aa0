//! The error codes for a database that can't be opened.

ghost use Rattle.std.specs.Prelude.{◌≡◌};
ghost use Rattle.table_load.specs.OpeningSteps as spec;

use crate::fault::OpenFault;

/// The error code that the program prints if a database can't be opened.
pub fn open_word(fault: &OpenFault) -> &'static str
    ensures { result.now ≡ spec.open_word fault.now }
{
    match fault {
        OpenFault::OutOfMemory => "memory",
        OpenFault::Store => "store",
        OpenFault::NotADesk => "not_a_desk",
        OpenFault::OldSchema => "old_schema",
    }
}
