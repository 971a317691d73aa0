//! Why a volume cannot be made.

ghost use Rattle.std.specs.Prelude.{◌≡◌};
ghost use Rattle.volume4d.specs.declared.fault.VolumeFault.TheVariants.{OutOfMemory};

use std::alloc::AllocError;
use std::error::Error;
use std::fmt;

/// Why a volume cannot be made. At most one reason applies to a footprint: `Cells` to a list, `TooManyCells`
/// to a rectangle, and `OutOfMemory` where memory runs out before the reason is known.
#[derive(Clone, Copy, Debug, PartialEq, Eq)]
pub enum VolumeFault {
    /// A cell list does not have 1 to 64 cells.
    Cells,
    /// The canonical cover of a rectangle has more than 1,024 cells.
    TooManyCells,
    /// Memory ran out.
    OutOfMemory,
}

impl fmt::Display for VolumeFault {
    ghost use Rattle.std.specs.Prelude.{Some};
    ghost use Rattle.volume4d.specs.Volume.{volume_fault_text};

    ghost output = { λ fault. Some (volume_fault_text fault) };

    // The fault as a sentence, in lower case and without a full stop.
    fn fmt<W: fmt::Write>(&self, f: &mut fmt::Formatter<W>) -> fmt::Result {
        f.pad(match self {
            VolumeFault::Cells => "a cell list has 1 to 64 cells",
            VolumeFault::TooManyCells => "a rectangle takes at most 1,024 cells",
            VolumeFault::OutOfMemory => "out of memory",
        })
    }
}

impl Error for VolumeFault {}

impl From<AllocError> for VolumeFault {
    ghost from_gives = { λ _ e. e ≡ OutOfMemory };

    // An allocation failed, so memory ran out.
    fn from(_e: AllocError) -> VolumeFault {
        VolumeFault::OutOfMemory
    }
}
