//! Which IO errors are retried.

ghost use Rattle.std.specs.Prelude.{◌≡◌, ◌↔◌, IsTrue};
ghost use Rattle.std.specs.IoError.{error_kind};

use std::io::{self, ErrorKind};

/// Whether `error` only says that a signal interrupted the call. The caller then makes the call again.
pub fn is_interrupted(error: &io::Error) -> bool
    ensures { IsTrue result ↔ (error_kind error.now ≡ ErrorKind.Interrupted) }
{
    error.kind() == ErrorKind::Interrupted
}
