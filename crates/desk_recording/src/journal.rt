//! The append-only file to which a journal is written.

ghost use Rattle.std.specs.Prelude.{IfErr, List, Option, None};
ghost use Rattle.std.specs.Result.{is_ok};
ghost use Rattle.desk_recording.specs.RecordWrites.{Appended, IsJournalFault, MakesWrite, Synced, Write};

use desk_cli::ErrorCode;
use std::alloc::AllocError;

/// An append-only file.
pub trait Journal {
    /// Why a call failed. Generic code can get one only from a call that failed.
    type Fault: Drop;

    /// The appends and syncs so far, the failed ones too, in their order; `None` if they aren't known.
    ghost writes: { Self → Option (List Write) } = { λ _. None };

    /// Appends bytes.
    ///
    /// # Errors
    ///
    /// What failed. Any prefix of `bytes` may be appended then.
    fn append(&mut self, bytes: &[u8]) -> Result<(), Self::Fault>
        ensures { MakesWrite (writes self.old) (writes self.new) (is_ok result) (Appended bytes.now) };

    /// Flushes all that was appended so far to the disk (fsync).
    ///
    /// # Errors
    ///
    /// What failed. It isn't known then how much of it is on the disk.
    fn sync(&mut self) -> Result<(), Self::Fault>
        ensures { MakesWrite (writes self.old) (writes self.new) (is_ok result) Synced };
}

/// Why entries could not be written; `F` is the file's own error.
#[derive(Drop)]
pub enum AppendError<F> {
    /// Memory ran out.
    OutOfMemory,
    /// The file failed.
    Journal(F),
}

impl<F> From<AllocError> for AppendError<F> {
    ghost use Rattle.std.specs.Prelude.{◌≡◌};
    ghost use Rattle.desk_recording.specs.declared.journal.AppendError.TheVariants as unwritten;

    ghost from_gives = { λ _ fault. fault ≡ unwritten.OutOfMemory };

    // A failed allocation means that memory ran out.
    fn from(_error: AllocError) -> AppendError<F> {
        AppendError::OutOfMemory
    }
}

impl<F: Drop> From<AppendError<F>> for ErrorCode {
    ghost use Rattle.std.specs.Prelude.{◌≡◌};
    ghost use Rattle.desk_recording.specs.RecordWrites.{append_failure};

    ghost from_gives = { λ error failure. failure ≡ append_failure error };

    // The error code of a command that can't write its journal.
    fn from(error: AppendError<F>) -> ErrorCode {
        match error {
            AppendError::OutOfMemory => ErrorCode::Memory,
            AppendError::Journal(_) => ErrorCode::Write,
        }
    }
}

/// Appends `bytes` to `journal`.
///
/// # Errors
///
/// `Journal` if the file fails. Any prefix of `bytes` may be appended then.
pub(crate) fn append_to<J: Journal>(
    journal: &mut J,
    bytes: &[u8],
) -> Result<(), AppendError<J::Fault>>
    ensures done { MakesWrite (J.writes journal.old) (J.writes journal.new) (is_ok result)
        (Appended bytes.now) }
    ensures fault { IfErr result IsJournalFault }
{
    journal.append(bytes).map_err(AppendError::Journal)
}

/// Flushes all that was appended to `journal` to the disk.
///
/// # Errors
///
/// `Journal` if the file fails.
pub(crate) fn sync_to<J: Journal>(journal: &mut J) -> Result<(), AppendError<J::Fault>>
    ensures done { MakesWrite (J.writes journal.old) (J.writes journal.new) (is_ok result) Synced }
    ensures fault { IfErr result IsJournalFault }
{
    journal.sync().map_err(AppendError::Journal)
}
