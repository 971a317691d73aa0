//! The file to which a desk writes its journal, and the clock that names it. No contract says what the
//! operating system did.

ghost use Rattle.std.specs.Prelude.{IfErr};
ghost use Rattle.desk_host.specs.Operators.{IsJournalError, ReportsFirstError};

use crate::folders::{JournalError, make_part};
use desk_cli::ErrorCode;
use desk_recording::Journal;
use host_files::files::LocalHost;
use host_files::reporting::report_text;
use std::fs::File;
use std::io::{self, Write};
use std::time::SystemTime;

/// The file of a journal in `folder`. The first failed write or flush is reported on the standard error.
#[derive(Drop)]
pub struct LocalJournal<'s> {
    host: LocalHost<'s>,
    folder: &'s str,
    file: File,
    // whether a failed write was reported
    is_reported: bool,
}

/// Why a journal can't be written. The first such error of a journal was reported.
#[derive(Drop)]
pub struct FileError {
    error: io::Error,
}

impl From<FileError> for ErrorCode {
    ghost use Rattle.std.specs.Prelude.{◌≡◌};
    ghost use Rattle.desk_cli.specs.declared.failure.ErrorCode.TheVariants.{Write};

    ghost from_gives = { λ _ failure. failure ≡ Write };

    fn from(_error: FileError) -> ErrorCode {
        ErrorCode::Write
    }
}

impl<'s> LocalJournal<'s> {
    /// Makes the file of the new journal with this number in `folder`, under its temporary name, in place of
    /// one that was left there. Only its owner can read and write it.
    ///
    /// # Errors
    ///
    /// The file can't be made, or memory runs out.
    pub fn make(
        host: LocalHost<'s>,
        folder: &'s str,
        number: u64,
    ) -> Result<LocalJournal<'s>, JournalError>
        ensures { IfErr result IsJournalError }
    {
        Ok(LocalJournal {
            host,
            folder,
            file: make_part(host, folder, number)?,
            is_reported: false,
        })
    }

    // Returns `done`, the result of writing the journal. The first error is reported on the standard error,
    // which the contract doesn't say. A failed write of the report and running out of memory are ignored.
    fn report_error(&mut self, done: io::Result<()>) -> Result<(), FileError>
        ensures { ReportsFirstError done self.old self.new result }
    {
        let Err(error) = done else {
            return Ok(());
        };
        if !self.is_reported {
            self.is_reported = true;
            let text = "the record can't be written";
            report_text(
                self.host.alloc(),
                self.folder,
                text,
                &mut self.host.errors(),
            );
        }
        Err(FileError { error })
    }
}

impl Journal for LocalJournal<'_> {
    type Fault = FileError;

    // Appends `bytes` to the file. The first error is reported; some of the bytes may be appended then.
    fn append(&mut self, bytes: &[u8]) -> Result<(), FileError> {
        let done = self.file.write_all(bytes);
        self.report_error(done)
    }

    // Flushes the file's data to the disk. The first error is reported.
    fn sync(&mut self) -> Result<(), FileError> {
        let done = self.file.sync_data();
        self.report_error(done)
    }
}

/// The clock can't be read, or is before 1970. Only `second_now` makes this error.
#[derive(Clone, Copy, Debug, PartialEq, Eq)]
pub struct ClockError {
    is_early: bool,
}

impl From<ClockError> for ErrorCode {
    ghost use Rattle.std.specs.Prelude.{◌≡◌};
    ghost use Rattle.desk_cli.specs.declared.failure.ErrorCode.TheVariants.{Clock};

    ghost from_gives = { λ _ failure. failure ≡ Clock };

    fn from(_error: ClockError) -> ErrorCode {
        ErrorCode::Clock
    }
}

/// The present Unix second. It has no contract, since no contract says what the clock shows.
///
/// # Errors
///
/// The clock can't be read, or is before 1970.
pub fn second_now(host: LocalHost<'_>) -> Result<u64, ClockError> {
    let now = SystemTime::now(host.rt).map_err(|_| ClockError { is_early: false })?;
    let since = now.duration_since(SystemTime::UNIX_EPOCH);
    Ok(since.map_err(|_| ClockError { is_early: true })?.as_secs())
}
