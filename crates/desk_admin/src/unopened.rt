//! Why the files of a database were not opened.

ghost use Rattle.std.specs.Prelude.{◌≡◌};
ghost use Rattle.std.specs.Option.{IsSomeAnd};
ghost use Rattle.desk_cli.specs.Exits.{failure_word};
ghost use Rattle.table_load.specs.OpeningSteps.{open_word};
ghost use Rattle.desk_admin.specs.FilesReported as spec;
ghost use Rattle.desk_admin.specs.FilesReported.{IsUnreadFor};

use desk_cli::ErrorCode;
use desk_tables::{FilesFault, OpenFault};
use sqlite::FileFrom;
use sqlite_disk::Disk;
use std::alloc::AllocError;
use std::snapshot::Snapshot;

/// Why a database was not opened. Refused files are closed; their snapshot exists only for the contracts.
#[derive(Drop)]
pub struct OpenError<D: Disk> {
    /// The error code with which the command ends.
    pub failure: ErrorCode,
    /// The error of the files, if these were refused.
    pub refused: Option<Snapshot<FilesFault<D>>>,
}

impl<D: Disk + Drop> OpenError<D> {
    /// The error for `refused` files. Their connection is closed, so that a report can read them again.
    pub fn of(refused: FilesFault<D>) -> OpenError<D>
        ensures failure { result.failure ≡ spec.open_failure refused.fault }
        ensures refused { IsSomeAnd result.refused (λ s. s.value ≡ refused) }
    {
        OpenError {
            failure: open_failure(&refused.fault),
            refused: Some(Snapshot::of(&refused)),
        }
    }

    /// The error for a `fault` before any file was opened.
    pub fn unread(fault: OpenFault) -> OpenError<D>
        ensures { IsUnreadFor result fault }
    {
        OpenError {
            failure: open_failure(&fault),
            refused: None,
        }
    }
}

impl<D: Disk + Drop> From<AllocError> for OpenError<D> {
    ghost use Rattle.table_load.specs.declared.fault.OpenFault.TheVariants.{OutOfMemory};
    ghost use Rattle.desk_admin.specs.FilesReported.{IsUnreadFor};

    ghost from_gives = { λ _ it. IsUnreadFor it OutOfMemory };

    fn from(_error: AllocError) -> OpenError<D> {
        OpenError::unread(OpenFault::OutOfMemory)
    }
}

/// Why files were not opened; `F` is a type that stands for their content.
pub type FileOpenError<F> = OpenError<FileFrom<F>>;

/// What was opened, or only the error code of why not. The connection to refused files is closed before.
pub fn or_failure<D: Disk + Drop, T>(opened: Result<T, OpenError<D>>) -> Result<T, ErrorCode>
    ensures { result ≡ spec.or_failure opened }
{
    match opened {
        Ok(it) => Ok(it),
        Err(unread) => Err(unread.failure),
    }
}

/// The error code with which the program ends if a database can't be opened for this `fault`. Its printed
/// word is `open_word fault`.
pub fn open_failure(fault: &OpenFault) -> ErrorCode
    ensures failure { result ≡ spec.open_failure fault.now }
    ensures word { failure_word result ≡ open_word fault.now }
{
    match fault {
        OpenFault::OutOfMemory => ErrorCode::Memory,
        OpenFault::Store => ErrorCode::Store,
        OpenFault::NotADesk => ErrorCode::NotADesk,
        OpenFault::OldSchema => ErrorCode::OldSchema,
    }
}
