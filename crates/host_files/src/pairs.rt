//! Makes the scratch copy of a database file, which is read in place of the file: repaired, or byte for byte
//! together with its WAL. No contract says what the operating system did.

ghost use Rattle.std.specs.Prelude.{◌≡◌, IfErr, IfSome};
ghost use Rattle.host_files.specs.Access as left;
ghost use Rattle.host_files.specs.Naming as spec;
ghost use Rattle.host_files.specs.Naming.{IsCopyFault, IsScratchFaultBy};

use crate::access::access_cause;
use crate::files::{HostFiles, LocalHost};
use crate::naming::{OWNER_ALONE, creation_error_text, is_missing, name_with};
use db_file::{copy_bytes, copy_mended};
use sqlite::Unknown;
use sqlite_std_file::OpenError;
use std::alloc::AllocError;
use std::fs::{self, File, OpenOptions};
use std::io::{self, ErrorKind};
use std::os::unix::fs::OpenOptionsExt;

/// Why a scratch copy can't be made.
#[derive(Clone, Copy, Debug, PartialEq, Eq)]
pub enum ScratchFault {
    /// Memory ran out.
    OutOfMemory,
    /// The file itself can't be read, for this cause.
    Source(&'static str),
    /// The scratch copy can't be written, for this cause.
    ScratchCopy(&'static str),
}

impl From<AllocError> for ScratchFault {
    ghost use Rattle.std.specs.Prelude.{◌≡◌, IfSome};
    ghost use Rattle.host_files.specs.declared.pairs.ScratchFault.TheVariants.{OutOfMemory};

    ghost from_gives = { λ _ fault. fault ≡ OutOfMemory };

    fn from(_error: AllocError) -> ScratchFault {
        ScratchFault::OutOfMemory
    }
}

// The cause for a file that can't be read.
const UNREAD: &str = "it can't be read";

/// Makes the scratch copy of the file `source` at the free path `scratch`: repaired if `is_mended`, else
/// byte for byte together with its WAL. Only its owner can read it. `source` is locked meanwhile. Locking
/// may make an empty WAL beside it, which is removed again.
///
/// # Errors
///
/// Why that failed. What was written until then stays: the caller removes it.
pub fn write_scratch(
    rt: &HostRuntime,
    source: &str,
    scratch: &str,
    is_mended: bool,
) -> Result<(), ScratchFault> {
    let host = LocalHost::new(rt);
    let real = host.real(source).map_err(source_fault)?;
    let log = name_with(rt.alloc(), &real, "-wal")?;
    let is_alone = is_missing(&host, &log);
    match sqlite_std_file::open(rt, source, Unknown) {
        Ok(_held) => {
            // locking the file made this WAL
            if is_alone && is_empty(&host, &log) {
                let _ = fs::remove_file(rt, &log);
            }
            if is_mended {
                write_mended(rt, source, scratch)
            } else {
                write_pair(rt, source, &log, scratch)
            }
        }
        Err(OpenError::OutOfMemory) => Err(ScratchFault::OutOfMemory),
        Err(_) => Err(ScratchFault::Source(access_cause(host, source).unwrap_or(UNREAD))),
    }
}

// Whether an empty regular file exists at a path itself; false if it is a link, or can't be reached.
fn is_empty<F: HostFiles>(files: &F, path: &str) -> bool
    ensures { IfSome (F.answers files.now) (λ it. result ≡ left.is_empty it path.now) }
{
    match files.find_entry(path) {
        Ok(found) if found.is_file => found.len == 0,
        _ => false,
    }
}

// Writes a repaired copy of the file `source` to the free path `scratch`. The source is opened only once, and
// closed last: closing it releases its lock.
fn write_mended(rt: &HostRuntime, source: &str, scratch: &str) -> Result<(), ScratchFault>
    ensures { IfErr result IsCopyFault }
{
    let mut file = File::open(rt, source).map_err(|error| source_fault(error.kind()))?;
    let mut made = new_file(rt, scratch)?;
    copy_open_file(&mut file, &mut made).map_err(|error| copy_fault(error.kind()))
}

// Copies the open file `file` to `made`, repaired as by `copy_mended`. It fails with the error of the system's
// call that failed, or as `copy_mended` does.
fn copy_open_file(file: &mut File, made: &mut File) -> io::Result<()> {
    let len = file.metadata()?.len();
    copy_mended(file, made, len)
}

// Copies the file `source` and its WAL `log` to the free path `scratch` and its WAL. It stops at the first
// error. The originals are closed last: closing one releases its lock.
fn write_pair(
    rt: &HostRuntime,
    source: &str,
    log: &str,
    scratch: &str,
) -> Result<(), ScratchFault> {
    let scratch_log = format!(in rt.alloc(); "{scratch}-wal")?;
    let mut file = File::open(rt, source).map_err(|error| source_fault(error.kind()))?;
    let mut changes = File::open(rt, log).map_err(|error| source_fault(error.kind()))?;
    let mut made = new_file(rt, scratch)?;
    copy_bytes(&mut file, &mut made).map_err(|error| copy_fault(error.kind()))?;
    let mut made_log = new_file(rt, &scratch_log)?;
    copy_bytes(&mut changes, &mut made_log).map_err(|error| copy_fault(error.kind()))
}

// Makes an empty file at a free path, and opens it for writing. Only its owner can read and write it.
fn new_file(rt: &HostRuntime, path: &str) -> Result<File, ScratchFault>
    ensures { IfErr result (IsScratchFaultBy spec.made_text) }
{
    let made = OpenOptions::new()
        .write(true)
        .create_new(true)
        .mode(OWNER_ALONE)
        .open(rt, path);
    made.map_err(|error| made_fault(error.kind()))
}

// Why the scratch copy can't be made, by the kind of the error of making its file.
fn made_fault(kind: ErrorKind) -> ScratchFault
    ensures { spec.fault_text result ≡ spec.made_text kind }
{
    match kind {
        ErrorKind::OutOfMemory => ScratchFault::OutOfMemory,
        kind => ScratchFault::ScratchCopy(creation_error_text(kind)),
    }
}

// Why the file to be copied can't be read, by the kind of the error of opening it.
fn source_fault(kind: ErrorKind) -> ScratchFault
    ensures { spec.fault_text result ≡ spec.source_text kind }
{
    match kind {
        ErrorKind::OutOfMemory => ScratchFault::OutOfMemory,
        _ => ScratchFault::Source(UNREAD),
    }
}

// Why copying stopped, by the kind of the error of a read or a write: it doesn't say which of them failed.
fn copy_fault(kind: ErrorKind) -> ScratchFault
    ensures { spec.fault_text result ≡ spec.copy_text kind }
{
    match kind {
        ErrorKind::OutOfMemory => ScratchFault::OutOfMemory,
        ErrorKind::StorageFull | ErrorKind::QuotaExceeded => ScratchFault::ScratchCopy(
            "a full disk",
        ),
        _ => ScratchFault::ScratchCopy("it can't be written, or what it is made of can't be read"),
    }
}
