//! Scratch copies: a command reads such a copy in place of the file itself, and removes it afterwards.

ghost use Rattle.std.specs.Prelude.{◌≡◌, IfErr, IfOk, List, OnOk, ℕ};
ghost use Rattle.desk_cli.specs.Exits.{IsLineBreakdown};
ghost use Rattle.desk_program.specs.Keeping.{bytes_written};
ghost use Rattle.host_files.specs.{Naming.Follows, Naming.Reports, Paths.steps_of};
ghost use Rattle.desk_host.specs.FoundLogs.{AreRemoved, AreScratchPaths, IsNotCopied, make_steps, scratch_of};

use desk_cli::ErrorCode;
use host_files::naming::{Folder, name_with};
use host_files::pairs::ScratchFault;
use host_files::reporting::report_text;
use std::alloc::{AllocError, Global};
use std::io::Write;

/// The paths of a scratch copy and of its WAL.
#[derive(Drop)]
pub struct ScratchCopy {
    /// The path of the scratch copy.
    pub path: String,
    /// The path of its WAL.
    pub log: String,
}

impl ScratchCopy {
    // The paths of the scratch copy beside the file at a path, and of its WAL.
    fn beside(alloc: Global, path: &str) -> Result<ScratchCopy, AllocError>
        ensures { IfOk result (AreScratchPaths path.now) }
    {
        let scratch = name_with(alloc, path, ".twin")?;
        Ok(ScratchCopy {
            log: name_with(alloc, &scratch, "-wal")?,
            path: scratch,
        })
    }
}

/// Makes the scratch copy of `source`, beside the path `beside`. It is repaired if `is_mended`, else made
/// byte for byte, and replaces one that an interrupted command left. If that fails, what was made is
/// removed, and the cause is reported on `errors`, unless memory ran out.
///
/// # Errors
///
/// `Memory` if memory runs out; else `Store`.
pub fn make_scratch<P: Folder, E: Write>(
    alloc: Global,
    folder: &mut P,
    source: &str,
    beside: &str,
    is_mended: bool,
    errors: &mut E,
) -> Result<ScratchCopy, ErrorCode>
    ensures made { IfOk result (λ scratch. AreScratchPaths beside.now scratch × Follows
        (steps_of P.Folder folder.old folder.new) (make_steps source.now (scratch_of beside.now) is_mended)) }
    ensures unmade { IfErr result (IsNotCopied (scratch_of beside.now)
        (steps_of P.Folder folder.old folder.new)) }
    ensures failure { IfErr result IsLineBreakdown }
    ensures quiet { OnOk result (E.contents errors.new ≡ E.contents errors.old) }
    ensures reported { Reports (bytes_written E.Write errors.old errors.new) }
{
    let scratch = ScratchCopy::beside(alloc, beside)?;
    if let Some(cause) = folder.clear(source, &scratch.path, &scratch.log) {
        report_text(alloc, &scratch.path, cause, errors);
        return Err(ErrorCode::Store);
    }
    match folder.scratch(source, &scratch.path, is_mended) {
        None => Ok(scratch),
        Some(fault) => {
            remove_scratch(folder, &scratch);
            Err(report_fault(alloc, source, &scratch.path, fault, errors))
        }
    }
}

// Reports to `errors` why the scratch copy of `source` at the path `scratch` can't be made, and returns the
// error code: `Memory` if memory ran out, which isn't reported; else `Store`.
fn report_fault<E: Write>(
    alloc: Global,
    source: &str,
    scratch: &str,
    fault: ScratchFault,
    errors: &mut E,
) -> ErrorCode
    ensures failure { IsLineBreakdown result }
    ensures reported { Reports (bytes_written E.Write errors.old errors.new) }
{
    match fault {
        ScratchFault::OutOfMemory => return ErrorCode::Memory,
        ScratchFault::Source(cause) => report_text(alloc, source, cause, errors),
        ScratchFault::ScratchCopy(cause) => report_text(alloc, scratch, cause, errors),
    }
    ErrorCode::Store
}

/// Removes a scratch copy and its WAL. Errors are ignored, since either may be missing.
pub fn remove_scratch<P: Folder>(folder: &mut P, scratch: &ScratchCopy)
    ensures { (path : List ℕ) → AreScratchPaths path scratch.now
        → AreRemoved (scratch_of path) (steps_of P.Folder folder.old folder.new) }
{
    folder.remove(&scratch.path);
    folder.remove(&scratch.log);
}
