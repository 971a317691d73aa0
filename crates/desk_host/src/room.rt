//! Checks that a new file can be made: nothing exists at its names, and its folder can be written.

ghost use Rattle.std.specs.Prelude.{OnErr, OnOk, List, is_ok, ℕ};
ghost use Rattle.host_files.specs.Naming.{AreNames, Cleared, Follows, Free, IsNotFree, Takes, Tried, free_steps};
ghost use Rattle.host_files.specs.Paths.{steps_of};

use host_files::access::new_cause;
use host_files::naming::{Folder, NewFile};

/// Why a new file can't be made.
#[derive(Clone, Copy, Debug, PartialEq, Eq)]
pub struct Taken<'n> {
    /// The path at which it can't be made.
    pub path: &'n str,
    /// Why it can't be made there.
    pub cause: &'static str,
}

/// Checks that a new file can be made, and that nothing exists at its final and temporary names, `names`.
/// What an interrupted copy left at the temporary names is removed first, but never the file to be copied,
/// `source`.
///
/// # Errors
///
/// The first path at which something prevents the new file, and what.
pub fn make_room<'n, P: Folder>(
    folder: &mut P,
    source: &str,
    names: &'n NewFile,
) -> Result<(), Taken<'n>>
    ensures free { (to : List ℕ) → AreNames to names.now
        → OnOk result (Follows (steps_of P.Folder folder.old folder.new) (free_steps to)) }
    ensures taken { (to : List ℕ) → AreNames to names.now
        → OnErr result (IsNotFree to (steps_of P.Folder folder.old folder.new)) }
{
    check_free(folder, &names.to)?;
    check_free(folder, &names.to_log)?;
    clear_part(folder, source, &names.part, &names.part_log)?;
    check_free(folder, &names.part)?;
    check_free(folder, &names.part_log)?;
    check_writable(folder, &names.part)
}

// Checks that nothing exists at a path, and that SQLite reads it as a path.
fn check_free<'n, P: Folder>(folder: &mut P, path: &'n str) -> Result<(), Taken<'n>>
    ensures { Takes (steps_of P.Folder folder.old folder.new) (is_ok result) (Free path.now) }
{
    match new_cause(folder, path) {
        None => Ok(()),
        Some(cause) => Err(Taken { path, cause }),
    }
}

// Removes the file `part` and its WAL `log`, which an interrupted copy may have left under temporary names.
// If that fails, the error names `part`. The file `source` is never removed.
fn clear_part<'n, P: Folder>(
    folder: &mut P,
    source: &str,
    part: &'n str,
    log: &str,
) -> Result<(), Taken<'n>>
    ensures { Takes (steps_of P.Folder folder.old folder.new) (is_ok result)
        (Cleared part.now log.now) }
{
    match folder.clear(source, part, log) {
        None => Ok(()),
        Some(cause) => Err(Taken { path: part, cause }),
    }
}

// Checks that a file can be made at a path. It is removed again.
fn check_writable<'n, P: Folder>(folder: &mut P, path: &'n str) -> Result<(), Taken<'n>>
    ensures { Takes (steps_of P.Folder folder.old folder.new) (is_ok result) (Tried path.now) }
{
    match folder.try_file(path) {
        None => Ok(()),
        Some(cause) => Err(Taken { path, cause }),
    }
}
