//! Reports why a database can't be opened, before a command ends for it.

ghost use Rattle.std.specs.Prelude.{◌≡◌, OnOk};
ghost use Rattle.desk_program.specs.Keeping.{bytes_written};
ghost use Rattle.host_files.specs.Naming.{Reports};

use desk_admin::causes::{report_database, report_made};
use desk_admin::unopened::FileOpenError;
use desk_cli::Database;
use host_files::files::LocalHost;
use sqlite::Start;
use std::io::Write;

/// Reports to `errors` why the files of a database can't be opened, if `opened` is an error: for a command
/// that makes a missing file (`is_made`), or for one that needs the file to exist. A failed write and running
/// out of memory are ignored.
#[tactic(auto, using(host_files::proofs::lemmas::Reporting::reports_nothing))]
pub fn report_refusal<T, F: Start, E: Write>(
    host: LocalHost<'_>,
    database: &Database,
    is_made: bool,
    opened: &Result<T, FileOpenError<F>>,
    errors: &mut E,
)
    ensures reports { Reports (bytes_written E.Write errors.old errors.new) }
    ensures silent { OnOk opened.now (E.contents errors.new ≡ E.contents errors.old) }
{
    match opened {
        Ok(_) => {}
        Err(unread) if is_made => report_made(host, database, unread.failure, errors),
        Err(unread) => report_database(host, database, unread.failure, errors),
    }
}
