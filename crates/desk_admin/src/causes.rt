//! Reports to the administrator why a database can't be opened. The contracts of the reports say only that
//! text, perhaps none, is appended to `errors`; they don't say which.

ghost use Rattle.std.specs.Prelude.{◌≡◌, IfErr, IfOk, None};
ghost use Rattle.desk_program.specs.Keeping.{bytes_written};
ghost use Rattle.host_files.specs.Naming.{Reports};
ghost use Rattle.desk_admin.specs.FilesReported as spec;
ghost use Rattle.desk_admin.specs.FilesReported.{IsNoDeskText};

use db_file::order_text;
use desk_cli::{Database, ErrorCode};
use desk_host::ways::{ReadMode, read_mode};
use desk_tables::{InvalidPart, Named, NotOpened, part_at};
use host_files::access::report_refused_file;
use host_files::files::LocalHost;
use host_files::probing::probe;
use host_files::reporting::report_text;
use sqlite::Unknown;
use sqlite_disk::Disk;
use std::io::Write;

/// Reports to `errors` why a database can't be opened (`failure`), for a command that makes a missing file: a
/// missing file is no cause then. A failed write and running out of memory are ignored.
#[tactic(auto, using(host_files::proofs::lemmas::Reporting::reports_nothing))]
pub fn report_made<E: Write>(
    host: LocalHost<'_>,
    database: &Database,
    failure: ErrorCode,
    errors: &mut E,
)
    ensures { Reports (bytes_written E.Write errors.old errors.new) }
{
    match (database, failure) {
        (Database::File(path), ErrorCode::Store) => {
            report_refused_file(host, path, path, probe(host, path, true), errors);
        }
        _ => report_database(host, database, failure, errors),
    }
}

/// Reports to `errors` why a database can't be opened (`failure`), for a command that needs its file to
/// exist. Nothing is reported of a database in memory. A failed write and running out of memory are ignored.
#[tactic(auto, using(host_files::proofs::lemmas::Reporting::reports_nothing))]
pub fn report_database<E: Write>(
    host: LocalHost<'_>,
    database: &Database,
    failure: ErrorCode,
    errors: &mut E,
)
    ensures { Reports (bytes_written E.Write errors.old errors.new) }
{
    match database {
        Database::File(path) => report_cause(host, path, path, failure, errors),
        Database::InMemory => {}
    }
}

/// Reports to `errors` why the file at `path` can't be opened: `uss_desk: NAME: CAUSE`, with the given
/// `name`. Of the error codes (`failure`), only `Store`, `NotADesk` and `OldSchema` have a cause to report. A
/// failed write and running out of memory are ignored.
#[tactic(auto, using(host_files::proofs::lemmas::Reporting::reports_nothing))]
pub fn report_cause<E: Write>(
    host: LocalHost<'_>,
    path: &str,
    name: &str,
    failure: ErrorCode,
    errors: &mut E,
)
    ensures { Reports (bytes_written E.Write errors.old errors.new) }
{
    let cause = match failure {
        ErrorCode::Store => return report_refused_file(
            host,
            path,
            name,
            probe(host, path, false),
            errors,
        ),
        ErrorCode::NotADesk => desk_cause(host, path),
        ErrorCode::OldSchema => "rows of schema 1: migrate it",
        _ => return,
    };
    report_text(host.alloc(), name, cause, errors);
}

// Why the file at `path` is no valid database. It is read once more, to learn whether its tables are in
// another order than a desk's, or which part of it is invalid. The contract says only that the text is one of
// those for such a file.
fn desk_cause(host: LocalHost<'_>, path: &str) -> &'static str
    ensures { IsNoDeskText result.now }
{
    if read_mode(host, path, false) == ReadMode::OtherOrder {
        return order_text();
    }
    named_cause(part_of(&part_at(host.rt, path, Unknown)))
}

// The invalid part that was found in a file, by the result of `part_at` (`named`); `None` if none was found
// or the file couldn't be opened.
fn part_of<D: Disk>(named: &Result<Named<D>, NotOpened<D>>) -> Option<InvalidPart>
    ensures named { IfOk named.now (λ it. result ≡ it.part) }
    ensures none { IfErr named.now (λ _. result ≡ None) }
{
    match named {
        Ok(named) => named.part(),
        Err(_) => None,
    }
}

// Why a file is no valid database, in words that name the table, by the invalid part that was found
// (`found`). If none was found, the words list what may be wrong. Rows "of no content" are rows that no desk
// writes.
fn named_cause(found: Option<InvalidPart>) -> &'static str
    ensures { result.now ≡ spec.named_text found }
{
    let Some(part) = found else {
        return "no table, other tables than a desk's, or rows of no content";
    };
    match part {
        InvalidPart::NoTable => "no table",
        InvalidPart::OtherTables => "other tables than a desk's",
        InvalidPart::BothSchemas => "rows of schema 1 beside rows of schema 2",
        InvalidPart::Operator => "rows of no content in operator",
        InvalidPart::Plan => "rows of no content in plan",
        InvalidPart::Plans => "plans of no operator, or too many of one, in plan",
        InvalidPart::Volume => "rows of no content in volume2",
        InvalidPart::Cover => "covers of no content in volume2",
        InvalidPart::Span => "rows of no content in span2",
        InvalidPart::OldVolume => "rows of no content in volume",
        InvalidPart::OldSpan => "rows of no content in span",
        InvalidPart::OldPlan => "plans beyond the limits of schema 1 in volume",
    }
}
