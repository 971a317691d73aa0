//! Lines of the program, carried out at a desk of the caller's, and the words that it prints.

ghost use Rattle.std.specs.Prelude.{◌≡◌, ◌≤◌, IsTrue};
ghost use Rattle.desk_rules.specs.Limits.{max_priority};
ghost use Rattle.desk_store.specs.Changes.{IsHonest};
ghost use Rattle.desk_run.specs.Verdicts.{enrolled, world_of};
ghost use Rattle.table_load.specs.OpeningSteps as spec;

use desk_cli::{Database, DeskArgs, EnrolArgs, Enrolment, Line};
use desk_program::with_desk;
use desk_rules::operator::Operator;
use desk_rules::terms::Terms;
use desk_run::Desk;
use desk_store::PlanStore;
use desk_tables::{FilesFault, open_word};
use sqlite_disk::Disk;
use std::alloc::Global;
use std::io::Write;

/// Enrols an operator as the program's `enrol` does, and reports whether that ended with status 0: then the
/// operator is listed.
pub fn enrol_as_reported<S: PlanStore, W: Write, E: Write>(
    alloc: Global,
    desk: &mut Desk<S>,
    operator: Operator,
    ceiling: u32,
    output: &mut W,
    errors: &mut E,
) -> bool
    requires { ceiling ≤ max_priority }
    ensures { IsHonest (S.doubt desk.new.store) → IsTrue result →
        world_of S.content desk.new ≡ enrolled (world_of S.content desk.old) operator ceiling }
{
    let line = Line::Enrol(EnrolArgs {
        desk: DeskArgs {
            database: Database::InMemory,
            terms: Terms::none(),
            enrolments: Vec::new(alloc),
            operators: None,
            folder: None,
        },
        enrolment: Enrolment { operator, ceiling },
    });
    let mut input = b"".as_slice();
    with_desk(alloc, &line, desk, &mut input, output, errors) == 0
}

/// The word that the program prints of files that were refused.
pub fn word_of_refusal<D: Disk>(refused: &FilesFault<D>) -> &'static str
    ensures { result.now ≡ spec.open_word refused.now.fault }
{
    open_word(&refused.fault)
}
