//! The commands and their arguments as tables, from which `clap` makes the help and parses a command line.

ghost use Rattle.std.specs.Prelude.{◌≡◌, IfOk, map};
ghost use Rattle.clap.specs.{Simple.app_of, Simple.shape_of, Walk.rule_of};
ghost use Rattle.desk_cli.specs.{Malformed.bare_rule, Malformed.rule_of_row, Malformed.shape_of_form};
ghost use Rattle.desk_cli.specs.Grammar as spec;

use crate::line::MAX_CONNECTIONS;
use clap::builder::ValueParser;
use clap::{Arg, ArgAction, Command};
use desk_rules::terms::{MAX_SPANS, MAX_TOTAL_CELLS};
use std::alloc::{AllocError, Global};
use volume4d::MAX_SECOND;

// The program's version, and the first digits of a checksum: that of the logic in which the program is
// proved.
const VERSION: &str = "2.0.0\nRattle logic dac8208d650f15bf";

// A command: its name, what it does, and its arguments.
struct Form {
    name: &'static str,
    about: &'static str,
    words: &'static [ArgRow],
}

// An argument of a command.
#[derive(Clone, Copy)]
struct ArgRow {
    // The name by which its value is read back.
    id: &'static str,
    // The name of `--NAME VALUE`; an argument without one is read by its place.
    long: Option<&'static str>,
    // What help calls its value, if it has one.
    value: Option<&'static str>,
    help: &'static str,
    is_required: bool,
    kind: ArgKind,
}

// What the value of an argument is.
#[derive(Clone, Copy)]
enum ArgKind {
    Text,
    // Any number of texts, one for each use.
    Texts,
    // A number from the least, which comes first, to the greatest.
    Number(i64, i64),
    // No value: only whether the argument is given.
    Flag,
}

// An optional argument whose value is a text. The rows below say in what they differ from it.
const OPTIONAL_TEXT: ArgRow = ArgRow {
    id: "",
    long: None,
    value: None,
    help: "",
    is_required: false,
    kind: ArgKind::Text,
};

// A required number of 8 bits.
const SMALL: ArgRow = ArgRow {
    is_required: true,
    kind: ArgKind::Number(0, u8::MAX as i64),
    ..OPTIONAL_TEXT
};

// A required number of 32 bits.
const COORDINATE: ArgRow = ArgRow {
    is_required: true,
    kind: ArgKind::Number(0, u32::MAX as i64),
    ..OPTIONAL_TEXT
};

const DATABASE: ArgRow = ArgRow {
    id: "database",
    long: Some("db"),
    value: Some("FILE"),
    help: "The SQLite database of operators and plans, or :memory: for one in memory",
    ..OPTIONAL_TEXT
};

const NEW_FILE: ArgRow = ArgRow {
    id: "to",
    long: Some("to"),
    value: Some("NEW"),
    help: "The new file, where there is none yet",
    is_required: true,
    ..OPTIONAL_TEXT
};

const MOMENT: ArgRow = ArgRow {
    id: "moment",
    long: Some("at"),
    value: Some("SECOND"),
    help: "The moment of all requests, a Unix second",
    is_required: true,
    kind: ArgKind::Number(0, MAX_SECOND),
    ..OPTIONAL_TEXT
};

const PORT: ArgRow = ArgRow {
    id: "port",
    long: Some("port"),
    value: Some("N"),
    help: "The port of 127.0.0.1 that is listened at",
    is_required: true,
    kind: ArgKind::Number(1, u16::MAX as i64),
    ..OPTIONAL_TEXT
};

const CONNECTIONS: ArgRow = ArgRow {
    id: "connections",
    long: Some("requests"),
    value: Some("N"),
    help: "How many connections are served, one request each",
    is_required: true,
    kind: ArgKind::Number(1, MAX_CONNECTIONS as i64),
    ..OPTIONAL_TEXT
};

const EQUAL: ArgRow = ArgRow {
    id: "equal",
    long: Some("equal"),
    value: Some("LIST"),
    help: "Priorities at which plans of equal priority may overlap, ascending, with commas between",
    ..OPTIONAL_TEXT
};

const SPANS: ArgRow = ArgRow {
    id: "spans",
    long: Some("spans"),
    value: Some("N"),
    help: "The most spans that the live plans of an operator may have",
    kind: ArgKind::Number(1, MAX_SPANS as i64),
    ..OPTIONAL_TEXT
};

const CELLS: ArgRow = ArgRow {
    id: "cells",
    long: Some("cells"),
    value: Some("N"),
    help: "The most cells that the plans of an operator may have, closed ones too",
    kind: ArgKind::Number(1, MAX_TOTAL_CELLS as i64),
    ..OPTIONAL_TEXT
};

const OPERATORS: ArgRow = ArgRow {
    id: "operators",
    long: Some("operators"),
    value: Some("FILE"),
    help: "A file of lines NAME CEILING, read again when it has changed",
    ..OPTIONAL_TEXT
};

const RECORD: ArgRow = ArgRow {
    id: "record",
    long: Some("record"),
    value: Some("FOLDER"),
    help: "A folder in which each request and its answer are recorded",
    ..OPTIONAL_TEXT
};

const UNTIL: ArgRow = ArgRow {
    id: "until",
    long: Some("until"),
    value: Some("SECOND"),
    help: "The last Unix second whose requests are played",
    kind: ArgKind::Number(0, MAX_SECOND),
    ..OPTIONAL_TEXT
};

const ENROLMENTS: ArgRow = ArgRow {
    id: "enrolments",
    value: Some("NAME=CEILING"),
    help: "An operator, and the greatest priority that it may use",
    kind: ArgKind::Texts,
    ..OPTIONAL_TEXT
};

const TOKEN: ArgRow = ArgRow {
    id: "token",
    value: Some("TOKEN"),
    help: "A cell of the S2 geometry library, 1 to 16 hex digits",
    is_required: true,
    ..OPTIONAL_TEXT
};

const FACE: ArgRow = ArgRow {
    id: "FACE",
    value: Some("FACE"),
    help: "The face, 0 to 5",
    ..SMALL
};

const I_MIN: ArgRow = ArgRow {
    id: "I_MIN",
    value: Some("I_MIN"),
    help: "The least coordinate i of a leaf",
    ..COORDINATE
};

const I_MAX: ArgRow = ArgRow {
    id: "I_MAX",
    value: Some("I_MAX"),
    help: "The greatest coordinate i",
    ..COORDINATE
};

const J_MIN: ArgRow = ArgRow {
    id: "J_MIN",
    value: Some("J_MIN"),
    help: "The least coordinate j",
    ..COORDINATE
};

const J_MAX: ArgRow = ArgRow {
    id: "J_MAX",
    value: Some("J_MAX"),
    help: "The greatest coordinate j",
    ..COORDINATE
};

const LEVEL: ArgRow = ArgRow {
    id: "LEVEL",
    value: Some("LEVEL"),
    help: "The level, 8 to 24",
    ..SMALL
};

const PICTURE: ArgRow = ArgRow {
    id: "picture",
    long: Some("svg"),
    help: "Prints a picture (SVG) in place of the tokens",
    kind: ArgKind::Flag,
    ..OPTIONAL_TEXT
};

const NAME: ArgRow = ArgRow {
    id: "NAME",
    value: Some("NAME"),
    help: "The operator's name",
    is_required: true,
    ..OPTIONAL_TEXT
};

const CEILING: ArgRow = ArgRow {
    id: "CEILING",
    value: Some("CEILING"),
    help: "The greatest priority that it may use",
    is_required: true,
    ..OPTIONAL_TEXT
};

// The database, where it is required.
const GIVEN_DATABASE: ArgRow = ArgRow {
    is_required: true,
    ..DATABASE
};

static FORMS: [Form; 9] = [
    Form {
        name: "play",
        about: "Answers the requests of the standard input",
        words: &[DATABASE, MOMENT, EQUAL, SPANS, CELLS, RECORD, ENROLMENTS],
    },
    Form {
        name: "token",
        about: "Tells a cell's face, its level, and its first and last leaf",
        words: &[TOKEN],
    },
    Form {
        name: "serve",
        about: "Answers one request a connection, at the moment that the clock tells",
        words: &[
            DATABASE,
            PORT,
            CONNECTIONS,
            EQUAL,
            SPANS,
            CELLS,
            OPERATORS,
            RECORD,
            ENROLMENTS,
        ],
    },
    Form {
        name: "cover",
        about: "Tells the cells of a rectangle of leaves, widened to whole squares of the level",
        words: &[FACE, I_MIN, I_MAX, J_MIN, J_MAX, LEVEL, PICTURE],
    },
    Form {
        name: "enrol",
        about: "Enrols an operator in a database, or replaces its ceiling",
        words: &[GIVEN_DATABASE, RECORD, NAME, CEILING],
    },
    Form {
        name: "migrate",
        about: "Moves the plans of a database of schema 1 to schema 2",
        words: &[GIVEN_DATABASE],
    },
    Form {
        name: "check",
        about: "Tells what a database holds, and changes nothing in it",
        words: &[GIVEN_DATABASE],
    },
    Form {
        name: "copy",
        about: "Makes a new file of what a database holds, in schema 2",
        words: &[GIVEN_DATABASE, NEW_FILE],
    },
    Form {
        name: "replay",
        about: "Plays the record of the standard input, and compares each answer with its own",
        words: &[GIVEN_DATABASE, UNTIL],
    },
];

/// Describes the program to `clap`: its name, its help, its version, and all commands with their arguments.
/// An error if memory runs out.
pub fn make_command<'a>(alloc: Global) -> Result<Command<'a>, AllocError>
    ensures { IfOk result (λ command. app_of command ≡ spec.program) }
{
    add_subcommands(alloc, &FORMS)
}

// Describes the program to `clap`, with one command for each of `forms`, in their order. An error if memory
// runs out.
fn add_subcommands<'a>(alloc: Global, forms: &'static [Form]) -> Result<Command<'a>, AllocError>
    ensures { IfOk result (λ command.
        app_of command ≡ spec.with_lines (map shape_of_form forms.now)) }
{
    let mut command = bare_command(alloc);
    for form in forms {
        command = command.subcommand(make_subcommand(alloc, form)?)?;
    }
    Ok(command)
}

// Describes the program to `clap`, still without its commands: its name, its help and its version. A command
// line without a command is to be refused.
fn bare_command<'a>(alloc: Global) -> Command<'a>
    ensures { app_of result ≡ spec.bare_program }
{
    Command::new(alloc, "uss_desk")
        .about("The planning desk of one UAS service supplier")
        .version(VERSION)
        .subcommand_required(true)
}

// Describes the command of `form` to `clap`, with its arguments. An error if memory runs out.
fn make_subcommand<'a>(alloc: Global, form: &'static Form) -> Result<Command<'a>, AllocError>
    ensures { IfOk result (λ command. shape_of command ≡ shape_of_form form.now) }
{
    let mut command = Command::new(alloc, form.name).about(form.about);
    for word in form.words {
        command = command.arg(make_arg(alloc, word))?;
    }
    Ok(command)
}

// Describes the argument of `row` to `clap`.
fn make_arg<'a>(alloc: Global, row: &ArgRow) -> Arg<'a>
    ensures { rule_of result ≡ rule_of_row row.now }
{
    let arg = bare_arg(alloc, row);
    match row.kind {
        ArgKind::Text => arg,
        ArgKind::Texts => arg.action(ArgAction::Append),
        ArgKind::Number(least, most) => arg.value_parser(ValueParser::signed(least, most)),
        ArgKind::Flag => arg.action(ArgAction::SetTrue),
    }
}

// Describes the argument of `row` to `clap`, still without the kind of its value (`row.kind`).
fn bare_arg<'a>(alloc: Global, row: &ArgRow) -> Arg<'a>
    ensures { rule_of result ≡ bare_rule row.now }
{
    let arg = Arg::new(alloc, row.id)
        .help(row.help)
        .required(row.is_required);
    let arg = match row.value {
        Some(value) => arg.value_name(value),
        None => arg,
    };
    match row.long {
        Some(long) => arg.long(long),
        None => arg,
    }
}
