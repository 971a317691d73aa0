//! The command line of the program, parsed into one command with its arguments.
//!
//! A desk decides requests to plan flights, against the plans in its database. It does so for the operators
//! that are enrolled there. An operator's ceiling is the greatest priority that it may use.
//!
//! The functions `read_..` read arguments from `given`, which has those that `clap` found in the command
//! line. `clap` has checked them against the tables of the module `command`. The error `OutOfMemory` says
//! that memory ran out.

ghost use Rattle.std.specs.Prelude.{◌≡◌, ◌≤◌, ◌<◌, ◌^◌, ℕ, Option, ℤ, List, IfErr, IfOk, IfSome, None, Some, map, option_map, codes, string_bytes};
ghost use Rattle.std.specs.Int.{IsInRange};
ghost use mir.Syntax.{w64};
ghost use mir.Val.{SFits};
ghost use Rattle.clap.specs.{Matches.found_of, Simple.subcommand_of, Simple.subcommand_rows_of, Walk.first_of, Walk.rows_of};
ghost use Rattle.desk_rules.specs.Limits.{max_priority};
ghost use Rattle.io_ends.specs.Writing.{IsMoment};
ghost use Rattle.desk_cli.specs.Lines.{SameDesk, SameLine, AreEnrolments, IsCover, IsEnrol, IsMomentIfGiven, IsLine, IsPlay, IsReplay, IsServe, desk_of, file_of, max_connections, max_port, min_connections, min_port};
ghost use Rattle.desk_cli.specs.Grammar.{ArePermittedBy, AreEnrolmentsGiven, AreTermsOf, AreWordsRefused, HasGiven, IsBareDeskGiven, IsCopyGiven, IsCoverGiven, IsDeskGiven, IsEnrolGiven, IsGiven, IsLineOf, IsLimitGiven, IsNumberGiven, IsNumberOrNone, IsPlayGiven, IsReplayGiven, IsIntegerGiven, IsServeGiven, IsTextGiven, IsRefusedByClap, RefusesOnlyWithout, enrolment_given, enrolment_in, file_given, name_of, program};
ghost use Rattle.desk_cli.specs.Grammar as spec;
ghost use Rattle.desk_cli.specs.declared.line.CoverArgs.{CoverArgs};
ghost use Rattle.desk_cli.specs.declared.line.WordsFault.TheVariants as fault;

use crate::command::make_command;
use crate::equal::{parse_permitted_option, parse_priority};
use clap::ArgMatches;
use clap::error::ErrorKind;
use desk_rules::operator::Operator;
use desk_rules::permission::Permitted;
use desk_rules::terms::{MAX_SPANS, MAX_TOTAL_CELLS, Terms};
use io_ends::Moment;
use std::alloc::{AllocError, AllocFailed, Global};
use volume4d::MAX_SECOND;

/// The argument that names a database in memory.
const IN_MEMORY: &str = ":memory:";

/// The maximum number of connections that `serve` accepts.
pub(crate) const MAX_CONNECTIONS: u32 = 1_000_000;

/// A parsed command line: one command with its arguments.
#[derive(Debug, Drop)]
pub enum Line {
    /// `token`: reports the cell of this text.
    Token(String),
    /// `cover`: reports the cells of a rectangle.
    Cover(CoverArgs),
    /// `play`: enrols the names, and answers the requests of the standard input.
    Play(PlayArgs),
    /// `serve`: enrols the names, and answers one request a connection.
    Serve(ServeArgs),
    /// `enrol`: enrols one operator.
    Enrol(EnrolArgs),
    /// `check`: reports what a database holds.
    Check(Database),
    /// `copy`: makes a new file of what a database holds.
    Copy(CopyArgs),
    /// `migrate`: migrates a database of schema 1 to schema 2.
    Migrate(Database),
    /// `replay`: replays the journal from the standard input, and compares each answer with the recorded one.
    Replay(ReplayArgs),
}

impl Line {
    /// A copy of this command line, with the same arguments.
    ///
    /// # Errors
    ///
    /// `AllocError` if memory runs out.
    pub fn copy(&self) -> Result<Line, AllocError>
        ensures { IfOk result (SameLine self.now) }
    {
        Ok(match self {
            Line::Token(text) => Line::Token(text.clone()?),
            Line::Cover(cover) => Line::Cover(*cover),
            Line::Play(play) => Line::Play(PlayArgs {
                desk: play.desk.copy()?,
                moment: play.moment,
            }),
            Line::Serve(serve) => Line::Serve(ServeArgs {
                desk: serve.desk.copy()?,
                port: serve.port,
                connections: serve.connections,
            }),
            Line::Enrol(enrol) => Line::Enrol(EnrolArgs {
                desk: enrol.desk.copy()?,
                enrolment: enrol.enrolment,
            }),
            Line::Check(database) => Line::Check(database.clone()?),
            Line::Copy(copy) => Line::Copy(CopyArgs {
                database: copy.database.clone()?,
                to: copy.to.clone()?,
            }),
            Line::Migrate(database) => Line::Migrate(database.clone()?),
            Line::Replay(replay) => Line::Replay(ReplayArgs {
                database: replay.database.clone()?,
                until: replay.until,
            }),
        })
    }
}

/// A command that works at an open desk, with its arguments.
#[derive(Clone, Copy)]
pub enum DeskCommand<'a> {
    /// Answers the requests of the standard input.
    Play(&'a PlayArgs),
    /// Answers one request a connection.
    Serve(&'a ServeArgs),
    /// Enrols one operator.
    Enrol(&'a EnrolArgs),
}

impl<'a> DeskCommand<'a> {
    /// The arguments that say which desk the command opens, with its settings and enrolments.
    pub fn desk(self) -> &'a DeskArgs
        ensures { result.now ≡ desk_of self.entry }
    {
        match self {
            DeskCommand::Play(play) => &play.desk,
            DeskCommand::Serve(serve) => &serve.desk,
            DeskCommand::Enrol(enrol) => &enrol.desk,
        }
    }
}

/// Where operators and plans are stored.
#[derive(Clone, Debug, Drop)]
pub enum Database {
    /// In memory: they are lost when the program ends.
    InMemory,
    /// In the SQLite database of this path.
    File(String),
}

impl Database {
    /// The path of the database's file. None if the database is in memory.
    pub fn path(&self) -> Option<&str>
        ensures { option_map (λ path. path.now) result ≡ file_of self.now }
    {
        match self {
            Database::InMemory => None,
            Database::File(path) => Some(path),
        }
    }
}

/// Which desk a command opens, and its settings.
#[derive(Clone, Debug, Drop)]
pub struct DeskArgs {
    /// Where operators and plans are stored.
    pub database: Database,
    /// The settings of the desk: the permitted priorities, and the limits on the spans of an operator's live
    /// plans and on the cells of all its plans, 1 to 5,000,000 each. `enrol` has none.
    pub terms: Terms,
    /// The operators to be enrolled, in the order given; a name may occur twice. `enrol` has none.
    pub enrolments: Vec<Enrolment>,
    /// The path of the file of enrolments that the administrator changes while the desk serves, if there
    /// is one. `serve` alone has one.
    pub operators: Option<String>,
    /// The path of the folder in which each request and its answer are recorded, if there is one.
    pub folder: Option<String>,
}

impl DeskArgs {
    /// A copy of these arguments, with equal values.
    ///
    /// # Errors
    ///
    /// `AllocError` if memory runs out.
    pub fn copy(&self) -> Result<DeskArgs, AllocError>
        ensures { IfOk result (SameDesk self.now) }
    {
        self.clone()
    }
}

/// The arguments of `play`.
#[derive(Debug, Drop)]
pub struct PlayArgs {
    /// The desk that is opened.
    pub desk: DeskArgs,
    /// The moment of all requests.
    pub moment: Moment,
}

/// The arguments of `serve`.
#[derive(Debug, Drop)]
pub struct ServeArgs {
    /// The desk that is opened.
    pub desk: DeskArgs,
    /// The port of 127.0.0.1 that is listened at, 1 to 65,535.
    pub port: u16,
    /// How many connections are served, 1 to 1,000,000.
    pub connections: u32,
}

/// The arguments of `enrol`.
#[derive(Debug, Drop)]
pub struct EnrolArgs {
    /// The desk at which the operator is enrolled.
    pub desk: DeskArgs,
    /// The operator and its ceiling.
    pub enrolment: Enrolment,
}

/// The arguments of `cover`: the parts of a rectangle of leaves, not checked yet.
#[derive(Clone, Copy, Debug)]
pub struct CoverArgs {
    /// The face, 0 to 5.
    pub face: u8,
    /// The least coordinate `i` of a leaf.
    pub i_min: u32,
    /// The greatest coordinate `i`.
    pub i_max: u32,
    /// The least coordinate `j`.
    pub j_min: u32,
    /// The greatest coordinate `j`.
    pub j_max: u32,
    /// The level of the squares, 8 to 24.
    pub level: u8,
    /// Whether a picture is printed in place of the tokens.
    pub is_picture: bool,
}

/// The arguments of `copy`.
#[derive(Debug, Drop)]
pub struct CopyArgs {
    /// The database that is copied.
    pub database: Database,
    /// The path of the new file.
    pub to: String,
}

/// The arguments of `replay`.
#[derive(Debug, Drop)]
pub struct ReplayArgs {
    /// Where operators and plans are stored.
    pub database: Database,
    /// The last Unix second whose requests are replayed, 0 to 253,370,764,800. None if all are.
    pub until: Option<u64>,
}

/// An operator to be enrolled, `NAME=CEILING`.
#[derive(Clone, Copy, Debug)]
pub struct Enrolment {
    /// Its name.
    pub operator: Operator,
    /// The greatest priority that it may use, at most 1,000.
    pub ceiling: u32,
}

/// Why a command line is refused.
#[derive(Debug, Drop)]
pub enum WordsFault {
    /// Memory ran out.
    OutOfMemory,
    /// Help was requested, or `clap` refuses the arguments.
    Words(clap::Error),
    /// A name, a ceiling or a `NAME=CEILING` is malformed, or the ceiling is above 1,000; or a list of equal
    /// priorities is malformed or can't be permitted.
    Value,
}

impl From<AllocError> for WordsFault {
    ghost from_gives = { λ _ f. f ≡ fault.OutOfMemory };

    // A failed allocation means that memory ran out.
    fn from(_error: AllocError) -> WordsFault {
        WordsFault::OutOfMemory
    }
}

impl<T: Drop> From<AllocFailed<T>> for WordsFault {
    ghost from_gives = { λ _ f. f ≡ fault.OutOfMemory };

    // A failed allocation means that memory ran out.
    fn from(_error: AllocFailed<T>) -> WordsFault {
        WordsFault::OutOfMemory
    }
}

impl From<clap::Error> for WordsFault {
    ghost use Rattle.std.specs.Prelude.{◌≡◌, ◌≢◌, ◌⊎◌};
    ghost use Rattle.clap.specs.Values.{kind_of};
    ghost use Rattle.clap.specs.declared.error.kind.ErrorKind.TheVariants as kind;
    ghost use Rattle.desk_cli.specs.declared.line.WordsFault.TheVariants as fault;

    ghost from_gives = { λ error f. (f ≡ fault.OutOfMemory)
        ⊎ ((f ≡ fault.Words error) × (kind_of error ≢ kind.OutOfMemory)) };

    // `OutOfMemory` if memory ran out in `clap`, which has an error kind of its own for that; else `Words`.
    fn from(error: clap::Error) -> WordsFault {
        if error.kind() == ErrorKind::OutOfMemory {
            WordsFault::OutOfMemory
        } else {
            WordsFault::Words(error)
        }
    }
}

/// Parses the command line `words`; the first word is the program's own name.
///
/// # Errors
///
/// `OutOfMemory` if memory runs out; else `Words` if `clap` refuses the arguments, for example because a
/// number is out of range; else `Value` if an argument that `clap` doesn't check is malformed.
pub fn read_words(alloc: Global, words: Vec<String>) -> Result<Line, WordsFault>
    ensures valid { IfOk result IsLine }
    ensures given { IfOk result (IsGiven (map string_bytes words.items)) }
    ensures refused { IfErr result (AreWordsRefused (map string_bytes words.items)) }
{
    let matches = match_words(alloc, &words)?;
    match matches.subcommand() {
        Some((name, given)) => read_command(alloc, name, given),
        // `clap` refuses a command line without a command.
        None => Err(WordsFault::Value),
    }
}

/// Has `clap` parse the command line `words`; the first word is the program's own name.
///
/// # Errors
///
/// `OutOfMemory` if memory runs out; `Words` if `clap` refuses the arguments.
pub(crate) fn match_words(alloc: Global, words: &[String]) -> Result<ArgMatches<'_>, WordsFault>
    ensures found { IfOk result (λ matches.
        subcommand_rows_of matches ≡ subcommand_of program (map string_bytes words.now)) }
    ensures refused { IfErr result (IsRefusedByClap (map string_bytes words.now)) }
{
    Ok(make_command(alloc)?.try_get_matches_from(words)?)
}

// Reads the command `name` and its arguments. `Value` if an argument that `clap` doesn't check is malformed,
// or if there is no such command, which `clap` refuses before.
fn read_command(alloc: Global, name: &str, given: &ArgMatches<'_>) -> Result<Line, WordsFault>
    ensures valid { IfOk result IsLine }
    ensures name { IfOk result (λ line. name_of line ≡ name.now) }
    ensures given { IfOk result (HasGiven (rows_of (found_of given.now))) }
    ensures refused { RefusesOnlyWithout (IsLineOf name.now (rows_of (found_of given.now))) result }
{
    match name {
        "token" => Ok(Line::Token(read_token(alloc, given)?)),
        "cover" => Ok(Line::Cover(read_cover(given).ok_or(WordsFault::Value)?)),
        "play" => Ok(Line::Play(read_play(alloc, given)?)),
        "serve" => Ok(Line::Serve(read_serve(alloc, given)?)),
        "enrol" => Ok(Line::Enrol(read_enrol(alloc, given)?)),
        "check" => Ok(Line::Check(read_database(alloc, given)?)),
        "copy" => Ok(Line::Copy(read_copy(alloc, given)?)),
        "migrate" => Ok(Line::Migrate(read_database(alloc, given)?)),
        "replay" => Ok(Line::Replay(read_replay(alloc, given)?)),
        _ => Err(WordsFault::Value),
    }
}

// Reads the arguments of `play`. `Value` if one is missing, malformed or out of range.
fn read_play(alloc: Global, given: &ArgMatches<'_>) -> Result<PlayArgs, WordsFault>
    ensures valid { IfOk result IsPlay }
    ensures given { IfOk result (IsPlayGiven (rows_of (found_of given.now))) }
    ensures refused { RefusesOnlyWithout (IsPlayGiven (rows_of (found_of given.now))) result }
{
    let moment = read_moment(given).ok_or(WordsFault::Value)?;
    Ok(PlayArgs {
        desk: read_desk(alloc, given, None)?,
        moment,
    })
}

// Reads which desk `play` or `serve` opens. `operators` is the path of the file of enrolments, which only
// `serve` may have. `Value` if a list of priorities, a limit or an enrolment is malformed.
fn read_desk(
    alloc: Global,
    given: &ArgMatches<'_>,
    operators: Option<&str>,
) -> Result<DeskArgs, WordsFault>
    ensures in_range { IfOk result (λ desk. AreEnrolments desk.enrolments.items) }
    ensures given { IfOk result (IsDeskGiven (rows_of (found_of given.now))
        (option_map (λ path. path.now) operators.entry)) }
    ensures refused { RefusesOnlyWithout (IsDeskGiven (rows_of (found_of given.now))
        (option_map (λ path. path.now) operators.entry)) result }
{
    Ok(DeskArgs {
        database: read_database(alloc, given)?,
        terms: read_terms(alloc, given)?,
        enrolments: read_enrolments(alloc, given)?,
        operators: owned_text(alloc, operators)?,
        folder: read_folder(alloc, given)?,
    })
}

// Reads the moment of all requests, a Unix second. None if it is missing or not from 0 to `MAX_SECOND`.
fn read_moment(given: &ArgMatches<'_>) -> Option<Moment>
    ensures given { IfSome result (λ moment.
        IsIntegerGiven (codes "moment") (rows_of (found_of given.now)) moment.second) }
    ensures refused { result ≡ None → (z : ℤ) → IsMoment z
        → IsIntegerGiven (codes "moment") (rows_of (found_of given.now)) z → ⊥ }
{
    Moment::try_new(read_i64(given, "moment")?)
}

// Reads the argument `id` as an `i64`. None if it is missing or isn't one.
fn read_i64(given: &ArgMatches<'_>, id: &str) -> Option<i64>
    ensures given { IfSome result (IsIntegerGiven id.now (rows_of (found_of given.now))) }
    ensures refused { result ≡ None → (z : ℤ) → SFits w64 z
        → IsIntegerGiven id.now (rows_of (found_of given.now)) z → ⊥ }
{
    given.get_one(id)
}

// Reads the argument of `token`. `Value` if it is missing; whether it is the token of a cell is checked
// later.
fn read_token(alloc: Global, given: &ArgMatches<'_>) -> Result<String, WordsFault>
    ensures given { IfOk result (λ token. IsTextGiven (rows_of (found_of given.now)) (string_bytes token)) }
    ensures refused { RefusesOnlyWithout (IsTextGiven (rows_of (found_of given.now))) result }
{
    let token = argument(given, "token").ok_or(WordsFault::Value)?;
    Ok(String::from_str(alloc, token)?)
}

// Reads the arguments of `serve`. `Value` if one is missing, malformed or out of range.
fn read_serve(alloc: Global, given: &ArgMatches<'_>) -> Result<ServeArgs, WordsFault>
    ensures valid { IfOk result IsServe }
    ensures given { IfOk result (IsServeGiven (rows_of (found_of given.now))) }
    ensures refused { RefusesOnlyWithout (λ serve. IsServe serve
        × IsServeGiven (rows_of (found_of given.now)) serve) result }
{
    let port = read_port(given).ok_or(WordsFault::Value)?;
    let connections = read_connections(given).ok_or(WordsFault::Value)?;
    Ok(ServeArgs {
        desk: read_desk(alloc, given, argument(given, "operators"))?,
        port,
        connections,
    })
}

// Reads the port that is listened at. None if it is missing or not from 1 to 65,535.
fn read_port(given: &ArgMatches<'_>) -> Option<u16>
    ensures valid { IfSome result (IsInRange min_port max_port) }
    ensures given { IfSome result (IsNumberGiven (codes "port") (rows_of (found_of given.now))) }
    ensures refused { result ≡ None → (n : ℕ) → IsInRange min_port max_port n
        → IsNumberGiven (codes "port") (rows_of (found_of given.now)) n → ⊥ }
{
    let port = read_u16(given, "port")?;
    (port != 0).then_some(port)
}

// Reads how many connections are served. None if that is missing or not from 1 to `MAX_CONNECTIONS`.
fn read_connections(given: &ArgMatches<'_>) -> Option<u32>
    ensures valid { IfSome result (IsInRange min_connections max_connections) }
    ensures given { IfSome result (IsNumberGiven (codes "connections") (rows_of (found_of given.now))) }
    ensures refused { result ≡ None → (n : ℕ) → IsInRange min_connections max_connections n
        → IsNumberGiven (codes "connections") (rows_of (found_of given.now)) n → ⊥ }
{
    let connections = read_u32(given, "connections")?;
    (1..=MAX_CONNECTIONS)
        .contains(&connections)
        .then_some(connections)
}

// Reads the path of the folder in which requests and answers are recorded (`--record`), if one is given. An
// error if memory runs out.
fn read_folder(alloc: Global, given: &ArgMatches<'_>) -> Result<Option<String>, AllocError>
    ensures { IfOk result (λ folder. option_map string_bytes folder
        ≡ first_of (codes "record") (rows_of (found_of given.now))) }
{
    owned_text(alloc, argument(given, "record"))
}

// An owned copy of `text`, if there is one. An error if memory runs out.
fn owned_text(alloc: Global, text: Option<&str>) -> Result<Option<String>, AllocError>
    ensures { IfOk result (λ owned. option_map string_bytes owned
        ≡ option_map (λ text. text.now) text.entry) }
{
    match text {
        None => Ok(None),
        Some(text) => Ok(Some(String::from_str(alloc, text)?)),
    }
}

// Reads the arguments of `cover`. None if one is missing or doesn't fit its type; whether the numbers are a
// rectangle is checked later.
fn read_cover(given: &ArgMatches<'_>) -> Option<CoverArgs>
    ensures valid { IfSome result IsCover }
    ensures given { IfSome result (IsCoverGiven (rows_of (found_of given.now))) }
    ensures refused { result ≡ None → (cover : CoverArgs) → IsCover cover
        → IsCoverGiven (rows_of (found_of given.now)) cover → ⊥ }
{
    Some(CoverArgs {
        face: read_u8(given, "FACE")?,
        i_min: read_u32(given, "I_MIN")?,
        i_max: read_u32(given, "I_MAX")?,
        j_min: read_u32(given, "J_MIN")?,
        j_max: read_u32(given, "J_MAX")?,
        level: read_u8(given, "LEVEL")?,
        is_picture: is_flag_set(given, "picture"),
    })
}

// Reads the argument `id` as a `u8`. None if it is missing or isn't one.
fn read_u8(given: &ArgMatches<'_>, id: &str) -> Option<u8>
    ensures given { IfSome result (IsNumberGiven id.now (rows_of (found_of given.now))) }
    ensures refused { result ≡ None → (n : ℕ) → n < 2 ^ 8
        → IsNumberGiven id.now (rows_of (found_of given.now)) n → ⊥ }
{
    given.get_one(id)
}

// Reads the argument `id` as a `u16`. None if it is missing or isn't one.
fn read_u16(given: &ArgMatches<'_>, id: &str) -> Option<u16>
    ensures given { IfSome result (IsNumberGiven id.now (rows_of (found_of given.now))) }
    ensures refused { result ≡ None → (n : ℕ) → n < 2 ^ 16
        → IsNumberGiven id.now (rows_of (found_of given.now)) n → ⊥ }
{
    given.get_one(id)
}

// Reads the argument `id` as a `u32`. None if it is missing or isn't one.
fn read_u32(given: &ArgMatches<'_>, id: &str) -> Option<u32>
    ensures given { IfSome result (IsNumberGiven id.now (rows_of (found_of given.now))) }
    ensures refused { result ≡ None → (n : ℕ) → n < 2 ^ 32
        → IsNumberGiven id.now (rows_of (found_of given.now)) n → ⊥ }
{
    given.get_one(id)
}

// Whether the flag `id`, an option without a value, was given.
fn is_flag_set(given: &ArgMatches<'_>, id: &str) -> bool
    ensures { result ≡ spec.is_given id.now (rows_of (found_of given.now)) }
{
    given.get_one(id).unwrap_or(false)
}

// Reads the arguments of `enrol`. `Value` if the name or the ceiling is missing or malformed.
fn read_enrol(alloc: Global, given: &ArgMatches<'_>) -> Result<EnrolArgs, WordsFault>
    ensures valid { IfOk result IsEnrol }
    ensures given { IfOk result (IsEnrolGiven (rows_of (found_of given.now))) }
    ensures refused { RefusesOnlyWithout (IsEnrolGiven (rows_of (found_of given.now))) result }
{
    let enrolment = read_operator(given).ok_or(WordsFault::Value)?;
    Ok(EnrolArgs {
        desk: read_bare_desk(alloc, given)?,
        enrolment,
    })
}

// Reads which desk `enrol` opens: its database and its folder. It has no settings, and enrols nobody else. An
// error if memory runs out.
fn read_bare_desk(alloc: Global, given: &ArgMatches<'_>) -> Result<DeskArgs, AllocError>
    ensures { IfOk result (IsBareDeskGiven (rows_of (found_of given.now))) }
{
    Ok(DeskArgs {
        database: read_database(alloc, given)?,
        terms: Terms::none(),
        enrolments: Vec::new(alloc),
        operators: None,
        folder: read_folder(alloc, given)?,
    })
}

// Reads the arguments of `copy`. `Value` if the path of the new file is missing.
fn read_copy(alloc: Global, given: &ArgMatches<'_>) -> Result<CopyArgs, WordsFault>
    ensures given { IfOk result (IsCopyGiven (rows_of (found_of given.now))) }
    ensures refused { RefusesOnlyWithout (IsCopyGiven (rows_of (found_of given.now))) result }
{
    let to = argument(given, "to").ok_or(WordsFault::Value)?;
    Ok(CopyArgs {
        database: read_database(alloc, given)?,
        to: String::from_str(alloc, to)?,
    })
}

// Reads the arguments of `replay`. `Value` if the last second to be replayed is out of range.
fn read_replay(alloc: Global, given: &ArgMatches<'_>) -> Result<ReplayArgs, WordsFault>
    ensures valid { IfOk result IsReplay }
    ensures given { IfOk result (IsReplayGiven (rows_of (found_of given.now))) }
    ensures refused { RefusesOnlyWithout (λ replay. IsReplay replay
        × IsReplayGiven (rows_of (found_of given.now)) replay) result }
{
    let until = read_until(given).ok_or(WordsFault::Value)?;
    Ok(ReplayArgs {
        database: read_database(alloc, given)?,
        until,
    })
}

// Reads the last Unix second to be replayed: `Some(None)` if the option is missing, None if its value is not
// from 0 to `MAX_SECOND`.
fn read_until(given: &ArgMatches<'_>) -> Option<Option<u64>>
    ensures valid { IfSome result IsMomentIfGiven }
    ensures given { IfSome result (IsNumberOrNone (codes "until") (rows_of (found_of given.now))) }
    ensures refused { result ≡ None → (found : Option ℕ) → IsMomentIfGiven found
        → IsNumberOrNone (codes "until") (rows_of (found_of given.now)) found → ⊥ }
{
    let until = read_u64_if_given(given, "until")?;
    until
        .is_none_or(|second| second <= MAX_SECOND as u64)
        .then_some(until)
}

// Reads the argument `id` as a `u64`: `Some(None)` if it is missing, None if it isn't one.
fn read_u64_if_given(given: &ArgMatches<'_>, id: &str) -> Option<Option<u64>>
    ensures given { IfSome result (IsNumberOrNone id.now (rows_of (found_of given.now))) }
    ensures refused { result ≡ None → (found : Option ℕ) → IfSome found (λ n. n < 2 ^ 64)
        → IsNumberOrNone id.now (rows_of (found_of given.now)) found → ⊥ }
{
    given.try_get_one(id).ok()
}

// Reads the name and the ceiling of an operator, for `enrol`. None if one is missing or malformed.
fn read_operator(given: &ArgMatches<'_>) -> Option<Enrolment>
    ensures parsed { result ≡ enrolment_given (rows_of (found_of given.now)) }
    ensures in_range { IfSome result (λ e. e.ceiling ≤ max_priority) }
{
    make_enrolment(argument(given, "NAME")?, argument(given, "CEILING")?)
}

/// The text of the argument `id` in `given`, the arguments that `clap` found. None if it is missing.
pub(crate) fn argument<'a>(given: &ArgMatches<'a>, id: &str) -> Option<&'a str>
    ensures { option_map (λ text. text.now) result ≡ first_of id.now (rows_of (found_of given.now)) }
{
    given.get_str(id)
}

// Reads which database is used: in memory if `--db` is missing or `:memory:`. An error if memory runs out.
fn read_database(alloc: Global, given: &ArgMatches<'_>) -> Result<Database, AllocError>
    ensures { IfOk result (λ database. file_of database ≡ file_given (rows_of (found_of given.now))) }
{
    match argument(given, "database") {
        Some(path) if path != IN_MEMORY => Ok(Database::File(String::from_str(alloc, path)?)),
        _ => Ok(Database::InMemory),
    }
}

// Reads the settings of the desk: the permitted priorities, and the limits on spans and on cells. `Value` if
// one is malformed.
fn read_terms(alloc: Global, given: &ArgMatches<'_>) -> Result<Terms, WordsFault>
    ensures given { IfOk result (AreTermsOf (rows_of (found_of given.now))) }
    ensures refused { RefusesOnlyWithout (AreTermsOf (rows_of (found_of given.now))) result }
{
    Ok(Terms {
        permitted: read_permitted(alloc, given)?,
        spans: read_limit(given, "spans", MAX_SPANS)?,
        cells: read_limit(given, "cells", MAX_TOTAL_CELLS)?,
    })
}

// Reads the limit `id`, which may be from 1 to `greatest`; None if the option is missing. `Value` for any
// other value.
fn read_limit(given: &ArgMatches<'_>, id: &str, greatest: u32) -> Result<Option<u32>, WordsFault>
    ensures given { IfOk result (IsLimitGiven id.now greatest (rows_of (found_of given.now))) }
    ensures refused { RefusesOnlyWithout (IsLimitGiven id.now greatest (rows_of (found_of given.now))) result }
{
    let limit = read_u32_if_given(given, id).ok_or(WordsFault::Value)?;
    if !limit.is_none_or(|limit| (1..=greatest).contains(&limit)) {
        return Err(WordsFault::Value);
    }
    Ok(limit)
}

// Reads the argument `id` as a `u32`: `Some(None)` if it is missing, None if it isn't one.
fn read_u32_if_given(given: &ArgMatches<'_>, id: &str) -> Option<Option<u32>>
    ensures given { IfSome result (IsNumberOrNone id.now (rows_of (found_of given.now))) }
    ensures refused { result ≡ None → (found : Option ℕ) → IfSome found (λ n. n < 2 ^ 32)
        → IsNumberOrNone id.now (rows_of (found_of given.now)) found → ⊥ }
{
    given.try_get_one(id).ok()
}

// Reads the priorities at which plans of equal priority may overlap (`--equal`). `Value` if the list is
// malformed.
fn read_permitted(alloc: Global, given: &ArgMatches<'_>) -> Result<Permitted, WordsFault>
    ensures given { IfOk result (ArePermittedBy
        (first_of (codes "equal") (rows_of (found_of given.now)))) }
    ensures refused { RefusesOnlyWithout (ArePermittedBy
        (first_of (codes "equal") (rows_of (found_of given.now)))) result }
{
    parse_permitted_option(alloc, argument(given, "equal"))
}

// Reads the enrolments, in the order given. `Value` if one is malformed.
fn read_enrolments(alloc: Global, given: &ArgMatches<'_>) -> Result<Vec<Enrolment>, WordsFault>
    ensures in_range { IfOk result (λ enrolments. AreEnrolments enrolments.items) }
    ensures given { IfOk result (λ enrolments.
        AreEnrolmentsGiven enrolments.items (rows_of (found_of given.now))) }
    ensures refused { RefusesOnlyWithout (λ enrolments.
        AreEnrolmentsGiven enrolments (rows_of (found_of given.now))) result }
{
    parse_enrolments(alloc, given.get_strs("enrolments").unwrap_or(&[]))
}

// Parses an enrolment `NAME=CEILING` from each of `words`, in their order. `Value` if one is malformed.
fn parse_enrolments(alloc: Global, words: &[&str]) -> Result<Vec<Enrolment>, WordsFault>
    ensures in_range { IfOk result (λ enrolments. AreEnrolments enrolments.items) }
    ensures given { IfOk result (λ enrolments. map Some enrolments.items
        ≡ map (λ word. enrolment_in word.now) words.now) }
    ensures refused { RefusesOnlyWithout (λ (enrolments : List Enrolment). map Some enrolments
        ≡ map (λ word. enrolment_in word.now) words.now) result }
{
    let mut enrolments = Vec::new(alloc);
    for word in words {
        let Some(enrolment) = parse_enrolment(word) else {
            return Err(WordsFault::Value);
        };
        enrolments.push(enrolment)?;
    }
    Ok(enrolments)
}

// Parses an enrolment `NAME=CEILING`, split at its first `=`. None if it is malformed.
#[tactic(auto, unfolding(crate::specs::Grammar::enrolment_in))]
fn parse_enrolment(word: &str) -> Option<Enrolment>
    ensures parsed { result ≡ enrolment_in word.now }
    ensures in_range { IfSome result (λ e. e.ceiling ≤ max_priority) }
{
    let (name, ceiling) = word.split_once('=')?;
    make_enrolment(name, ceiling)
}

/// The enrolment of the operator `name` with the ceiling `ceiling`, a decimal number. None if `name` is no
/// operator's name, or `ceiling` is malformed or above 1,000.
pub(crate) fn make_enrolment(name: &str, ceiling: &str) -> Option<Enrolment>
    ensures parsed { result ≡ spec.enrolment_by name.now ceiling.now }
    ensures in_range { IfSome result (λ e. e.ceiling ≤ max_priority) }
{
    Some(Enrolment {
        operator: Operator::try_new(name.as_bytes())?,
        ceiling: parse_priority(ceiling)?,
    })
}
