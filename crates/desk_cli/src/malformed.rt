//! Which argument is malformed: found for the error message after the command line was refused. Only
//! arguments that `clap` doesn't check are looked at: those of `enrol`, and `--equal` and the enrolments of
//! `play` and `serve`. A reason is a text that says what an argument should have been.

ghost use Rattle.std.specs.Prelude.{◌≡◌, [], codes, IfSome, Some, is_none, is_some, map, not, option_map, string_bytes, unwrap_or};
ghost use Rattle.clap.specs.{Matches.found_of, Walk.all_of, Walk.rows_of};
ghost use Rattle.desk_rules.specs.Limits.{is_operator_name};
ghost use Rattle.desk_cli.specs.Grammar.{priority_in, enrolment_in};
ghost use Rattle.desk_cli.specs.Malformed.{IsMalformedAtDesk, IsMalformedListOrEnrolment, IsMalformedOperator, IsFirstMalformed, IsMalformed, first_malformed_enrolment};

use crate::equal::{parse_permitted_option, parse_priority};
use crate::line::{WordsFault, argument, match_words};
use clap::ArgMatches;
use desk_rules::operator::Operator;
use std::alloc::Global;

const NO_LIST: &str =
    "no list of priorities: at most 32 from 0 to 1000, ascending, with commas between";

/// The first malformed argument of the command line `words`, with the reason; the first word is the program's
/// own name. None if no argument is malformed, if `clap` refuses the command line, or if memory runs out.
pub fn find_malformed_argument<'w>(
    alloc: Global,
    words: &'w [String],
) -> Option<(&'w str, &'static str)>
    ensures { IfSome result (λ found. IsMalformed (map string_bytes words.now) found.0.now) }
{
    let matches = match_words(alloc, words).ok()?;
    let (name, given) = matches.subcommand()?;
    malformed_argument(alloc, name, given)
}

// The first malformed argument of the command `name`, with the reason. None if none is malformed, which is so
// of all commands but `enrol`, `play` and `serve`, or if memory runs out.
fn malformed_argument<'w>(
    alloc: Global,
    name: &str,
    given: &ArgMatches<'w>,
) -> Option<(&'w str, &'static str)>
    ensures { IfSome result (λ found. IsFirstMalformed name.now (rows_of (found_of given.now)) found.0.now) }
{
    if name == "enrol" {
        return malformed_operator(given);
    }
    malformed_at_desk(alloc, given)
}

// The operator's name given to `enrol` if it is malformed, else its ceiling if that is, with the reason. None
// if neither is.
fn malformed_operator<'w>(given: &ArgMatches<'w>) -> Option<(&'w str, &'static str)>
    ensures { IfSome result (λ found. IsMalformedOperator (rows_of (found_of given.now)) found.0.now) }
{
    let name = argument(given, "NAME")?;
    if let Some(cause) = name_cause(name) {
        return Some((name, cause));
    }
    let ceiling = argument(given, "CEILING")?;
    let cause = ceiling_cause(ceiling)?;
    Some((ceiling, cause))
}

// The first malformed argument of `play` or `serve`, with the reason: the value of `--equal`, or an
// enrolment. None if none is malformed, or if memory runs out.
fn malformed_at_desk<'w>(alloc: Global, given: &ArgMatches<'w>) -> Option<(&'w str, &'static str)>
    ensures { IfSome result (λ found. IsMalformedAtDesk (rows_of (found_of given.now)) found.0.now) }
{
    let words = given.get_strs("enrolments").unwrap_or(&[]);
    malformed_list_or_enrolment(alloc, argument(given, "equal"), words)
}

// The value of `--equal` (`equal`) if it is malformed, else the first of `words` that is no enrolment, with
// the reason. None if there is neither, or if memory runs out.
fn malformed_list_or_enrolment<'w>(
    alloc: Global,
    equal: Option<&'w str>,
    words: &[&'w str],
) -> Option<(&'w str, &'static str)>
    ensures { IfSome result (λ found. IsMalformedListOrEnrolment (option_map (λ word. word.now) equal.entry)
        (map (λ word. word.now) words.now) found.0.now) }
{
    let Some(word) = equal else {
        return malformed_enrolment(words);
    };
    match parse_permitted_option(alloc, Some(word)) {
        Ok(_) => malformed_enrolment(words),
        Err(WordsFault::Value) => Some((word, NO_LIST)),
        _ => None,
    }
}

// The first of `words` that is no enrolment `NAME=CEILING`, with the reason. None if all are enrolments.
fn malformed_enrolment<'w>(words: &[&'w str]) -> Option<(&'w str, &'static str)>
    ensures { IfSome result (λ found. first_malformed_enrolment (map (λ word. word.now) words.now) ≡ Some found.0.now) }
{
    for word in words {
        if let Some(cause) = enrolment_cause(word) {
            return Some((word, cause));
        }
    }
    None
}

// Why `word` is no enrolment `NAME=CEILING`. None if it is one.
#[tactic(auto, unfolding(crate::specs::Grammar::enrolment_in))]
fn enrolment_cause(word: &str) -> Option<&'static str>
    ensures { is_some result ≡ is_none (enrolment_in word.now) }
{
    let Some((name, ceiling)) = word.split_once('=') else {
        return Some("no NAME=CEILING");
    };
    name_cause(name).or_else(|| ceiling_cause(ceiling))
}

// Why `name` is no operator's name. None if it is one.
fn name_cause(name: &str) -> Option<&'static str>
    ensures { is_some result ≡ not (is_operator_name name.now) }
{
    Operator::try_new(name.as_bytes())
        .is_none()
        .then_some("no operator's name: 1 to 32 of a to z, 0 to 9 and -")
}

// Why `ceiling` is no ceiling: a number from 0 to 1,000. None if it is one.
fn ceiling_cause(ceiling: &str) -> Option<&'static str>
    ensures { is_some result ≡ is_none (priority_in ceiling.now) }
{
    parse_priority(ceiling)
        .is_none()
        .then_some("no ceiling: a number from 0 to 1000, of at most 4 digits")
}
