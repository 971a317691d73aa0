//! Priorities on the command line. The option `--equal` lists those at which plans of equal priority may
//! overlap: the permitted ones. An operator's ceiling is the greatest priority that it may use.

ghost use Rattle.std.specs.Prelude.{◌≡◌, ◌≤◌, ℕ, List, IfOk, IfSome, Some, map, option_map};
ghost use Rattle.std.specs.{Char.is_ascii_digit, List.list_all, List.slice_split};
ghost use Rattle.desk_rules.specs.Limits.{max_priority};
ghost use Rattle.desk_cli.specs.Grammar as spec;
ghost use Rattle.desk_cli.specs.Grammar.{RefusesOnlyWithout, ArePermittedBy, is_comma, priority_in};

use crate::line::WordsFault;
use desk_rules::decide::MAX_PRIORITY;
use desk_rules::permission::Permitted;
use std::alloc::{AllocError, Global};

/// The maximum number of digits of a priority.
const PRIORITY_DIGITS: usize = 4;

/// Parses `word`, the value of `--equal`: the permitted priorities, with commas between them. Without the
/// option none is permitted.
///
/// # Errors
///
/// `Value` if the list is malformed or empty, has a priority above 1,000 or more than 32 of them, or isn't
/// ascending; `OutOfMemory` if memory runs out.
pub fn parse_permitted_option(alloc: Global, word: Option<&str>) -> Result<Permitted, WordsFault>
    ensures given { IfOk result (ArePermittedBy (option_map (λ word. word.now) word.entry)) }
    ensures refused { RefusesOnlyWithout (ArePermittedBy (option_map (λ word. word.now) word.entry)) result }
{
    let Some(word) = word else {
        return Ok(Permitted::none());
    };
    let priorities = parse_priorities(alloc, &split_at_commas(alloc, word)?)?;
    let Ok(permitted) = Permitted::try_new(&priorities) else {
        return Err(WordsFault::Value);
    };
    Ok(permitted)
}

// The parts of `word` between its commas, in their order; `word` itself if it has no comma. An error if
// memory runs out.
fn split_at_commas<'w>(alloc: Global, word: &'w str) -> Result<Vec<&'w str>, AllocError>
    ensures { IfOk result (λ parts.
        map (λ part. part.now) parts.items ≡ slice_split is_comma word.now) }
{
    word.split(',').collect(alloc)
}

// Parses a priority from each part, in their order. `Value` if one is malformed or above 1,000, `OutOfMemory`
// if memory runs out.
fn parse_priorities(alloc: Global, parts: &[&str]) -> Result<Vec<u32>, WordsFault>
    ensures given { IfOk result (λ priorities.
        map Some priorities.items ≡ map priority_in (map (λ part. part.now) parts.now)) }
    ensures refused { RefusesOnlyWithout (λ (priorities : List ℕ).
        map Some priorities ≡ map priority_in (map (λ part. part.now) parts.now)) result }
{
    let mut priorities = Vec::new(alloc);
    for part in parts {
        let Some(priority) = parse_priority(part) else {
            return Err(WordsFault::Value);
        };
        priorities.push(priority)?;
    }
    Ok(priorities)
}

/// Parses a priority or a ceiling: a decimal number of 1 to 4 digits, at most 1,000. None for other texts.
#[tactic(auto, unfolding(crate::specs::Grammar::priority_in))]
pub fn parse_priority(text: &str) -> Option<u32>
    ensures parsed { result ≡ priority_in text.now }
    ensures in_range { IfSome result (λ priority. priority ≤ max_priority) }
{
    if !is_short_number(text) {
        return None;
    }
    match text.parse() {
        Ok(priority) if priority <= MAX_PRIORITY => Some(priority),
        _ => None,
    }
}

// Whether `text` is 1 to 4 decimal digits.
#[tactic(auto, unfolding(crate::specs::Grammar::is_short_number))]
fn is_short_number(text: &str) -> bool
    ensures { result ≡ spec.is_short_number text.now }
{
    !text.is_empty() && text.len() <= PRIORITY_DIGITS && are_all_digits(text.as_bytes())
}

// Whether all bytes are decimal digits (ASCII); true if there are none.
fn are_all_digits(bytes: &[u8]) -> bool
    ensures { result ≡ list_all is_ascii_digit bytes.now }
{
    bytes.iter().all(|byte| byte.is_ascii_digit())
}
