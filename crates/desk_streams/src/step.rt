//! Steps of cases over streams, each a line.

use crate::slow::{Ending, Pace};
use std::alloc::{AllocError, Global};

/// A step of a case. Words stand apart by blanks.
#[derive(Clone, Copy, Debug)]
pub enum Step<'l> {
    /// `case NAME`: a desk at which `alfa` is enrolled, and an empty stream.
    Case(&'l str),
    /// `feed COUNT TEXT`: the bytes of the text, so many times, with `\r` and `\n` for CR and LF.
    Feed { count: usize, text: &'l str },
    /// `byte NUMBER`: one byte.
    Byte(u8),
    /// `play EACH END EACH ROOM END`: requests of the stream by `play_all`. A read gives at most EACH bytes,
    /// and behind the last one it `ends`, `fails` or is `interrupted`. A write takes at most EACH bytes,
    /// and when there is no more ROOM it takes none (`ends`), `fails` or is `interrupted`.
    Play(Pace),
    /// `serve ..`: one request by `serve_one`.
    Serve(Pace),
    /// `prefixes`: each shorter beginning of the stream, by `play_all` at the same desk.
    Prefixes,
}

impl<'l> Step<'l> {
    /// The step that a line is, or None of a line that has none of the forms.
    pub fn parse(alloc: Global, line: &'l str) -> Result<Option<Step<'l>>, AllocError> {
        let (word, rest) = line.split_once(' ').unwrap_or((line, ""));
        Ok(match word {
            "case" => Some(Step::Case(rest)),
            "feed" => feed_of(rest),
            "byte" => byte_of(rest),
            "prefixes" => Some(Step::Prefixes),
            _ => {
                let words: Vec<&str> = rest.split(' ').collect(alloc)?;
                run_of(word, &words)
            }
        })
    }
}

// A text, of COUNT TEXT.
fn feed_of(rest: &str) -> Option<Step<'_>> {
    let (count, text) = rest.split_once(' ')?;
    let count = count.parse().ok()?;
    Some(Step::Feed { count, text })
}

// A byte, of NUMBER.
fn byte_of(rest: &str) -> Option<Step<'_>> {
    let byte: u8 = rest.parse().ok()?;
    Some(Step::Byte(byte))
}

// A run by its first word and the words after it.
fn run_of<'l>(word: &str, words: &[&'l str]) -> Option<Step<'l>> {
    let pace = pace_of(words)?;
    match word {
        "play" => Some(Step::Play(pace)),
        "serve" => Some(Step::Serve(pace)),
        _ => None,
    }
}

fn pace_of(words: &[&str]) -> Option<Pace> {
    match *words {
        [read_each, read_end, write_each, write_room, write_end] => Some(Pace {
            read_each: read_each.parse().ok()?,
            read_end: ending_of(read_end)?,
            write_each: write_each.parse().ok()?,
            write_room: write_room.parse().ok()?,
            write_end: ending_of(write_end)?,
        }),
        _ => None,
    }
}

fn ending_of(word: &str) -> Option<Ending> {
    match word {
        "ends" => Some(Ending::Ends),
        "fails" => Some(Ending::Fails),
        "interrupted" => Some(Ending::Interrupted),
        _ => None,
    }
}
