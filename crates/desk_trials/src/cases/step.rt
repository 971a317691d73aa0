//! Steps of worked cases, each a line.

use crate::cases::ask::Ask;
use crate::named::Extent;
use std::alloc::{AllocError, Global};

/// A step of a case. Words stand apart by blanks; the last part of `request` and of `raw` is the rest of
/// the line.
#[derive(Clone, Copy, Debug)]
pub enum Step<'l> {
    /// `case NAME`: the answers that follow belong to this case.
    Case(&'l str),
    /// `desk NAME=CEILING ..`: a new desk, at which these are enrolled.
    Desk(&'l str),
    /// `at SECOND`: the moment of what follows, a Unix second.
    At(&'l str),
    /// `equal PRIORITY,..`: these priorities are permitted from here on; if they can't be, it is reported
    /// why.
    Equal(&'l str),
    /// `spans N`: the most spans of an operator's live plans from here on; `-` for any number.
    Spans(&'l str),
    /// `cells N`: the most cells of an operator's plans from here on; `-` for any number.
    Cells(&'l str),
    /// `ask OPERATOR ID STYLE USAGE AIRCRAFT PRIORITY LOWER UPPER START END CELL,..`: a PUT as bytes.
    Ask(Ask<'l>),
    /// `request METHOD TARGET OPERATOR BODY`: a request as bytes, with a content-length; OPERATOR `-` leaves
    /// its field out.
    Request {
        method: &'l str,
        target: &'l str,
        operator: &'l str,
        body: &'l str,
    },
    /// `raw TEXT`: the bytes of a request, with `\r` and `\n` for CR and LF.
    Raw(&'l str),
    /// `put ..`: the words of `ask`, but Unix seconds, as a call.
    Put(Ask<'l>),
    /// `puts COUNT ..`: as `put`, of plans one above the other, each ten decimetres high from LOWER on, with
    /// ids of their own.
    Puts {
        count: &'l str,
        ask: Ask<'l>,
    },
    /// `delete OPERATOR ID`: a call.
    Delete {
        operator: &'l str,
        id: &'l str,
    },
    /// `status OPERATOR`: a call.
    Status {
        operator: &'l str,
    },
    /// `list OPERATOR`: a call.
    List {
        operator: &'l str,
    },
    /// `show OPERATOR ID`: a call.
    Show {
        operator: &'l str,
        id: &'l str,
    },
    /// `clear OPERATOR LOWER UPPER START END CELL,..`: a call; Unix seconds.
    Clear {
        operator: &'l str,
        extent: Extent<'l>,
    },
    /// `plans OPERATOR`: what the store holds of the operator.
    Plans {
        operator: &'l str,
    },
}

impl<'l> Step<'l> {
    /// The step that a line is, or None of a line that has none of the forms.
    pub fn parse(alloc: Global, line: &'l str) -> Result<Option<Step<'l>>, AllocError> {
        let (word, rest) = line.split_once(' ').unwrap_or((line, ""));
        Ok(match word {
            "case" => Some(Step::Case(rest)),
            "desk" => Some(Step::Desk(rest)),
            "at" => Some(Step::At(rest)),
            "equal" => Some(Step::Equal(rest)),
            "spans" => Some(Step::Spans(rest)),
            "cells" => Some(Step::Cells(rest)),
            "raw" => Some(Step::Raw(rest)),
            "request" => request_of(rest),
            _ => {
                let words: Vec<&str> = rest.split(' ').collect(alloc)?;
                call_of(word, &words)
            }
        })
    }
}

// A request, of METHOD TARGET OPERATOR BODY.
fn request_of(rest: &str) -> Option<Step<'_>> {
    let (method, rest) = rest.split_once(' ')?;
    let (target, rest) = rest.split_once(' ')?;
    let (operator, body) = rest.split_once(' ').unwrap_or((rest, ""));
    Some(Step::Request {
        method,
        target,
        operator,
        body,
    })
}

// A step by its first word and the words after it.
fn call_of<'l>(word: &str, words: &[&'l str]) -> Option<Step<'l>> {
    match (word, words) {
        ("ask", words) => Some(Step::Ask(Ask::of_words(words)?)),
        ("put", words) => Some(Step::Put(Ask::of_words(words)?)),
        ("puts", [count, words @ ..]) => Some(Step::Puts {
            count,
            ask: Ask::of_words(words)?,
        }),
        ("delete", [operator, id]) => Some(Step::Delete { operator, id }),
        ("status", [operator]) => Some(Step::Status { operator }),
        ("list", [operator]) => Some(Step::List { operator }),
        ("show", [operator, id]) => Some(Step::Show { operator, id }),
        ("clear", [operator, words @ ..]) => Some(Step::Clear {
            operator,
            extent: Extent::of_words(words)?,
        }),
        ("plans", [operator]) => Some(Step::Plans { operator }),
        _ => None,
    }
}
