//! Lines of the standard input.

use crate::stops::act::Act;
use anyhow::bail;
use std::alloc::Global;

/// A line.
#[derive(Debug, Drop)]
pub enum Line {
    /// `given CHANGE`: the change is made, and is there for all that follows.
    Given(Act),
    /// `open`: the files are stopped while they are opened.
    Open,
    /// `stop NAME CHANGE`: the change is stopped at each call of the disk, and is not there for what follows.
    Stop {
        name: String,
        act: Act,
    },
    /// `new`: the files have no bytes again.
    New,
    /// `sql TEXT`: statements that are run over the files.
    Sql(String),
    /// `rows QUERY`: prints the texts that a query of one column lists.
    Rows(String),
    /// `adopt`: the files are adopted; prints what is reported, and whether the rows are the same afterwards.
    Adopt,
    /// `move`: the files are moved to schema 2; prints the same.
    Move,
    /// `stop-move NAME`: the move is stopped at each call of the disk, and is not made for what follows.
    StopMove(String),
    /// `ask METHOD TARGET OPERATOR`: a request with no body; prints what a desk over the files answers.
    Ask {
        method: String,
        target: String,
        operator: String,
    },
}

impl Line {
    /// The line that a text is.
    pub fn parse(alloc: Global, text: &str) -> anyhow::Result<Line> {
        match text.split_once(' ') {
            Some(("sql", sql)) => Ok(Line::Sql(sql.to_string(alloc)?)),
            Some(("rows", query)) => Ok(Line::Rows(query.to_string(alloc)?)),
            _ => {
                let words: Vec<&str> = text.split(' ').collect(alloc)?;
                line_of(alloc, &words)
            }
        }
    }
}

// The line of some words.
fn line_of(alloc: Global, words: &[&str]) -> anyhow::Result<Line> {
    match words {
        ["given", change @ ..] => Ok(Line::Given(Act::parse(alloc, change)?)),
        ["open"] => Ok(Line::Open),
        ["stop", name, change @ ..] => Ok(Line::Stop {
            name: name.to_string(alloc)?,
            act: Act::parse(alloc, change)?,
        }),
        ["new"] => Ok(Line::New),
        ["adopt"] => Ok(Line::Adopt),
        ["move"] => Ok(Line::Move),
        ["stop-move", name] => Ok(Line::StopMove(name.to_string(alloc)?)),
        ["ask", method, target, operator] => Ok(Line::Ask {
            method: method.to_string(alloc)?,
            target: target.to_string(alloc)?,
            operator: operator.to_string(alloc)?,
        }),
        _ => bail!("a line of no known form"),
    }
}
