//! Pairs of histories: two desks side by side, at which one operator asks the same.

use crate::cases::stage::Stage;
use crate::cases::step::Step;
use crate::empty_store::EmptyStore;
use anyhow::Context;
use std::alloc::Global;
use std::io::Write;

/// A line of a pair of histories.
#[derive(Clone, Copy, Debug)]
pub enum Turn<'l> {
    /// `pair NAME`: the lines that follow belong to this pair of histories, which begin with empty desks.
    Pair(&'l str),
    /// `one STEP`: a step of the first history alone; what comes of it is not printed.
    One(&'l str),
    /// `two STEP`: a step of the second history alone.
    Two(&'l str),
    /// `both STEP`: a step of both; what comes of it in the first is printed, and whether it is the same,
    /// byte for byte, in the second.
    Both(&'l str),
}

impl<'l> Turn<'l> {
    /// The line of a pair that a line is, if it is one.
    pub fn parse(line: &'l str) -> Option<Turn<'l>> {
        let (word, rest) = line.split_once(' ').unwrap_or((line, ""));
        match word {
            "pair" => Some(Turn::Pair(rest)),
            "one" => Some(Turn::One(rest)),
            "two" => Some(Turn::Two(rest)),
            "both" => Some(Turn::Both(rest)),
            _ => None,
        }
    }
}

/// Two desks with a history each.
#[derive(Drop)]
pub struct Pair<S> {
    one: Stage<S>,
    two: Stage<S>,
    alloc: Global,
}

impl<S: EmptyStore> Pair<S> {
    /// Two empty desks.
    pub fn new(alloc: Global) -> anyhow::Result<Pair<S>> {
        let one = Stage::new(alloc)?;
        let two = Stage::new(alloc)?;
        Ok(Pair { one, two, alloc })
    }

    /// Plays a line of a pair, and prints what comes of it.
    pub fn play<W: Write>(&mut self, turn: &Turn<'_>, output: &mut W) -> anyhow::Result<()> {
        match turn {
            Turn::Pair(name) => self.begin(name, output),
            Turn::One(line) => play_unseen(self.alloc, &mut self.one, line),
            Turn::Two(line) => play_unseen(self.alloc, &mut self.two, line),
            Turn::Both(line) => self.play_both(line, output),
        }
    }

    fn begin<W: Write>(&mut self, name: &str, output: &mut W) -> anyhow::Result<()> {
        *self = Pair::new(self.alloc)?;
        writeln!(output, "pair {name}")?;
        Ok(())
    }

    fn play_both<W: Write>(&mut self, line: &str, output: &mut W) -> anyhow::Result<()> {
        let one = said_by(self.alloc, &mut self.one, line)?;
        let two = said_by(self.alloc, &mut self.two, line)?;
        show_both(&one, &two, output)
    }
}

// Prints what came of a step in the first history, if anything, and whether it is the same in the second.
fn show_both<W: Write>(one: &[u8], two: &[u8], output: &mut W) -> anyhow::Result<()> {
    if one.is_empty() {
        return Ok(());
    }
    output.write_all(one)?;
    output.write_all(if one == two {
        b"the same\n"
    } else {
        b"another\n"
    })?;
    Ok(())
}

// Plays a step, and prints nothing.
fn play_unseen<S: EmptyStore>(
    alloc: Global,
    stage: &mut Stage<S>,
    line: &str,
) -> anyhow::Result<()> {
    said_by(alloc, stage, line)?;
    Ok(())
}

// What comes of a step, as bytes.
fn said_by<S: EmptyStore>(
    alloc: Global,
    stage: &mut Stage<S>,
    line: &str,
) -> anyhow::Result<Vec<u8>> {
    let step = Step::parse(alloc, line)?.context("a line of no known form")?;
    let mut said = Vec::new(alloc);
    stage.play(&step, &mut said)?;
    Ok(said)
}
