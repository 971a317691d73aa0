//! The lines of cases, played at desks over one kind of store.

use crate::cases::pair::{Pair, Turn};
use crate::cases::stage::Stage;
use crate::cases::step::Step;
use crate::empty_store::EmptyStore;
use anyhow::Context;
use std::alloc::Global;
use std::io::Write;

/// A desk for the steps of cases, and two for those of pairs of histories.
#[derive(Drop)]
pub struct Cases<S> {
    stage: Stage<S>,
    pair: Pair<S>,
    alloc: Global,
}

impl<S: EmptyStore> Cases<S> {
    /// Empty desks.
    pub fn new(alloc: Global) -> anyhow::Result<Cases<S>> {
        let stage = Stage::new(alloc)?;
        let pair = Pair::new(alloc)?;
        Ok(Cases { stage, pair, alloc })
    }

    /// Plays a line, and gives what it prints.
    pub fn said(&mut self, line: &str) -> anyhow::Result<Vec<u8>> {
        let mut said = Vec::new(self.alloc);
        self.play(line, &mut said)?;
        Ok(said)
    }

    fn play<W: Write>(&mut self, line: &str, output: &mut W) -> anyhow::Result<()> {
        if let Some(turn) = Turn::parse(line) {
            return self.pair.play(&turn, output);
        }
        let step = Step::parse(self.alloc, line)?.context("a line of no known form")?;
        self.stage.play(&step, output)
    }
}
