//! Cases at desks over a list and at desks over tables, and whether they come to the same.

use crate::cases::played::Cases;
use crate::empty_store::EmptyStore;
use crate::script::is_silent;
use desk_store::ListStore;
use std::alloc::Global;
use std::io::Write;

/// The same steps over a list and over another kind of store.
#[derive(Drop)]
pub struct Both<S> {
    listed: Cases<ListStore>,
    tabled: Cases<S>,
    // How many steps came to the same, and how many didn't.
    same: u64,
    others: u64,
}

impl<S: EmptyStore> Both<S> {
    /// Empty desks.
    pub fn new(alloc: Global) -> anyhow::Result<Both<S>> {
        let listed = Cases::new(alloc)?;
        let tabled = Cases::new(alloc)?;
        Ok(Both {
            listed,
            tabled,
            same: 0,
            others: 0,
        })
    }

    /// Plays lines, and prints what comes of them and how many steps came to the same.
    pub fn play_all<W: Write>(&mut self, lines: &[String], output: &mut W) -> anyhow::Result<()> {
        for line in lines {
            self.play(line, output)?;
        }
        self.report(output)
    }

    // Plays a line, which may be empty or a comment, and prints what comes of it.
    fn play<W: Write>(&mut self, line: &str, output: &mut W) -> anyhow::Result<()> {
        if is_silent(line) {
            return Ok(());
        }
        let said = self.listed.said(line)?;
        output.write_all(&said)?;
        self.compare(&said, line, output)
    }

    // Plays a line over tables, and prints what comes of it if it is another.
    fn compare<W: Write>(&mut self, said: &[u8], line: &str, output: &mut W) -> anyhow::Result<()> {
        let also = self.tabled.said(line)?;
        if said == also.as_slice() {
            self.same = self.same.saturating_add(1);
            return Ok(());
        }
        self.others = self.others.saturating_add(1);
        output.write_all(b"over tables: ")?;
        output.write_all(&also)?;
        Ok(())
    }

    // Prints how many steps came to the same.
    fn report<W: Write>(&self, output: &mut W) -> anyhow::Result<()> {
        let Both { same, others, .. } = self;
        writeln!(
            output,
            "over tables: {same} steps are the same, {others} are others"
        )?;
        Ok(())
    }
}
