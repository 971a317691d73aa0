//! The trial: changes that are made, and changes that are stopped at each call of the disk.

use crate::disk::{Image, Left, Stopped};
use crate::opening::Fused;
use crate::stops::act::Act;
use crate::stops::content::Content;
use crate::stops::line::Line;
use crate::stops::moving::{
    adopt_files, answer_over, image_with, move_files, move_stopped, rows_left, texts_in,
};
use crate::stops::round::{Stop, change_stopped, content_of, image_after, open_stopped};
use crate::stops::tally::{Counts, Edges, Sums};
use crate::texts::request_bytes;
use anyhow::bail;
use std::alloc::Global;
use std::io::Write;

/// No round has so many calls of a file.
const MOST_CALLS: u64 = 1_000;

/// The ways in which files stop.
const WAYS: [(Stopped, Left); 4] = [
    (Stopped::Log, Left::Written),
    (Stopped::Log, Left::Synced),
    (Stopped::Database, Left::Written),
    (Stopped::Database, Left::Synced),
];

/// The files with which each stopped change begins.
#[derive(Drop)]
pub struct Trial<D> {
    image: Image<D>,
    // how many calls of each file it takes to open them, or less
    opening: Opening,
    alloc: Global,
}

#[derive(Clone, Copy, Debug)]
struct Opening {
    log: u64,
    database: u64,
}

impl<D: Fused> Trial<D> {
    /// Files with no bytes.
    pub fn new(alloc: Global) -> Trial<D> {
        Trial {
            image: Image::empty(alloc),
            opening: Opening::unknown(),
            alloc,
        }
    }

    /// Does what a line says, and prints what came of it.
    pub fn play<W: Write>(&mut self, line: &Line, output: &mut W) -> anyhow::Result<()> {
        match line {
            Line::Given(act) => self.change(act),
            Line::Open => self.open(output),
            Line::Stop { name, act } => self.stop(name, act, output),
            Line::New => self.renew(),
            Line::Sql(sql) => self.run_sql(sql),
            Line::Rows(query) => self.show_rows(query, output),
            Line::Adopt => self.adopt(output),
            Line::Move => self.move_over(output),
            Line::StopMove(name) => self.stop_move(name, output),
            Line::Ask {
                method,
                target,
                operator,
            } => self.ask(method, target, operator, output),
        }
    }

    fn change(&mut self, act: &Act) -> anyhow::Result<()> {
        self.image = image_after(self.alloc, &self.image, act)?;
        self.opening = Opening::unknown();
        Ok(())
    }

    // Stops the files while they are opened, in each way.
    fn open<W: Write>(&mut self, output: &mut W) -> anyhow::Result<()> {
        let before = content_of(self.alloc, &self.image)?;
        writeln!(output, "opening: {} plans", before.plans())?;
        for (stopped, left) in WAYS {
            let counts = self.stop_opening(&before, stopped, left)?;
            writeln!(output, "  {stopped}, {left}: {counts}")?;
            self.opening.set(stopped, counts.all());
        }
        Ok(())
    }

    // Stops the files at each call of one of them until they are open.
    fn stop_opening(
        &self,
        before: &Content,
        stopped: Stopped,
        left: Left,
    ) -> anyhow::Result<Counts> {
        let mut counts = Counts::new();
        for calls in 0..MOST_CALLS {
            let stop = Stop {
                stopped,
                left,
                calls,
            };
            match open_stopped(self.alloc, &self.image, stop)? {
                Some(content) => counts.count(&content, before, before),
                None => return Ok(counts),
            }
        }
        bail!("there is no end of calls")
    }

    fn renew(&mut self) -> anyhow::Result<()> {
        self.image = Image::empty(self.alloc);
        self.opening = Opening::unknown();
        Ok(())
    }

    fn run_sql(&mut self, sql: &str) -> anyhow::Result<()> {
        self.image = image_with(self.alloc, &self.image, sql)?;
        self.opening = Opening::unknown();
        Ok(())
    }

    // Prints what a query lists.
    fn show_rows<W: Write>(&self, query: &str, output: &mut W) -> anyhow::Result<()> {
        writeln!(output, "{query}")?;
        for text in &texts_in(self.alloc, &self.image, query)? {
            writeln!(output, "  {text}")?;
        }
        Ok(())
    }

    // Adopts the files, which stay as they are.
    fn adopt<W: Write>(&self, output: &mut W) -> anyhow::Result<()> {
        let before = rows_left(self.alloc, &self.image)?;
        let (reported, after) = adopt_files(self.alloc, &self.image)?;
        writeln!(output, "adopt: {reported}; {} rows", which(&before, &after))?;
        Ok(())
    }

    // Moves the files to schema 2.
    fn move_over<W: Write>(&mut self, output: &mut W) -> anyhow::Result<()> {
        let before = rows_left(self.alloc, &self.image)?;
        let (reported, after, left) = move_files(self.alloc, &self.image)?;
        writeln!(output, "move: {reported}; {} rows", which(&before, &after))?;
        self.image = left;
        self.opening = Opening::unknown();
        Ok(())
    }

    // Stops the move in each way.
    fn stop_move<W: Write>(&self, name: &str, output: &mut W) -> anyhow::Result<()> {
        let edges = Edges::of_move(self.alloc, &self.image)?;
        writeln!(output, "{name}: {edges}")?;
        for (stopped, left) in WAYS {
            let sums = self.stop_each_move(&edges, stopped, left)?;
            writeln!(output, "  {stopped}, {left}: {sums}")?;
        }
        Ok(())
    }

    // Stops the move at each call of a file.
    fn stop_each_move(&self, edges: &Edges, stopped: Stopped, left: Left) -> anyhow::Result<Sums> {
        let mut sums = Sums::new();
        for calls in 0..MOST_CALLS {
            let stop = Stop {
                stopped,
                left,
                calls,
            };
            let (came, content) = move_stopped(self.alloc, &self.image, stop)?;
            if !sums.count(came, &content, edges) {
                return Ok(sums);
            }
        }
        bail!("there is no end of calls")
    }

    // Sends a request with no body to a desk over the files, and prints the answer.
    fn ask<W: Write>(
        &self,
        method: &str,
        target: &str,
        operator: &str,
        output: &mut W,
    ) -> anyhow::Result<()> {
        let text = request_bytes(self.alloc, method, target, operator, "")?;
        output.write_all(&answer_over(self.alloc, &self.image, &text)?)?;
        writeln!(output)?;
        Ok(())
    }

    // Stops a change in each way.
    fn stop<W: Write>(&self, name: &str, act: &Act, output: &mut W) -> anyhow::Result<()> {
        let edges = Edges::of(self.alloc, &self.image, act)?;
        writeln!(output, "{name}: {edges}")?;
        for (stopped, left) in WAYS {
            let sums = self.stop_each(act, &edges, stopped, left)?;
            writeln!(output, "  {stopped}, {left}: {sums}")?;
        }
        Ok(())
    }

    // Stops a change at each call of a file, from the first at which the files are open.
    fn stop_each(
        &self,
        act: &Act,
        edges: &Edges,
        stopped: Stopped,
        left: Left,
    ) -> anyhow::Result<Sums> {
        let mut sums = Sums::new();
        for calls in self.opening.of(stopped)..MOST_CALLS {
            let stop = Stop {
                stopped,
                left,
                calls,
            };
            let (came, content) = change_stopped(self.alloc, &self.image, act, stop)?;
            if !sums.count(came, &content, edges) {
                return Ok(sums);
            }
        }
        bail!("there is no end of calls")
    }
}

// Which rows there are afterwards.
fn which(before: &Content, after: &Content) -> &'static str {
    if before == after { "the same" } else { "other" }
}

impl Opening {
    fn unknown() -> Opening {
        Opening {
            log: 0,
            database: 0,
        }
    }

    fn of(&self, stopped: Stopped) -> u64 {
        match stopped {
            Stopped::Log => self.log,
            Stopped::Database => self.database,
        }
    }

    fn set(&mut self, stopped: Stopped, calls: u64) {
        match stopped {
            Stopped::Log => self.log = calls,
            Stopped::Database => self.database = calls,
        }
    }
}
