//! Where cases are played: a desk, a stream, and what their steps do.

use crate::slow::{Ending, Pace, SlowReader, SlowWriter};
use crate::step::Step;
use anyhow::{Context, bail};
use desk_rules::operator::Operator;
use desk_run::Desk;
use desk_store::{ListStore, PlanStore};
use desk_wire::{play_all, serve_one};
use io_ends::{Moment, PlayEnd, ServeFault};
use std::alloc::Global;
use std::io::Write;

/// The moment of all requests.
const MOMENT: Moment = Moment {
    second: 1_780_315_000,
};

/// The ceiling of the operator.
const CEILING: u32 = 100;

/// How each shorter beginning of a stream is read and written.
const BRISK: Pace = Pace {
    read_each: 4_096,
    read_end: Ending::Ends,
    write_each: 4_096,
    write_room: 4_096,
    write_end: Ending::Fails,
};

/// A desk over a list, and the bytes of a stream.
#[derive(Drop)]
pub struct Stage {
    desk: Desk<ListStore>,
    operator: Operator,
    stream: Vec<u8>,
    alloc: Global,
}

impl Stage {
    /// A desk at which `alfa` is enrolled, and an empty stream.
    pub fn new(alloc: Global) -> anyhow::Result<Stage> {
        let operator = Operator::try_new(b"alfa").context("no name")?;
        let mut desk = Desk::new(ListStore::new(alloc));
        if desk.enrol(&operator, CEILING).is_err() {
            bail!("the enrolment was refused");
        }
        Ok(Stage {
            desk,
            operator,
            stream: Vec::new(alloc),
            alloc,
        })
    }

    /// Does what a step says, and prints what comes of it.
    pub fn play<W: Write>(&mut self, step: &Step<'_>, output: &mut W) -> anyhow::Result<()> {
        match step {
            Step::Case(name) => self.begin(name, output),
            Step::Feed { count, text } => self.feed(*count, text),
            Step::Byte(byte) => self.feed_byte(*byte),
            Step::Play(pace) => self.play_stream(*pace, output),
            Step::Serve(pace) => self.serve(*pace, output),
            Step::Prefixes => self.play_prefixes(output),
        }
    }

    fn begin<W: Write>(&mut self, name: &str, output: &mut W) -> anyhow::Result<()> {
        *self = Stage::new(self.alloc)?;
        writeln!(output, "case {name}")?;
        Ok(())
    }

    fn feed_byte(&mut self, byte: u8) -> anyhow::Result<()> {
        self.stream.push(byte)?;
        Ok(())
    }

    // Puts the bytes of a text into the stream, so many times.
    fn feed(&mut self, count: usize, text: &str) -> anyhow::Result<()> {
        let text = text.replace(self.alloc, "\\r", "\r")?;
        let text = text.replace(self.alloc, "\\n", "\n")?;
        for _ in 0..count {
            self.stream.extend_from_slice(text.as_bytes())?;
        }
        Ok(())
    }

    // Plays the stream.
    fn play_stream<W: Write>(&mut self, pace: Pace, output: &mut W) -> anyhow::Result<()> {
        let mut reader = SlowReader::new(&self.stream, pace);
        let mut writer = SlowWriter::new(self.alloc, pace);
        let played = play_all(self.alloc, &mut self.desk, MOMENT, &mut reader, &mut writer);
        show_written(&writer, output)?;
        writeln!(output, "{} answered, {:?}", played.answered, played.ended)?;
        let left = show_counts(&reader, &writer, output)?;
        self.leave(left, output)
    }

    // Serves one request of the stream.
    fn serve<W: Write>(&mut self, pace: Pace, output: &mut W) -> anyhow::Result<()> {
        let mut reader = SlowReader::new(&self.stream, pace);
        let mut writer = SlowWriter::new(self.alloc, pace);
        let served = serve_one(self.alloc, &mut self.desk, MOMENT, &mut reader, &mut writer);
        show_written(&writer, output)?;
        match served {
            Ok(served) => writeln!(output, "{served:?}")?,
            Err(fault) => writeln!(output, "{fault:?}")?,
        }
        let left = show_counts(&reader, &writer, output)?;
        self.leave(left, output)
    }

    // Leaves so many last bytes in the stream, and prints how many plans are stored.
    fn leave<W: Write>(&mut self, left: usize, output: &mut W) -> anyhow::Result<()> {
        let taken = self.stream.len().saturating_sub(left);
        self.stream = Vec::from_slice(self.alloc, &self.stream[taken..])?;
        let empty = Desk::new(ListStore::new(self.alloc));
        let mut store = std::mem::replace(&mut self.desk, empty).into_store();
        let Ok(count) = store.own_count(&self.operator) else {
            bail!("the plans can't be counted");
        };
        self.desk = Desk::new(store);
        writeln!(output, "{count} stored")?;
        Ok(())
    }

    // Plays each shorter beginning of the stream, and prints how they ended.
    fn play_prefixes<W: Write>(&mut self, output: &mut W) -> anyhow::Result<()> {
        let stream = std::mem::replace(&mut self.stream, Vec::new(self.alloc));
        let mut ended: u32 = 0;
        let mut cut: u32 = 0;
        let mut written: usize = 0;
        for length in 0..stream.len() {
            let (end, count) = play_part(self.alloc, &mut self.desk, &stream[..length]);
            written = written.saturating_add(count);
            match end {
                PlayEnd::End => ended = ended.saturating_add(1),
                PlayEnd::Fault(ServeFault::CutShort) => cut = cut.saturating_add(1),
                _ => {}
            }
        }
        writeln!(
            output,
            "{ended} ended, {cut} cut short, {written} bytes written"
        )?;
        self.leave(0, output)
    }
}

// Plays a stream, and returns why it ended and how many bytes were written.
fn play_part(alloc: Global, desk: &mut Desk<ListStore>, part: &[u8]) -> (PlayEnd, usize) {
    let mut reader = SlowReader::new(part, BRISK);
    let mut writer = SlowWriter::new(alloc, BRISK);
    let played = play_all(alloc, desk, MOMENT, &mut reader, &mut writer);
    (played.ended, writer.bytes().len())
}

// Prints what was written, if anything was.
fn show_written<W: Write>(writer: &SlowWriter, output: &mut W) -> anyhow::Result<()> {
    if !writer.bytes().is_empty() {
        output.write_all(writer.bytes())?;
        writeln!(output)?;
    }
    Ok(())
}

// Prints how many reads and writes there were, and how many bytes were left, which it returns.
fn show_counts<W: Write>(
    reader: &SlowReader<'_>,
    writer: &SlowWriter,
    output: &mut W,
) -> anyhow::Result<usize> {
    let left = reader.left();
    write!(
        output,
        "{} reads, {} writes, {} bytes left",
        reader.reads(),
        writer.writes(),
        left.len()
    )?;
    match left.first() {
        Some(byte) => writeln!(output, " from {:?}", char::from(*byte))?,
        None => writeln!(output)?,
    }
    Ok(left.len())
}
