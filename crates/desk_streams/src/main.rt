//! Plays streams that are slow, that end early, that fail or that are ill-formed. Each line of the standard
//! input is a step: a case is begun, bytes are put into its stream, the stream is read by `serve_one` or
//! `play_all`, and what was written is printed with what came of it. `Step` has the forms of the lines.
#![tactic(auto)]

mod slow;
mod stage;
mod step;

use anyhow::Context;
use stage::Stage;
use std::alloc::Global;
use std::io::Write;
use step::Step;

fn main(rt: HostRuntime) -> anyhow::Result<()> {
    let mut stage = Stage::new(rt.alloc())?;
    play_lines(&rt, &mut stage)
}

// Plays the lines of the standard input.
fn play_lines(rt: &HostRuntime, stage: &mut Stage) -> anyhow::Result<()> {
    let alloc = rt.alloc();
    let mut output = rt.stdout();
    for line in rt.lines(alloc) {
        play_line(alloc, line?.as_str(), stage, &mut output)?;
    }
    Ok(())
}

// Plays a line, which may be empty or a comment.
fn play_line<W: Write>(
    alloc: Global,
    line: &str,
    stage: &mut Stage,
    output: &mut W,
) -> anyhow::Result<()> {
    if line.is_empty() || line.starts_with('#') {
        return Ok(());
    }
    let step = Step::parse(alloc, line)?.context("a line of no known form")?;
    stage.play(&step, output)
}
