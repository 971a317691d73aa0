//! Stops of a desk's store at each call of its disk, and what is left. The files are in memory; from some
//! call on each call of one of them fails. What was written is kept, as when a process is killed, or what
//! was not synced is lost, as when power fails; then the files are opened again. Each line of the script is
//! a change: the first ones make the content with which each stopped change begins.
//! Printed is, for each stopped change, how many stops left the content as it was before it, as it is after
//! it, and otherwise, which none may; after an answer only the content after it is right.
//! Files of schema 1 are made by statements of SQL, and stopped while they are moved to schema 2; what is
//! left is compared by the rows of all tables then, and by what is reported if it is adopted.
//! `Line` has the forms of the lines.

mod act;
mod applying;
mod content;
mod line;
mod moving;
mod round;
mod tables;
mod tally;
mod trial;

use crate::opening::Fused;
use crate::script::is_silent;
use line::Line;
use std::alloc::Global;
use std::io::Write;
use trial::Trial;

/// Plays the lines of a script.
pub fn play<D: Fused, W: Write>(
    alloc: Global,
    lines: &[String],
    output: &mut W,
) -> anyhow::Result<()> {
    let mut trial: Trial<D> = Trial::new(alloc);
    for text in lines {
        play_line(alloc, &mut trial, text, output)?;
    }
    Ok(())
}

// Plays a line, which may be empty or a comment.
fn play_line<D: Fused, W: Write>(
    alloc: Global,
    trial: &mut Trial<D>,
    text: &str,
    output: &mut W,
) -> anyhow::Result<()> {
    if is_silent(text) {
        return Ok(());
    }
    trial.play(&Line::parse(alloc, text)?, output)
}
