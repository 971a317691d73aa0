//! Worked cases, at desks over a list and at desks over tables. Each line is a step of a case: a desk is
//! made, its clock is set, a request is sent as bytes or a call is made. What comes of it over a list is
//! printed under the case's name; what comes of it over tables is printed only if it is another, and the
//! last line reports how many steps came to the same.
//! `Step` has the forms of the lines, and `Pair` those of two histories that are played side by side.

mod ask;
mod both;
mod pair;
mod played;
mod shown;
mod stage;
mod step;

use crate::opening::Fused;
use both::Both;
use desk_tables::SqliteStore;
use sqlite::FileStore;
use std::alloc::Global;
use std::io::Write;

/// Plays the lines of a script.
pub fn play<D: Fused, W: Write>(
    alloc: Global,
    lines: &[String],
    output: &mut W,
) -> anyhow::Result<()> {
    let mut both: Both<SqliteStore<FileStore<D>>> = Both::new(alloc)?;
    both.play_all(lines, output)
}
