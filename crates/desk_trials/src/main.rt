//! Trials of the desk over a list and over tables: the one program that drives a store over tables, so that
//! all of SQLite is proved and built once for all of them. The word is the name of a part; without a word all
//! parts are played one after the other, in the order of their stored run.
#![tactic(auto)]

mod cases;
mod desks;
mod disk;
mod empty_store;
mod named;
mod opening;
mod part;
mod refusals;
mod script;
mod stops;
mod texts;

use anyhow::Context;
use opening::Fused;
use part::Part;
use sqlite_disk::{Fuse, Memory};
use std::env;

fn main(rt: HostRuntime) -> anyhow::Result<()> {
    let mut words = env::args(&rt)?;
    match words.nth(1) {
        Some(name) => play::<Fuse<Memory>>(&rt, Part::of_name(&name)?),
        None => play_all::<Fuse<Memory>>(&rt),
    }
}

// Plays all parts.
fn play_all<D: Fused>(rt: &HostRuntime) -> anyhow::Result<()> {
    let lines = lines_read(rt)?;
    for part in Part::ALL {
        play_with::<D>(rt, part, &lines)?;
    }
    Ok(())
}

// Plays a part, which reads the standard input only if it has a script.
fn play<D: Fused>(rt: &HostRuntime, part: Part) -> anyhow::Result<()> {
    let lines = if part.has_script() {
        lines_read(rt)?
    } else {
        Vec::new(rt.alloc())
    };
    play_with::<D>(rt, part, &lines)
}

// The lines of the standard input.
fn lines_read(rt: &HostRuntime) -> anyhow::Result<Vec<String>> {
    let mut lines = Vec::new(rt.alloc());
    for line in rt.lines(rt.alloc()) {
        lines.push(line?)?;
    }
    Ok(lines)
}

// Plays a part, with the lines of the standard input.
fn play_with<D: Fused>(rt: &HostRuntime, part: Part, lines: &[String]) -> anyhow::Result<()> {
    let mut output = rt.stdout();
    match part {
        Part::Cases => cases::play::<D, _>(rt.alloc(), script_of(lines, "cases")?, &mut output),
        Part::Stops => stops::play::<D, _>(rt.alloc(), script_of(lines, "stops")?, &mut output),
        Part::Refusals => refusals::play(rt, &mut output),
    }
}

// The script of a part.
fn script_of<'l>(lines: &'l [String], name: &str) -> anyhow::Result<&'l [String]> {
    script::part_of(lines, name).context("a part has no script")
}
