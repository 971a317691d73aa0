//! Times the calls of the curve, of cell ids, of normal forms and of covers over pseudo-random cells and
//! rectangles. The two arguments are how many of them, and how often each call goes over all of them, in turn
//! with the others. The least time of a call, in picoseconds, goes to standard error; the sum of all results,
//! which is the same on each run, to standard output. bench/curve compares both with the S2 library's.
//!
//! With the words `covers` and a number it prints so many rectangles, each with the tokens of its cover,
//! which bench/s2 compares with the S2 library one by one.
#![tactic(auto)]

mod cells;
mod measures;
mod rects;

use crate::cells::{Inputs, random_inputs};
use crate::measures::{LIMIT, MEASURES, Measure};
use crate::rects::{Form, random_rects};
use anyhow::Context;
use s2_cover::{Rect, cover};
use std::alloc::Global;
use std::env;
use std::time::{Duration, Instant};

// The `n`th word after the program's name, a number.
fn number(rt: &HostRuntime, n: usize) -> anyhow::Result<u32> {
    let word = env::args(rt)?.nth(n).context("an argument is missing")?;
    Ok(word.as_str().parse()?)
}

fn picoseconds(time: Duration, calls: usize) -> u128 {
    time.as_nanos() * 1000 / (calls.max(1) as u128)
}

// Makes all calls of a measure; the least of the times that they and those before took.
fn time_once(
    rt: &HostRuntime,
    inputs: &Inputs,
    measure: Measure,
    least: Duration,
) -> anyhow::Result<Duration> {
    let start = Instant::now(rt)?;
    let _sum = measure.sum(rt.alloc(), inputs)?;
    Ok(start.elapsed(rt)?.min(least))
}

// Prints the rectangles of each form, fewer than `count` each, with the cells of their covers.
fn print_covers(rt: &HostRuntime, count: u32) -> anyhow::Result<()> {
    let alloc = rt.alloc();
    for form in [Form::Any, Form::Row] {
        let rects = random_rects(alloc, count, form)?;
        let mut text = String::new(alloc);
        for rect in &rects {
            push_cover(alloc, &mut text, rect)?;
        }
        print!(rt; "{text}")?;
    }
    Ok(())
}

// Appends a rectangle and the tokens of its cover, as a line.
fn push_cover(alloc: Global, text: &mut String, rect: &Rect) -> anyhow::Result<()> {
    let (face, level) = (rect.face(), rect.level());
    let (i_min, i_max, j_min, j_max) = (rect.i_min(), rect.i_max(), rect.j_min(), rect.j_max());
    let parts = format!(in alloc; "{face} {i_min} {i_max} {j_min} {j_max} {level}")?;
    text.push_str(&parts)?;
    for cell in cover(alloc, rect, LIMIT)?.cells() {
        text.push(' ')?;
        text.push_str(cell.token().as_str())?;
    }
    text.push('\n')?;
    Ok(())
}

// Times all measures, and prints their sums.
fn time_all(rt: &HostRuntime) -> anyhow::Result<()> {
    let inputs = random_inputs(rt.alloc(), number(rt, 1)?)?;
    let rounds = number(rt, 2)?;
    let mut least = [Duration::MAX; MEASURES.len()];
    for _ in 0..rounds {
        for (time, (_, measure)) in least.iter_mut().zip(&MEASURES) {
            *time = time_once(rt, &inputs, *measure, *time)?;
        }
    }
    for (time, (name, measure)) in least.iter().zip(&MEASURES) {
        let sum = measure.sum(rt.alloc(), &inputs)?;
        println!(rt; "{name} {sum:016x}")?;
        eprintln!(rt; "{name} {}", picoseconds(*time, measure.calls(&inputs)))?;
    }
    Ok(())
}

fn main(rt: HostRuntime) -> anyhow::Result<()> {
    let first = env::args(&rt)?.nth(1).context("no arguments")?;
    if first.as_str() == "covers" {
        print_covers(&rt, number(&rt, 2)?)
    } else {
        time_all(&rt)
    }
}
