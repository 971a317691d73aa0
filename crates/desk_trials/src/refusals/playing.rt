//! Calls at a desk, each made again if it was refused.

use crate::refusals::asked::{Asked, CALLS};
use crate::refusals::count::Refusals;
use crate::refusals::stand::Stand;
use anyhow::bail;
use desk_store::PlanStore;
use std::io::Write;

/// Makes the calls at a desk, and prints what is said.
pub fn play_desk<S: PlanStore, W: Write>(
    stand: &mut Stand<S>,
    refusals: &mut Refusals,
    output: &mut W,
) -> anyhow::Result<()> {
    for asked in &CALLS {
        output.write_all(&said(stand, asked, refusals)?)?;
        output.write_all(b"\n")?;
    }
    Ok(())
}

/// Prints what a List of each operator answers.
pub fn show_desk<S: PlanStore, W: Write>(
    stand: &mut Stand<S>,
    refusals: &mut Refusals,
    output: &mut W,
) -> anyhow::Result<()> {
    output.write_all(&lists(stand, refusals)?)?;
    Ok(())
}

// What is said to what is asked. If it is refused, the desk has to be as it was, and it is asked again.
fn said<S: PlanStore>(
    stand: &mut Stand<S>,
    asked: &Asked,
    refusals: &mut Refusals,
) -> anyhow::Result<Vec<u8>> {
    let before = lists(stand, refusals)?;
    for _ in 0..2 {
        match stand.said(asked) {
            Some(said) => return Ok(said),
            None => refusals.add(),
        }
        if lists(stand, refusals)? != before {
            bail!("a call that was refused changed the desk");
        }
    }
    bail!("a call is refused twice")
}

// What a List of each operator answers, at the second time if the first was refused.
fn lists<S: PlanStore>(stand: &mut Stand<S>, refusals: &mut Refusals) -> anyhow::Result<Vec<u8>> {
    for _ in 0..2 {
        match stand.lists() {
            Some(said) => return Ok(said),
            None => refusals.add(),
        }
    }
    bail!("a List is refused twice")
}
