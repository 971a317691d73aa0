//! Leaves along the curve, and the tokens of cells.

use anyhow::{Context, bail};
use s2_cellid::CellId;
use s2_hilbert::{Leaf, leaf_at, position};
use std::alloc::Global;
use std::io::Write;

/// The id of the leaf at a position, as 64 bits.
pub fn leaf_id(position: u64) -> u64 {
    position.wrapping_mul(2).wrapping_add(1)
}

/// Prints a leaf's id by its position, its cell's token, and the leaf that this token names.
pub fn show_leaf<W: Write>(alloc: Global, rest: &str, output: &mut W) -> anyhow::Result<()> {
    let words: Vec<&str> = rest.split(' ').collect(alloc)?;
    let leaf = leaf_of(&words)?;
    let token = CellId::of_leaf(leaf).token();
    let found = leaf_at(CellId::from_token(token.as_str().as_bytes())?.first());
    writeln!(
        output,
        "id {:016x}, token {token}, leaf {} {} {}",
        leaf_id(position(leaf)),
        found.face,
        found.i,
        found.j
    )?;
    Ok(())
}

// The leaf of FACE I J.
fn leaf_of(words: &[&str]) -> anyhow::Result<Leaf> {
    match *words {
        [face, i, j] => Leaf::try_new(face.parse()?, i.parse()?, j.parse()?).context("no leaf"),
        _ => bail!("a leaf has three words"),
    }
}

/// Prints a cell's token, its face, its level, and its first and its last leaf.
pub fn show_token<W: Write>(token: &str, output: &mut W) -> anyhow::Result<()> {
    let cell = CellId::from_token(token.as_bytes())?;
    writeln!(
        output,
        "{cell} face {} level {} leaves {:016x} {:016x}",
        cell.face(),
        cell.level(),
        leaf_id(cell.first()),
        leaf_id(cell.last())
    )?;
    Ok(())
}
