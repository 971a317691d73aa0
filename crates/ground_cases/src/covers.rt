//! Covers of lists of cells and of rectangles.

use crate::curve::leaf_id;
use anyhow::{Context, bail};
use s2_cellid::CellId;
use s2_cover::{Cover, Rect, cover, normalise};
use std::alloc::Global;
use std::io::Write;

/// The cells of these tokens.
pub fn cells_of(alloc: Global, tokens: &[&str]) -> anyhow::Result<Vec<CellId>> {
    let mut cells = Vec::new(alloc);
    for token in tokens {
        cells.push(CellId::from_token(token.as_bytes())?)?;
    }
    Ok(cells)
}

/// The rectangle of FACE I_MIN I_MAX J_MIN J_MAX LEVEL.
pub fn rect_of(words: &[&str]) -> anyhow::Result<Rect> {
    match *words {
        [face, i_min, i_max, j_min, j_max, level] => Ok(Rect::try_new(
            face.parse()?,
            i_min.parse()?,
            i_max.parse()?,
            j_min.parse()?,
            j_max.parse()?,
            level.parse()?,
        )?),
        _ => bail!("a rectangle has six words"),
    }
}

// A copy of the normal form of the cells of these tokens.
fn normal_form(alloc: Global, rest: &str) -> anyhow::Result<Cover> {
    let words: Vec<&str> = rest.split_whitespace().collect(alloc)?;
    let cells = cells_of(alloc, &words)?;
    Ok(normalise(alloc, &cells)?.copy()?)
}

/// Prints the cells of the normal form.
pub fn show_normal<W: Write>(alloc: Global, rest: &str, output: &mut W) -> anyhow::Result<()> {
    let cover = normal_form(alloc, rest)?;
    show_cells(&cover, output)
}

// Prints the cells of a cover, and how many squares were looked at.
fn show_cells<W: Write>(cover: &Cover, output: &mut W) -> anyhow::Result<()> {
    write!(output, "cells")?;
    for cell in cover.cells() {
        write!(output, " {cell}")?;
    }
    writeln!(output, ", {} looks", cover.looked())?;
    Ok(())
}

/// Prints the first and the last leaf of each range of the normal form.
pub fn show_ranges<W: Write>(alloc: Global, rest: &str, output: &mut W) -> anyhow::Result<()> {
    let ranges = normal_form(alloc, rest)?.ranges()?.copy()?;
    for span in ranges.spans() {
        writeln!(
            output,
            "leaves {:016x} {:016x}",
            leaf_id(span.first),
            leaf_id(span.last)
        )?;
    }
    Ok(())
}

/// Prints the cells of a rectangle's cover, of LIMIT and a rectangle.
pub fn show_cover<W: Write>(alloc: Global, rest: &str, output: &mut W) -> anyhow::Result<()> {
    let (limit, parts) = rest.split_once(' ').context("no rectangle")?;
    let words: Vec<&str> = parts.split(' ').collect(alloc)?;
    let rect = rect_of(&words)?;
    let cover = cover(alloc, &rect, limit.parse()?)?;
    show_cells(&cover, output)
}
