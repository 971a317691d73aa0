//! Footprints, and their bytes.

use crate::covers::{cells_of, rect_of};
use anyhow::{Context, bail};
use s2_cover::Rect;
use std::alloc::Global;
use std::io::Write;
use volume4d::Footprint;

/// The footprint of `cells TOKEN,..` or `rectangle FACE,I_MIN,I_MAX,J_MIN,J_MAX,LEVEL`.
pub fn footprint_of(alloc: Global, text: &str) -> anyhow::Result<Footprint> {
    let (word, parts) = text.split_once(' ').context("no footprint")?;
    let parts: Vec<&str> = parts.split(',').collect(alloc)?;
    match word {
        "cells" => Ok(Footprint::Cells(cells_of(alloc, &parts)?)),
        "rectangle" => Ok(Footprint::Rectangle(rect_of(&parts)?)),
        _ => bail!("a footprint of no known form"),
    }
}

/// Prints the bytes of a copy of a footprint.
pub fn show_bytes<W: Write>(alloc: Global, rest: &str, output: &mut W) -> anyhow::Result<()> {
    let copy = footprint_of(alloc, rest)?.copy()?;
    for byte in copy.to_bytes(alloc)?.iter() {
        write!(output, "{byte:02x}")?;
    }
    writeln!(output)?;
    Ok(())
}

/// Prints the footprint of these bytes, or that there is none.
pub fn show_read<W: Write>(alloc: Global, rest: &str, output: &mut W) -> anyhow::Result<()> {
    let bytes = bytes_of(alloc, rest)?;
    match Footprint::from_bytes(alloc, &bytes)? {
        Some(footprint) => show_footprint(&footprint, output),
        None => bail!("no footprint"),
    }
}

// The bytes that hexadecimal digits write, two for each.
fn bytes_of(alloc: Global, digits: &str) -> anyhow::Result<Vec<u8>> {
    let (pairs, rest) = digits.as_bytes().as_chunks::<2>();
    if !rest.is_empty() {
        bail!("a digit too many");
    }
    let mut bytes = Vec::new(alloc);
    for [high, low] in pairs {
        bytes.push(digit_of(*high)?.wrapping_mul(16) | digit_of(*low)?)?;
    }
    Ok(bytes)
}

// The value of a hexadecimal digit.
fn digit_of(digit: u8) -> anyhow::Result<u8> {
    let value = char::from(digit).to_digit(16).context("no digit")?;
    Ok(u8::try_from(value)?)
}

// Prints a footprint.
fn show_footprint<W: Write>(footprint: &Footprint, output: &mut W) -> anyhow::Result<()> {
    match footprint {
        Footprint::Cells(cells) => {
            write!(output, "cells")?;
            for cell in cells.iter() {
                write!(output, " {cell}")?;
            }
            writeln!(output)?;
            Ok(())
        }
        Footprint::Rectangle(rect) => show_rect(rect, output),
    }
}

// Prints a rectangle.
fn show_rect<W: Write>(rect: &Rect, output: &mut W) -> anyhow::Result<()> {
    writeln!(
        output,
        "rectangle {} {} {} {} {} {}",
        rect.face(),
        rect.i_min(),
        rect.i_max(),
        rect.j_min(),
        rect.j_max(),
        rect.level()
    )?;
    Ok(())
}
