//! Volumes and areas, by their slabs.

use crate::curve::leaf_id;
use crate::footprints::footprint_of;
use anyhow::{Context, bail};
use std::alloc::Global;
use std::io::Write;
use volume4d::{Area, Slab, Volume, Window};

/// Prints the bounds of an area and its slabs, of volumes with ` + ` between.
pub fn show_area<W: Write>(alloc: Global, rest: &str, output: &mut W) -> anyhow::Result<()> {
    let area = area_of(alloc, rest)?.copy()?;
    show_slab("bounds", &area.bounds()?, output)?;
    for slab in area.slabs()?.iter() {
        show_slab("slab", slab, output)?;
    }
    Ok(())
}

// The area of volumes with ` + ` between.
fn area_of(alloc: Global, text: &str) -> anyhow::Result<Area> {
    let mut volumes = Vec::new(alloc);
    for part in text.split(" + ") {
        volumes.push(volume_of(alloc, part)?)?;
    }
    Area::try_new(volumes).context("no area")
}

// The volume of LOWER UPPER START END and a footprint.
fn volume_of(alloc: Global, text: &str) -> anyhow::Result<Volume> {
    let words: Vec<&str> = text.splitn(5, ' ').collect(alloc)?;
    match words.as_slice() {
        [bounds @ .., footprint] => {
            let window = window_of(bounds)?;
            Ok(Volume::try_new(alloc, footprint_of(alloc, footprint)?, window)?)
        }
        _ => bail!("no volume"),
    }
}

// The window of LOWER UPPER START END.
fn window_of(words: &[&str]) -> anyhow::Result<Window> {
    match *words {
        [lower, upper, start, end] => Ok(Window::try_new(
            lower.parse()?,
            upper.parse()?,
            start.parse()?,
            end.parse()?,
        )?),
        _ => bail!("a window has four words"),
    }
}

// Prints the leaves, the altitudes and the seconds of a slab.
fn show_slab<W: Write>(name: &str, slab: &Slab, output: &mut W) -> anyhow::Result<()> {
    writeln!(
        output,
        "{name} {:016x}..={:016x} {}..{} {}..{}",
        leaf_id(slab.first),
        leaf_id(slab.last),
        slab.lower,
        slab.upper,
        slab.start,
        slab.end
    )?;
    Ok(())
}
