//! Single calls of the ground, of the reading and of the writing.

use crate::named::{Extent, cells_of, leaf_id};
use crate::refusals::count::Refusals;
use anyhow::bail;
use desk_writing::error_answer;
use http::StatusCode;
use s2_cover::{Cover, Rect, cover, normalise};
use std::alloc::Global;
use std::io::Write;
use volume4d::{Area, Footprint, MAX_COVER, Slab};

// The calls. What each prints is a line or more, in the forms of `ground_cases`.
#[derive(Clone, Copy, Debug)]
enum Call {
    Normal,
    Ranges,
    Covered,
    Bytes,
    Slabs,
    Refusal,
}

const CALLS: [Call; 6] = [
    Call::Normal,
    Call::Ranges,
    Call::Covered,
    Call::Bytes,
    Call::Slabs,
    Call::Refusal,
];

/// Makes each call, and prints what it says.
pub fn play_ground<W: Write>(
    alloc: Global,
    refusals: &mut Refusals,
    output: &mut W,
) -> anyhow::Result<()> {
    for call in CALLS {
        output.write_all(&twice(alloc, call, refusals)?)?;
    }
    Ok(())
}

// What a call says, at the second time if the first was refused.
fn twice(alloc: Global, call: Call, refusals: &mut Refusals) -> anyhow::Result<Vec<u8>> {
    for _ in 0..2 {
        match call.said(alloc) {
            Some(said) => return Ok(said),
            None => refusals.add(),
        }
    }
    bail!("a call is refused twice")
}

impl Call {
    // What the call says, or None if memory was refused.
    fn said(self, alloc: Global) -> Option<Vec<u8>> {
        match self {
            Call::Normal => normal(alloc),
            Call::Ranges => ranges(alloc),
            Call::Covered => covered(alloc),
            Call::Bytes => bytes(alloc),
            Call::Slabs => slabs(alloc),
            Call::Refusal => refusal(alloc),
        }
    }
}

// The normal form of four cells of level 1.
fn normal(alloc: Global) -> Option<Vec<u8>> {
    let cells = cells_of(alloc, "1c,14,0c,04").ok()?;
    cells_line(alloc, &normalise(alloc, &cells).ok()?.copy().ok()?)
}

// The ranges of a normal form.
fn ranges(alloc: Global) -> Option<Vec<u8>> {
    let cells = cells_of(alloc, "9,7,b,3").ok()?;
    let ranges = normalise(alloc, &cells).ok()?.ranges().ok()?.copy().ok()?;
    let mut said = Vec::new(alloc);
    for span in ranges.spans() {
        let (first, last) = (leaf_id(span.first), leaf_id(span.last));
        writeln!(said, "leaves {first:016x} {last:016x}").ok()?;
    }
    Some(said)
}

// The cover of half a face.
fn covered(alloc: Global) -> Option<Vec<u8>> {
    let rect = Rect::try_new(0, 0, 1_073_741_823, 0, 536_870_911, 8).ok()?;
    cells_line(alloc, &cover(alloc, &rect, MAX_COVER).ok()?)
}

// The bytes of a rectangle, as they are when they were read back.
fn bytes(alloc: Global) -> Option<Vec<u8>> {
    let rect = Rect::try_new(0, 100, 100, 0, 0, 24).ok()?;
    let bytes = Footprint::Rectangle(rect)
        .copy()
        .ok()?
        .to_bytes(alloc)
        .ok()?;
    let read = Footprint::from_bytes(alloc, &bytes).ok()??;
    hex_line(alloc, &read.to_bytes(alloc).ok()?)
}

// The bounds and the slabs of an area.
fn slabs(alloc: Global) -> Option<Vec<u8>> {
    let area = area_of(alloc)?.copy().ok()?;
    let mut said = Vec::new(alloc);
    show_slab("bounds", &area.bounds().ok()?, &mut said)?;
    for slab in area.slabs().ok()?.iter() {
        show_slab("slab", slab, &mut said)?;
    }
    Some(said)
}

// An area of three cells.
fn area_of(alloc: Global) -> Option<Area> {
    let extent = Extent {
        lower: "0",
        upper: "1000",
        start: "1780315200",
        end: "1780318800",
        cells: "05,3,01",
    };
    extent.area(alloc).ok()
}

// The cells of a cover.
fn cells_line(alloc: Global, cover: &Cover) -> Option<Vec<u8>> {
    let mut said = Vec::new(alloc);
    write!(said, "cells").ok()?;
    for cell in cover.cells() {
        write!(said, " {cell}").ok()?;
    }
    writeln!(said).ok()?;
    Some(said)
}

fn hex_line(alloc: Global, bytes: &[u8]) -> Option<Vec<u8>> {
    let mut said = Vec::new(alloc);
    for byte in bytes {
        write!(said, "{byte:02x}").ok()?;
    }
    writeln!(said).ok()?;
    Some(said)
}

fn show_slab(name: &str, slab: &Slab, said: &mut Vec<u8>) -> Option<()> {
    let (first, last) = (leaf_id(slab.first), leaf_id(slab.last));
    let (lower, upper) = (slab.lower, slab.upper);
    let (start, end) = (slab.start, slab.end);
    writeln!(
        said,
        "{name} {first:016x}..={last:016x} {lower}..{upper} {start}..{end}"
    )
    .ok()
}

// The answer that there is no such plan.
fn refusal(alloc: Global) -> Option<Vec<u8>> {
    let mut said = error_answer(alloc, StatusCode::NOT_FOUND, None, "no_such_plan").ok()?;
    said.push(b'\n').ok()?;
    Some(said)
}
