//! Plays worked cases of the ground: leaves, tokens, covers, slabs and the bytes of footprints. Each line of
//! the standard input is a step, and what comes of it is printed, or why it is refused. `play` has the forms
//! of the lines.
#![tactic(auto)]

mod covers;
mod curve;
mod footprints;
mod volumes;

use anyhow::bail;
use std::alloc::Global;
use std::io::Write;

// Plays a line, and prints what comes of it. The first word of a line is one of these; words stand apart by
// blanks, and parts of a word by commas.
//
// - `leaf FACE I J`: the leaf's id by its position, its cell's token, and the leaf that this token names.
// - `token TOKEN`: the cell's token as it is printed, its face, its level, and its first and its last leaf.
// - `normal TOKEN ..`: the cells of the normal form.
// - `ranges TOKEN ..`: the first and the last leaf of each range of the normal form.
// - `cover LIMIT FACE I_MIN I_MAX J_MIN J_MAX LEVEL`: the cells of the rectangle's cover.
// - `area VOLUME + VOLUME ..`: the bounds of the area and its slabs. A volume is `LOWER UPPER START END` and
//   a footprint, which is `cells TOKEN,..` or `rectangle FACE,I_MIN,I_MAX,J_MIN,J_MAX,LEVEL`.
// - `bytes FOOTPRINT`: the footprint's bytes.
// - `read BYTES`: the footprint of these bytes.
fn play<W: Write>(alloc: Global, line: &str, output: &mut W) -> anyhow::Result<()> {
    let (word, rest) = line.split_once(' ').unwrap_or((line, ""));
    match word {
        "leaf" => curve::show_leaf(alloc, rest, output),
        "token" => curve::show_token(rest, output),
        "normal" => covers::show_normal(alloc, rest, output),
        "ranges" => covers::show_ranges(alloc, rest, output),
        "cover" => covers::show_cover(alloc, rest, output),
        "area" => volumes::show_area(alloc, rest, output),
        "bytes" => footprints::show_bytes(alloc, rest, output),
        "read" => footprints::show_read(alloc, rest, output),
        _ => bail!("a line of no known form"),
    }
}

fn main(rt: HostRuntime) -> anyhow::Result<()> {
    let alloc = rt.alloc();
    let mut output = rt.stdout();
    for line in rt.lines(alloc) {
        let line = line?;
        let line = line.as_str();
        if line.is_empty() || line.starts_with('#') {
            continue;
        }
        let mut said = Vec::new(alloc);
        match play(alloc, line, &mut said) {
            Ok(()) => output.write_all(&said)?,
            Err(error) => writeln!(output, "refused: {error}")?,
        }
    }
    Ok(())
}
