//! Operators, plans' ids, cells and volumes by their words.

use anyhow::Context;
use desk_rules::operator::Operator;
use desk_rules::plan_id::PlanId;
use s2_cellid::CellId;
use std::alloc::Global;
use volume4d::{Area, Footprint, Volume, Window};

/// The operator of a name.
pub fn operator_of(name: &str) -> anyhow::Result<Operator> {
    Operator::try_new(name.as_bytes()).context("no name")
}

/// The id that a text is.
pub fn id_of(text: &str) -> anyhow::Result<PlanId> {
    PlanId::try_parse(text).context("no id")
}

/// The cells of S2 tokens with commas between.
pub fn cells_of(alloc: Global, tokens: &str) -> anyhow::Result<Vec<CellId>> {
    let mut cells = Vec::new(alloc);
    for token in tokens.split(',') {
        cells.push(cell_of(token)?)?;
    }
    Ok(cells)
}

fn cell_of(token: &str) -> anyhow::Result<CellId> {
    CellId::from_token(token.as_bytes()).ok().context("no cell")
}

/// A volume of cells.
#[derive(Clone, Copy, Debug)]
pub struct Extent<'l> {
    /// Decimetres.
    pub lower: &'l str,
    pub upper: &'l str,
    /// Unix seconds.
    pub start: &'l str,
    pub end: &'l str,
    /// S2 tokens with commas between.
    pub cells: &'l str,
}

impl<'l> Extent<'l> {
    /// The five words of an extent, in the order of its fields; None of any other number of words.
    pub fn of_words(words: &[&'l str]) -> Option<Extent<'l>> {
        match *words {
            [lower, upper, start, end, cells] => Some(Extent {
                lower,
                upper,
                start,
                end,
                cells,
            }),
            _ => None,
        }
    }

    /// The area of this volume alone.
    pub fn area(&self, alloc: Global) -> anyhow::Result<Area> {
        Area::try_new(vec![in alloc; self.volume(alloc)?]?).context("no area")
    }

    /// The volume.
    pub fn volume(&self, alloc: Global) -> anyhow::Result<Volume> {
        let window = self.window()?;
        let cells = Footprint::Cells(cells_of(alloc, self.cells)?);
        Volume::try_new(alloc, cells, window)
            .ok()
            .context("no volume")
    }

    fn window(&self) -> anyhow::Result<Window> {
        Window::try_new(
            self.lower.parse()?,
            self.upper.parse()?,
            self.start.parse()?,
            self.end.parse()?,
        )
        .ok()
        .context("no window")
    }
}

/// The id of the leaf at a position of the curve.
pub fn leaf_id(position: u64) -> u64 {
    position.wrapping_mul(2).wrapping_add(1)
}
