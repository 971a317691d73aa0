//! What is measured: each call over all inputs.

use crate::cells::Inputs;
use crate::rects::Form;
use s2_cellid::CellId;
use s2_cover::{Rect, cover, normalise};
use s2_hilbert::{leaf_at, position};
use std::alloc::Global;

/// A call, the normal forms of all lists of so many cells, or the covers of all rectangles of a form.
#[derive(Clone, Copy)]
pub enum Measure {
    Position,
    LeafAt,
    FromToken,
    Token,
    Parent,
    Normalise(usize),
    Cover(Form),
}

/// All measures, with their names.
pub static MEASURES: [(&str, Measure); 10] = [
    ("position", Measure::Position),
    ("leaf_at", Measure::LeafAt),
    ("from_token", Measure::FromToken),
    ("token", Measure::Token),
    ("parent", Measure::Parent),
    ("normalise_5", Measure::Normalise(5)),
    ("normalise_64", Measure::Normalise(64)),
    ("normalise_256", Measure::Normalise(256)),
    ("cover", Measure::Cover(Form::Any)),
    ("cover_row", Measure::Cover(Form::Row)),
];

impl Measure {
    /// The sum of what the calls give, modulo 2^64.
    pub fn sum(self, alloc: Global, inputs: &Inputs) -> anyhow::Result<u64> {
        match self {
            Measure::Position => Ok(sum_of_positions(inputs)),
            Measure::LeafAt => Ok(sum_of_leaves(inputs)),
            Measure::FromToken => Ok(sum_of_read_tokens(inputs)),
            Measure::Token => Ok(sum_of_tokens(inputs)),
            Measure::Parent => Ok(sum_of_parents(inputs)),
            Measure::Normalise(length) => sum_of_covers(alloc, inputs, length),
            Measure::Cover(form) => sum_of_rects(alloc, inputs.rects(form)),
        }
    }

    /// How many calls that are.
    pub fn calls(self, inputs: &Inputs) -> usize {
        match self {
            Measure::Normalise(length) => inputs.close.len() / length.max(1),
            Measure::Cover(form) => inputs.rects(form).len(),
            _ => inputs.cells.len(),
        }
    }
}

fn sum_of_positions(inputs: &Inputs) -> u64 {
    let mut sum: u64 = 0;
    for leaf in &inputs.leaves {
        sum = sum.wrapping_add(position(*leaf));
    }
    sum
}

fn sum_of_leaves(inputs: &Inputs) -> u64 {
    let mut sum: u64 = 0;
    for place in &inputs.places {
        let leaf = leaf_at(place.position);
        sum = sum.wrapping_add(u64::from(leaf.i) << 32 | u64::from(leaf.j));
    }
    sum
}

fn sum_of_read_tokens(inputs: &Inputs) -> u64 {
    let mut sum: u64 = 0;
    for token in &inputs.tokens {
        if let Ok(cell) = CellId::from_token(token.as_bytes()) {
            sum = sum.wrapping_add(cell.raw());
        }
    }
    sum
}

fn sum_of_tokens(inputs: &Inputs) -> u64 {
    let mut sum: u64 = 0;
    for cell in &inputs.cells {
        let token = cell.token();
        sum = sum.wrapping_add(token.as_str().len() as u64);
    }
    sum
}

fn sum_of_parents(inputs: &Inputs) -> u64 {
    let mut sum: u64 = 0;
    for climb in &inputs.climbs {
        sum = sum.wrapping_add(climb.cell.parent(climb.level).raw());
    }
    sum
}

// Of each list of `length` cells the cells of its normal form.
fn sum_of_covers(alloc: Global, inputs: &Inputs, length: usize) -> anyhow::Result<u64> {
    let mut sum: u64 = 0;
    for list in inputs.close.chunks_exact(length.max(1)) {
        let cover = normalise(alloc, list)?;
        for cell in cover.cells() {
            sum = sum.wrapping_add(cell.raw());
        }
    }
    Ok(sum)
}

/// The most cells that a cover may have.
pub const LIMIT: u32 = 1_000;

// Of each rectangle the cells of its cover.
fn sum_of_rects(alloc: Global, rects: &[Rect]) -> anyhow::Result<u64> {
    let mut sum: u64 = 0;
    for rect in rects {
        let cover = cover(alloc, rect, LIMIT)?;
        for cell in cover.cells() {
            sum = sum.wrapping_add(cell.raw());
        }
    }
    Ok(sum)
}
