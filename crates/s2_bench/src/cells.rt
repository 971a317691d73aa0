//! Pseudo-random cells, the same on each run.

ghost use Rattle.std.specs.Prelude.{◌≡◌, ◌*◌, ◌^◌, ◌<◌, ◌≤◌};
ghost use Rattle.s2_cellid.specs.Cell.{level_of};

use crate::rects::{Form, random_rects};
use s2_cellid::CellId;
use s2_cover::Rect;
use s2_hilbert::{Leaf, leaf_at};
use std::alloc::{AllocError, Global};

const LEAVES: u64 = 6 << 60;

// How many leaves a region has, the square of level 20 from which a list of cells takes its cells.
const REGION: u64 = 1 << 20;

// How many cells in a row are taken from one region.
const IN_A_REGION: usize = 256;

/// The position of a leaf.
#[derive(Clone, Copy)]
pub struct Place {
    pub position: u64,
    ghost below: { position < 6 * 2 ^ 60 },
}

/// A cell, and a level of a cell above it or its own.
#[derive(Clone, Copy)]
pub struct Climb {
    pub cell: CellId,
    pub level: u8,
    ghost above: { level ≤ level_of cell },
}

/// What the calls are given, as many of each.
#[derive(Drop)]
pub struct Inputs {
    /// Positions all over the faces.
    pub places: Vec<Place>,
    /// The leaves at those positions.
    pub leaves: Vec<Leaf>,
    /// Cells of all levels, one round each of those leaves.
    pub cells: Vec<CellId>,
    /// The same cells, each with a level.
    pub climbs: Vec<Climb>,
    /// The tokens of those cells.
    pub tokens: Vec<String>,
    /// Cells of the levels 22 to 26 that lie close to one another, many of them in others.
    pub close: Vec<CellId>,
    // Rectangles on whole squares, and rows of squares.
    any_rects: Vec<Rect>,
    rows: Vec<Rect>,
}

impl Inputs {
    /// The rectangles of a form.
    pub fn rects(&self, form: Form) -> &[Rect] {
        match form {
            Form::Any => &self.any_rects,
            Form::Row => &self.rows,
        }
    }
}

/// Steele, Lea and Flood's generator SplitMix64.
#[derive(Drop)]
pub struct Numbers {
    pub state: u64,
}

impl Numbers {
    /// The next number.
    pub fn next(&mut self) -> u64 {
        self.state = self.state.wrapping_add(0x9e37_79b9_7f4a_7c15);
        let mixed = (self.state ^ self.state >> 30).wrapping_mul(0xbf58_476d_1ce4_e5b9);
        let mixed = (mixed ^ mixed >> 27).wrapping_mul(0x94d0_49bb_1331_11eb);
        mixed ^ mixed >> 31
    }

    fn place(&mut self) -> Place {
        Place {
            position: self.next() % LEAVES,
        }
    }
}

/// Inputs of `count` places.
pub fn random_inputs(alloc: Global, count: u32) -> Result<Inputs, AllocError> {
    let mut numbers = Numbers { state: 1 };
    let mut inputs = Inputs {
        places: Vec::new(alloc),
        leaves: Vec::new(alloc),
        cells: Vec::new(alloc),
        climbs: Vec::new(alloc),
        tokens: Vec::new(alloc),
        close: Vec::new(alloc),
        any_rects: random_rects(alloc, count, Form::Any)?,
        rows: random_rects(alloc, count, Form::Row)?,
    };
    for _ in 0..count {
        let place = numbers.place();
        let leaf = leaf_at(place.position);
        let cell = cell_round(leaf, (numbers.next() % 31) as u8);
        inputs.places.push(place)?;
        inputs.leaves.push(leaf)?;
        inputs.cells.push(cell)?;
        inputs.climbs.push(climb_from(cell, numbers.next()))?;
        inputs.tokens.push(format!(in alloc; "{cell}")?)?;
    }
    push_close(&mut numbers, &mut inputs)?;
    Ok(inputs)
}

// The cell with one of the levels down to its own.
fn climb_from(cell: CellId, number: u64) -> Climb {
    let levels = u64::from(cell.level()) + 1;
    Climb {
        cell,
        level: (number % levels) as u8,
    }
}

// Fills the list of close cells up to the length of the others.
fn push_close(numbers: &mut Numbers, inputs: &mut Inputs) -> Result<(), AllocError> {
    let mut region = numbers.place();
    for place in 0..inputs.cells.len() {
        if place % IN_A_REGION == 0 {
            region = numbers.place();
        }
        let leaf = leaf_at(place_near(region.position, numbers.next()));
        let cell = cell_round(leaf, (22 + numbers.next() % 5) as u8);
        inputs.close.push(cell)?;
    }
    Ok(())
}

// The position in the region round another at a distance from the region's start.
fn place_near(position: u64, distance: u64) -> u64
    requires { position < 6 * 2 ^ 60 }
    ensures { result < 6 * 2 ^ 60 }
{
    position / REGION * REGION + distance % REGION
}

// The cell of a level round a leaf.
fn cell_round(leaf: Leaf, level: u8) -> CellId
    requires { level ≤ 30 }
    ensures { level_of result ≡ level }
{
    CellId::of_leaf(leaf).parent(level)
}
