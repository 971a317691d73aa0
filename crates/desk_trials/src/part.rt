//! The parts of the trials.

use anyhow::bail;

/// A part.
#[derive(Clone, Copy, Debug)]
pub enum Part {
    /// `cases`: worked cases over a list and over tables, of the standard input.
    Cases,
    /// `stops`: changes of files that stop, of the standard input.
    Stops,
    /// `refusals`: calls that are made again if they were refused for want of memory.
    Refusals,
}

impl Part {
    /// All parts, in the order of their stored run.
    pub const ALL: [Part; 3] = [Part::Cases, Part::Stops, Part::Refusals];

    /// The part of a name.
    pub fn of_name(name: &str) -> anyhow::Result<Part> {
        match name {
            "cases" => Ok(Part::Cases),
            "stops" => Ok(Part::Stops),
            "refusals" => Ok(Part::Refusals),
            _ => bail!("no part has this name"),
        }
    }

    /// Whether the part has a script.
    pub fn has_script(self) -> bool {
        match self {
            Part::Cases | Part::Stops => true,
            Part::Refusals => false,
        }
    }
}
