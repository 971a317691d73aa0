//! Requests to plan, in few words: as bytes, and as calls.

use crate::named::{Extent, id_of, operator_of};
use crate::texts::{PlanText, VolumeText, cells_member};
use anyhow::Context;
use desk_rules::call::{Asked, Call};
use desk_rules::plan::PutCall;
use desk_rules::words::{Aircraft, Style, Usage};
use std::alloc::{AllocError, Global};

/// What a request to plan asks, with one volume of cells.
#[derive(Clone, Copy, Debug)]
pub struct Ask<'l> {
    pub operator: &'l str,
    pub id: &'l str,
    pub style: &'l str,
    pub usage: &'l str,
    pub aircraft: &'l str,
    pub priority: &'l str,
    /// Decimetres.
    pub lower: &'l str,
    pub upper: &'l str,
    /// RFC 3339 texts for a request, Unix seconds for a call.
    pub start: &'l str,
    pub end: &'l str,
    /// S2 tokens with commas between.
    pub cells: &'l str,
}

impl<'l> Ask<'l> {
    /// The eleven words of an ask, in the order of its fields; None of any other number of words.
    pub fn of_words(words: &[&'l str]) -> Option<Ask<'l>> {
        match *words {
            [
                operator,
                id,
                style,
                usage,
                aircraft,
                priority,
                lower,
                upper,
                start,
                end,
                cells,
            ] => Some(Ask {
                operator,
                id,
                style,
                usage,
                aircraft,
                priority,
                lower,
                upper,
                start,
                end,
                cells,
            }),
            _ => None,
        }
    }

    /// The body of the request, in JSON.
    pub fn body(&self, alloc: Global) -> Result<String, AllocError> {
        let footprint = cells_member(alloc, self.cells)?;
        let volume = VolumeText {
            lower: self.lower,
            upper: self.upper,
            start: self.start,
            end: self.end,
            footprint: &footprint,
        };
        let area = format!(in alloc; "{volume}")?;
        let plan = PlanText {
            style: self.style,
            usage: self.usage,
            aircraft: self.aircraft,
            priority: self.priority,
            area: &area,
        };
        format!(in alloc; "{plan}")
    }

    /// The call.
    pub fn call(&self, alloc: Global) -> anyhow::Result<Asked> {
        let operator = operator_of(self.operator)?;
        let put = PutCall {
            id: id_of(self.id)?,
            style: style_of(self.style).context("no style")?,
            usage: usage_of(self.usage).context("no usage")?,
            aircraft: aircraft_of(self.aircraft).context("no aircraft state")?,
            priority: self.priority.parse()?,
            area: self.extent().area(alloc)?,
        };
        Ok(Asked {
            operator,
            call: Call::Put(put),
        })
    }

    // The extent.
    fn extent(&self) -> Extent<'l> {
        Extent {
            lower: self.lower,
            upper: self.upper,
            start: self.start,
            end: self.end,
            cells: self.cells,
        }
    }
}

fn style_of(word: &str) -> Option<Style> {
    match word {
        "Hypothetical" => Some(Style::Hypothetical),
        "IfAllowed" => Some(Style::IfAllowed),
        "InReality" => Some(Style::InReality),
        _ => None,
    }
}

fn usage_of(word: &str) -> Option<Usage> {
    match word {
        "Planned" => Some(Usage::Planned),
        "InUse" => Some(Usage::InUse),
        "Closed" => Some(Usage::Closed),
        _ => None,
    }
}

fn aircraft_of(word: &str) -> Option<Aircraft> {
    match word {
        "Nominal" => Some(Aircraft::Nominal),
        "OffNominal" => Some(Aircraft::OffNominal),
        "Contingent" => Some(Aircraft::Contingent),
        _ => None,
    }
}
