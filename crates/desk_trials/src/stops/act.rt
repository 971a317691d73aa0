//! Changes of a store, asked of itself or of a desk over it.

use crate::named::{Extent, id_of, operator_of};
use anyhow::Context;
use desk_rules::call::{Asked, Call};
use desk_rules::operator::Operator;
use desk_rules::plan::{PlanRow, PutCall};
use desk_rules::plan_id::PlanId;
use desk_rules::words::{Aircraft, Style, Usage};
use desk_store::Change;
use std::alloc::Global;

/// A change, asked of a store or of a desk over it.
///
/// EXTENT is `LOWER UPPER START END TOKEN`: decimetres, Unix seconds and a cell.
#[derive(Debug, Drop)]
pub enum Act {
    /// `store enrol OPERATOR CEILING`, `store put OPERATOR ID PRIORITY EXTENT`, `store close OPERATOR ID`.
    Apply(Change),
    /// `store clear OPERATOR ID ID`.
    ClearBoth {
        operator: Operator,
        one: PlanId,
        other: PlanId,
    },
    /// `desk enrol OPERATOR CEILING`.
    Enrol {
        operator: Operator,
        ceiling: u32,
    },
    /// `desk put OPERATOR ID PRIORITY EXTENT`, `desk delete OPERATOR ID`, `desk clear OPERATOR EXTENT`.
    Call(Asked),
}

impl Act {
    /// The change that some words ask.
    pub fn parse(alloc: Global, words: &[&str]) -> anyhow::Result<Act> {
        match words {
            ["store", "clear", operator, one, other] => Ok(Act::ClearBoth {
                operator: operator_of(operator)?,
                one: id_of(one)?,
                other: id_of(other)?,
            }),
            ["store", kind, operator, words @ ..] => {
                let operator = operator_of(operator)?;
                Ok(Act::Apply(change_of(alloc, kind, operator, words)?))
            }
            ["desk", "enrol", operator, ceiling] => Ok(Act::Enrol {
                operator: operator_of(operator)?,
                ceiling: ceiling.parse()?,
            }),
            ["desk", kind, operator, words @ ..] => {
                let operator = operator_of(operator)?;
                let call = call_of(alloc, kind, words)?;
                Ok(Act::Call(Asked { operator, call }))
            }
            _ => None.context("a change of no known form"),
        }
    }
}

// A change of a store.
fn change_of(
    alloc: Global,
    kind: &str,
    operator: Operator,
    words: &[&str],
) -> anyhow::Result<Change> {
    match (kind, words) {
        ("enrol", [ceiling]) => Ok(Change::Enrol {
            operator,
            ceiling: ceiling.parse()?,
        }),
        ("put", [id, priority, extent @ ..]) => Ok(Change::Put {
            operator,
            row: row_of(alloc, id, priority, extent)?,
        }),
        ("close", [id]) => Ok(Change::Close {
            operator,
            id: id_of(id)?,
        }),
        _ => None.context("a change of no known form"),
    }
}

// A call to a desk.
fn call_of(alloc: Global, kind: &str, words: &[&str]) -> anyhow::Result<Call> {
    match (kind, words) {
        ("put", [id, priority, extent @ ..]) => {
            Ok(Call::Put(put_of(row_of(alloc, id, priority, extent)?)))
        }
        ("delete", [id]) => Ok(Call::Delete(id_of(id)?)),
        ("clear", extent) => Ok(Call::Clear(extent_of(extent)?.volume(alloc)?)),
        _ => None.context("a call of no known form"),
    }
}

// A request to plan a row.
fn put_of(row: PlanRow) -> PutCall {
    PutCall {
        id: row.id,
        style: Style::IfAllowed,
        usage: row.usage,
        aircraft: row.aircraft,
        priority: row.priority,
        area: row.area,
    }
}

fn row_of(alloc: Global, id: &str, priority: &str, extent: &[&str]) -> anyhow::Result<PlanRow> {
    Ok(PlanRow {
        id: id_of(id)?,
        priority: priority.parse()?,
        usage: Usage::Planned,
        aircraft: Aircraft::Nominal,
        area: extent_of(extent)?.area(alloc)?,
    })
}

fn extent_of<'l>(words: &[&'l str]) -> anyhow::Result<Extent<'l>> {
    Extent::of_words(words).context("no extent")
}
