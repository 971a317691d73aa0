//! What a store holds, as a text.

use crate::named::operator_of;
use crate::stops::moving::Reported;
use anyhow::bail;
use desk_rules::plan::PlanRow;
use desk_store::PlanStore;
use sqlite::Row;
use std::alloc::Global;
use std::fmt::Write;

/// The operators whose ceilings and plans are looked at.
const OPERATORS: [&str; 3] = ["alfa", "bravo", "charlie"];

/// What a store holds.
#[derive(Debug, Drop, PartialEq, Eq)]
pub struct Content {
    text: String,
    plans: usize,
}

impl Content {
    /// Nothing.
    pub fn none(alloc: Global) -> Content {
        Content {
            text: String::new(alloc),
            plans: 0,
        }
    }

    /// What a store holds of the operators.
    pub fn of<S: PlanStore>(alloc: Global, store: &mut S) -> anyhow::Result<Content> {
        let mut content = Content::none(alloc);
        for name in OPERATORS {
            content.read(store, name)?;
        }
        Ok(content)
    }

    // Appends what a store holds of an operator.
    fn read<S: PlanStore>(&mut self, store: &mut S, name: &str) -> anyhow::Result<()> {
        let operator = operator_of(name)?;
        let Ok(ceiling) = store.ceiling(&operator) else {
            bail!("a ceiling can't be read");
        };
        let Ok(rows) = store.own_plans(&operator) else {
            bail!("plans can't be read");
        };
        self.append(name, ceiling, &rows)
    }

    fn append(&mut self, name: &str, ceiling: Option<u32>, rows: &[PlanRow]) -> anyhow::Result<()> {
        writeln!(self.text, "{name} {ceiling:?} {rows:?}")?;
        self.plans = self.plans.saturating_add(rows.len());
        Ok(())
    }

    /// Appends the rows of a table.
    pub fn add_rows(&mut self, table: &str, rows: &[Row]) -> anyhow::Result<()> {
        writeln!(self.text, "{table} {rows:?}")?;
        if table == "plan" {
            self.plans = rows.len();
        }
        Ok(())
    }

    /// Appends what is said of it.
    pub fn report(&mut self, reported: &Reported) -> anyhow::Result<()> {
        writeln!(self.text, "{reported}")?;
        Ok(())
    }

    /// How many plans there are.
    pub fn plans(&self) -> usize {
        self.plans
    }
}
