//! The changes that a store can make.

ghost use Rattle.std.specs.Prelude.{◌≡◌, IfOk};
ghost use Rattle.desk_store.specs.Changes.{parts_in};

use desk_rules::operator::Operator;
use desk_rules::plan::PlanRow;
use desk_rules::plan_id::PlanId;
use std::alloc::AllocError;

/// A change of the operators and plans in a store.
#[derive(Debug, Drop)]
pub enum Change {
    /// Enrols the operator with this ceiling, or replaces its ceiling. Its plans stay.
    Enrol {
        operator: Operator,
        ceiling: u32,
    },
    /// Stores the row, in place of the operator's plan with its id, if there is one.
    Put {
        operator: Operator,
        row: PlanRow,
    },
    /// Gives the operator's plan with this id the usage `Closed`. All else of the plan stays.
    Close {
        operator: Operator,
        id: PlanId,
    },
    /// Removes the operator's plans with these ids.
    Clear {
        operator: Operator,
        ids: Vec<PlanId>,
    },
}

impl Change {
    /// A copy of the change, in memory of its own.
    ///
    /// # Errors
    ///
    /// `AllocError` if memory runs out.
    pub fn copy(&self) -> Result<Change, AllocError>
        ensures { IfOk result (λ copy. parts_in copy ≡ parts_in self.now) }
    {
        match self {
            &Change::Enrol { operator, ceiling } => Ok(Change::Enrol { operator, ceiling }),
            Change::Put { operator, row } => Ok(Change::Put {
                operator: *operator,
                row: row.copy()?,
            }),
            &Change::Close { operator, id } => Ok(Change::Close { operator, id }),
            Change::Clear { operator, ids } => Ok(Change::Clear {
                operator: *operator,
                ids: ids.clone()?,
            }),
        }
    }
}
