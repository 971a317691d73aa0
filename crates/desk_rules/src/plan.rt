//! Stored plans, and requests to plan.

ghost use Rattle.std.specs.Prelude.{◌≡◌, ◌*◌, ◌≤◌, IfOk};
ghost use Rattle.std.specs.Option.{option_copied};
ghost use Rattle.volume4d.specs.VolumeLimits.{max_cover, max_volumes};
ghost use Rattle.desk_rules.specs.Outcome.{row_cells, row_spans};
ghost use Rattle.desk_rules.specs.Outcome as spec;

use crate::plan_id::PlanId;
use crate::words::{Aircraft, Style, Usage};
use std::alloc::AllocError;
use volume4d::Area;

/// A stored plan of an operator.
#[derive(Debug, Drop)]
pub struct PlanRow {
    /// The id that the operator chose.
    pub id: PlanId,
    /// The priority, 0 to 1,000; of two plans the one with the higher priority goes first
    /// (ASTM F3548-21).
    pub priority: u32,
    /// Whether the flight is planned, in use or closed.
    pub usage: Usage,
    /// The last reported state of the aircraft.
    pub aircraft: Aircraft,
    /// Where and when the flight is.
    pub area: Area,
}

/// The states of a plan: all of a stored plan that the state table and the order of refusals depend on.
#[derive(Clone, Copy, Debug, PartialEq, Eq)]
pub struct States {
    /// Whether the flight is planned, in use or closed.
    pub usage: Usage,
    /// The last reported state of the aircraft.
    pub aircraft: Aircraft,
}

/// A request to plan, activate, change or close a flight.
#[derive(Debug, Drop)]
pub struct PutCall {
    /// The id of the plan.
    pub id: PlanId,
    /// How the request is to be carried out.
    pub style: Style,
    /// The requested usage.
    pub usage: Usage,
    /// The state of the aircraft.
    pub aircraft: Aircraft,
    /// The requested priority; of two plans the one with the higher priority goes first
    /// (ASTM F3548-21).
    pub priority: u32,
    /// Where and when the flight is.
    pub area: Area,
}

impl PlanRow {
    /// An equal plan, in memory of its own.
    ///
    /// # Errors
    ///
    /// `AllocError` if memory runs out.
    pub fn copy(&self) -> Result<PlanRow, AllocError>
        ensures { IfOk result (λ copy. copy ≡ self.now) }
    {
        Ok(PlanRow {
            id: self.id,
            priority: self.priority,
            usage: self.usage,
            aircraft: self.aircraft,
            area: self.area.copy()?,
        })
    }

    /// How many spans the plan has, at most 32,768. While the plan is live it has one for each range of
    /// leaves of each of its volumes along the S2 curve. Once it is closed it has none.
    pub fn span_count(&self) -> u32
        ensures value { result ≡ row_spans self.now }
        ensures few { result ≤ max_volumes * max_cover }
    {
        if self.usage.is_live() {
            self.area.span_count()
        } else {
            0
        }
    }

    /// How many cells the plan has, at most 32,768: for each of its volumes those of its cell list, or of the
    /// canonical cover of its rectangle. A closed plan keeps them.
    pub fn cell_count(&self) -> u32
        ensures value { result ≡ row_cells self.now }
        ensures few { result ≤ max_volumes * max_cover }
    {
        self.area.cell_count()
    }

    /// The usage of the plan and the state of its aircraft.
    pub fn states(&self) -> States
        ensures { result ≡ spec.states_in self.now }
    {
        States {
            usage: self.usage,
            aircraft: self.aircraft,
        }
    }
}

/// The states of the plan `stored`, or `None` if no plan is stored.
pub fn states_of(stored: Option<&PlanRow>) -> Option<States>
    ensures { result ≡ spec.states_of (option_copied stored.entry) }
{
    stored.map(PlanRow::states)
}

impl PutCall {
    /// An equal request, in memory of its own.
    ///
    /// # Errors
    ///
    /// `AllocError` if memory runs out.
    pub fn copy(&self) -> Result<PutCall, AllocError>
        ensures { IfOk result (λ copy. copy ≡ self.now) }
    {
        Ok(PutCall {
            id: self.id,
            style: self.style,
            usage: self.usage,
            aircraft: self.aircraft,
            priority: self.priority,
            area: self.area.copy()?,
        })
    }
}
