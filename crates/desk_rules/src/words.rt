//! The words of InterUSS flight_planning v1 that the desk uses, and the desk's own reasons for
//! refusals.

ghost use Rattle.std.specs.Prelude.{◌≡◌};
ghost use Rattle.desk_rules.specs.Outcome as spec;

/// The use that an operator makes of a plan, `usage_state` of flight_planning v1.
#[derive(Clone, Copy, Debug, PartialEq, Eq)]
pub enum Usage {
    /// The flight is planned.
    Planned,
    /// The flight is under way.
    InUse,
    /// The flight is over.
    Closed,
}

impl Usage {
    /// Whether a plan in this state holds the points of its area against other plans: it is planned or in
    /// use.
    pub fn is_live(&self) -> bool
        ensures { result ≡ spec.is_live self.now }
    {
        matches!(self, Usage::Planned | Usage::InUse)
    }
}

/// The state of the aircraft, `uas_state` of flight_planning v1.
#[derive(Clone, Copy, Debug, PartialEq, Eq)]
pub enum Aircraft {
    /// The flight keeps to its plan.
    Nominal,
    /// The flight is off its plan.
    OffNominal,
    /// The flight needs a contingency procedure.
    Contingent,
}

/// How a request is to be carried out, `execution_style` of flight_planning v1.
#[derive(Clone, Copy, Debug, PartialEq, Eq)]
pub enum Style {
    /// Nothing is stored: the answer is that to `IfAllowed`.
    Hypothetical,
    /// The request is carried out if the rules allow it.
    IfAllowed,
    /// The request reports what has happened.
    InReality,
}

/// The status of a plan, `flight_plan_status` of flight_planning v1.
#[derive(Clone, Copy, Debug, PartialEq, Eq)]
pub enum PlanStatus {
    /// No plan is stored.
    NotPlanned,
    /// The plan is stored, and the flight has not begun.
    Planned,
    /// The flight is under way, and keeps to the plan.
    OkToFly,
    /// The flight is under way, and is off the plan.
    OffNominal,
    /// The plan is closed.
    Closed,
}

/// The result of a request, `planning_result` of flight_planning v1.
#[derive(Clone, Copy, Debug, PartialEq, Eq)]
pub enum PlanResult {
    /// The request was carried out.
    Completed,
    /// A rule refuses the request.
    Rejected,
    /// The desk does not offer this style for this request.
    NotSupported,
}

/// Why a request was refused. If several reasons apply, the desk reports the first in the order of the
/// variants; at most one of `State`, `Closed` and `NotPlanned` applies.
#[derive(Clone, Copy, Debug, PartialEq, Eq)]
pub enum Note {
    /// The style is not supported for the requested states.
    Style,
    /// The requested states may not follow those of the stored plan.
    State,
    /// The stored plan is closed.
    Closed,
    /// There is no plan to close.
    NotPlanned,
    /// A volume ends at or before the Unix second of the request.
    Ended,
    /// A volume starts more than 2,592,000 s after the request.
    Horizon,
    /// The priority is above the operator's ceiling.
    Priority,
    /// The operator already has 200 plans.
    PlansLimit,
    /// The operator's live plans would have more spans than the limit.
    SpansLimit,
    /// The operator's plans would have more cells than the limit.
    CellsLimit,
    /// Another plan blocks a point of the area.
    Conflict,
}
