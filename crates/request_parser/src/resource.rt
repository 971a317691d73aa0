//! The resources of the interface, by their paths, with their methods.

ghost use Rattle.std.specs.Prelude.{◌≡◌};
ghost use Rattle.request_parser.specs.Routes as spec;

/// A resource of the interface, by its path.
#[derive(Clone, Copy, Debug, PartialEq, Eq)]
pub enum Route {
    /// `/status`
    Status,
    /// `/flight_plans`
    FlightPlans,
    /// `/flight_plans/{flight_plan_id}`
    FlightPlan,
    /// `/clear_area_requests`
    ClearAreaRequests,
}

/// What a request does: a method of a resource.
#[derive(Clone, Copy, Debug, PartialEq, Eq)]
pub enum Action {
    /// Asks whether the desk is ready.
    Status,
    /// Lists the operator's plans.
    List,
    /// Shows a plan.
    Show,
    /// Plans, activates, changes or closes a flight.
    Put,
    /// Closes a plan.
    Delete,
    /// Removes the operator's plans in a volume.
    Clear,
}

impl Route {
    /// The action of `method` at this resource; `None` if the resource has no such method. Methods are
    /// case-sensitive.
    #[tactic(auto, unfolding(crate::specs::Routes::action_of))]
    pub fn action(self, method: &[u8]) -> Option<Action>
        ensures { result ≡ spec.action_of self method.now }
    {
        match (self, method) {
            (Route::Status, b"GET") => Some(Action::Status),
            (Route::FlightPlans, b"GET") => Some(Action::List),
            (Route::FlightPlan, b"DELETE") => Some(Action::Delete),
            (Route::FlightPlan, b"GET") => Some(Action::Show),
            (Route::FlightPlan, b"PUT") => Some(Action::Put),
            (Route::ClearAreaRequests, b"POST") => Some(Action::Clear),
            _ => None,
        }
    }

    /// The methods of this resource, as the field `allow` of an answer 405 lists them (RFC 9110, section
    /// 10.2.1).
    pub fn allow(self) -> &'static str
        ensures { result.now ≡ spec.allow_text self }
    {
        match self {
            Route::Status | Route::FlightPlans => "GET",
            Route::FlightPlan => "DELETE, GET, PUT",
            Route::ClearAreaRequests => "POST",
        }
    }
}
