//! Errors of requests to which no rule of planning is applied.

ghost use Rattle.std.specs.Prelude.{◌≡◌, option_map};
ghost use Rattle.desk_wire.specs.Bytes as spec;

use http::StatusCode;
use request_parser::WireFault;

/// Why a request is answered with an error before any rule of planning is applied.
#[derive(Clone, Copy, Debug, PartialEq, Eq)]
pub enum Refusal {
    /// The request has this fault.
    Fault(WireFault),
    /// The operator is not enrolled.
    UnknownOperator,
    /// The operator has no plan with the id of the request.
    NoSuchPlan,
}

impl Refusal {
    /// The status code of the answer (RFC 9110, section 15).
    pub fn status(self) -> StatusCode
        ensures { result ≡ spec.refusal_status self }
    {
        match self {
            Refusal::Fault(fault) => fault.status(),
            Refusal::UnknownOperator => StatusCode::FORBIDDEN,
            Refusal::NoSuchPlan => StatusCode::NOT_FOUND,
        }
    }

    /// The error code in the answer's body, `{"error":WORD}`.
    pub fn word(self) -> &'static str
        ensures { result.now ≡ spec.refusal_word self }
    {
        match self {
            Refusal::Fault(fault) => fault.word(),
            Refusal::UnknownOperator => "unknown_operator",
            Refusal::NoSuchPlan => "no_such_plan",
        }
    }

    /// The methods that the field `allow` lists, if the status is 405 (RFC 9110, section 15.5.6); else None.
    pub fn allow(self) -> Option<&'static str>
        ensures { option_map (λ s. s.now) result ≡ spec.refusal_allow self }
    {
        match self {
            Refusal::Fault(fault) => fault.allow(),
            Refusal::UnknownOperator | Refusal::NoSuchPlan => None,
        }
    }
}
