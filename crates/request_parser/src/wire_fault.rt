//! Why a request is refused before it is parsed to a call.

ghost use Rattle.std.specs.Prelude.{◌≡◌, option_map};
ghost use Rattle.request_parser.specs.Routes as spec;
ghost use Rattle.request_parser.specs.declared.wire_fault.ReadError.TheVariants.{Fault, OutOfMemory};

use crate::resource::Route;
use http::StatusCode;
use std::alloc::{AllocError, AllocFailed};
use std::error::Error;
use std::fmt;

/// A fault of a request. Only the first one is reported: framing and head are checked first, then path,
/// method, operator, plan id and body.
#[derive(Clone, Copy, Debug, PartialEq, Eq)]
pub enum WireFault {
    /// No head ends within the first 16,384 bytes.
    HeadTooLarge,
    /// The head is not a whole request head, or the body is not as long as it says.
    BadHead,
    /// The head has a transfer-encoding field.
    TransferEncoding,
    /// The field content-length occurs more than once, or is not 1 to 19 digits.
    ContentLength,
    /// The content-length is greater than 131,072.
    BodyTooLarge,
    /// No resource has this path.
    NoRoute,
    /// The resource with this path has no such method.
    Method(Route),
    /// The field `x-operator` does not occur exactly once with an operator's name.
    BadOperator,
    /// The id in the path is not a UUID.
    BadPlanId,
    /// The body is not JSON.
    BadJson,
    /// A member of the body is missing or has a wrong form.
    BadMember,
    /// A volume is malformed or out of its limits, or there are too few or too many volumes.
    BadVolume,
    /// The cover of a rectangle has too many cells.
    TooManyCells,
}

impl WireFault {
    /// The status code of the answer (RFC 9110, section 15).
    pub fn status(self) -> StatusCode
        ensures { result ≡ spec.fault_status self }
    {
        match self {
            WireFault::HeadTooLarge | WireFault::BodyTooLarge => StatusCode::PAYLOAD_TOO_LARGE,
            WireFault::TransferEncoding => StatusCode::NOT_IMPLEMENTED,
            WireFault::NoRoute => StatusCode::NOT_FOUND,
            WireFault::Method(_) => StatusCode::METHOD_NOT_ALLOWED,
            WireFault::BadHead
            | WireFault::ContentLength
            | WireFault::BadOperator
            | WireFault::BadPlanId
            | WireFault::BadJson
            | WireFault::BadMember
            | WireFault::BadVolume
            | WireFault::TooManyCells => StatusCode::BAD_REQUEST,
        }
    }

    /// The error code in the answer's body, `{"error":WORD}`.
    pub fn word(self) -> &'static str
        ensures { result.now ≡ spec.fault_word self }
    {
        match self {
            WireFault::HeadTooLarge | WireFault::BodyTooLarge => "too_large",
            WireFault::BadHead | WireFault::ContentLength => "bad_head",
            WireFault::TransferEncoding => "transfer_encoding",
            WireFault::NoRoute => "no_route",
            WireFault::Method(_) => "method",
            WireFault::BadOperator => "bad_operator",
            WireFault::BadPlanId => "bad_plan_id",
            WireFault::BadJson => "bad_json",
            WireFault::BadMember => "bad_member",
            WireFault::BadVolume => "bad_volume",
            WireFault::TooManyCells => "too_many_cells",
        }
    }

    /// The methods of the resource, for the field `allow` of the answer, if the fault is `Method` (status
    /// 405; RFC 9110, section 15.5.6); else `None`.
    pub fn allow(self) -> Option<&'static str>
        ensures { option_map (λ s. s.now) result ≡ spec.fault_allow self }
    {
        match self {
            WireFault::Method(route) => Some(route.allow()),
            _ => None,
        }
    }
}

impl fmt::Display for WireFault {
    ghost use Rattle.std.specs.Prelude.{Some};

    ghost output = { λ fault. Some (spec.fault_text fault) };

    // The fault as a sentence, in lower case and without a full stop.
    fn fmt<W: fmt::Write>(&self, f: &mut fmt::Formatter<W>) -> fmt::Result {
        f.pad(match self {
            WireFault::HeadTooLarge => "the head is too large",
            WireFault::BadHead => "the head is malformed, or the body has another length",
            WireFault::TransferEncoding => "a transfer encoding is not supported",
            WireFault::ContentLength => "the content length is malformed",
            WireFault::BodyTooLarge => "the body is too large",
            WireFault::NoRoute => "no resource has this path",
            WireFault::Method(_) => "the resource has no such method",
            WireFault::BadOperator => "the operator's name is missing or malformed",
            WireFault::BadPlanId => "the id of the plan is not a UUID",
            WireFault::BadJson => "the body is not JSON",
            WireFault::BadMember => "a member of the body is missing or has a wrong form",
            WireFault::BadVolume => "a volume is malformed or out of its limits",
            WireFault::TooManyCells => "a rectangle takes too many cells",
        })
    }
}

impl Error for WireFault {}

/// Why a request could not be parsed.
#[derive(Clone, Copy, Debug, PartialEq, Eq)]
pub enum ReadError {
    /// Memory ran out.
    OutOfMemory,
    /// The request has this fault.
    Fault(WireFault),
}

impl fmt::Display for ReadError {
    ghost use Rattle.std.specs.Prelude.{Some};

    ghost output = { λ error. Some (spec.read_error_text error) };

    // The sentence of the fault, or that memory ran out.
    fn fmt<W: fmt::Write>(&self, f: &mut fmt::Formatter<W>) -> fmt::Result {
        match self {
            ReadError::OutOfMemory => f.pad("out of memory"),
            ReadError::Fault(fault) => fault.fmt(f),
        }
    }
}

impl Error for ReadError {}

impl From<AllocError> for ReadError {
    ghost from_gives = { λ _ e. e ≡ OutOfMemory };

    // An allocation failed, so memory ran out.
    fn from(_error: AllocError) -> ReadError {
        ReadError::OutOfMemory
    }
}

impl<T: Drop> From<AllocFailed<T>> for ReadError {
    ghost from_gives = { λ _ e. e ≡ OutOfMemory };

    // A `Vec` couldn't grow, so memory ran out. The value that was to be added is dropped.
    fn from(_error: AllocFailed<T>) -> ReadError {
        ReadError::OutOfMemory
    }
}

impl From<WireFault> for ReadError {
    ghost from_gives = { λ fault e. e ≡ Fault fault };

    // A fault of the request, as the error of reading it.
    fn from(fault: WireFault) -> ReadError {
        ReadError::Fault(fault)
    }
}
