//! The parser of requests: from the bytes of one whole request to the operator and its call, or the first
//! fault. A call is a request after it is read.
//!
//! A request is a head and a body (RFC 9112). The head has a method, a target (the path, and maybe a query)
//! and fields, and ends with an empty line. The body is JSON, as InterUSS flight_planning v1 has it. A
//! request is checked in this order, up to the first fault: framing, head, path, method, operator, plan id,
//! body.
#![tactic(auto)]

mod address;
mod clear_in;
mod fields;
mod framing;
mod head;
mod json_in;
pub mod laws;
mod message;
mod put_in;
mod request;
mod resource;
mod routes;
mod times;
mod volume_in;
mod wire_fault;

pub use framing::{HEAD_ROOM, is_ended};
pub use message::{Front, Message, read_front, read_message};
pub use request::{parse_message, read_request};
pub use resource::{Action, Route};
pub use wire_fault::{ReadError, WireFault};
