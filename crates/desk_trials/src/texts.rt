//! Requests as texts.

use std::alloc::{AllocError, Global};
use std::fmt::{self, Display, Formatter, Write};

/// A request of HTTP/1.1.
#[derive(Clone, Copy, Debug)]
pub struct RequestText<'l> {
    pub method: &'l str,
    pub target: &'l str,
    /// Lines of header fields beside `host` and `content-length`, each with its end.
    pub fields: &'l str,
    pub body: &'l str,
}

impl RequestText<'_> {
    /// The bytes of the request.
    pub fn bytes(&self, alloc: Global) -> Result<Vec<u8>, AllocError> {
        let RequestText {
            method,
            target,
            fields,
            body,
        } = self;
        let length = body.len();
        let text = format!(in alloc;
            "{method} {target} HTTP/1.1\r\nhost: desk\r\n{fields}content-length: {length}\r\n\r\n{body}"
        )?;
        Ok(text.into_bytes())
    }
}

/// The bytes of an operator's request.
pub fn request_bytes(
    alloc: Global,
    method: &str,
    target: &str,
    operator: &str,
    body: &str,
) -> Result<Vec<u8>, AllocError> {
    let fields = operator_field(alloc, operator)?;
    let request = RequestText {
        method,
        target,
        fields: &fields,
        body,
    };
    request.bytes(alloc)
}

// The header field that names an operator.
fn operator_field(alloc: Global, operator: &str) -> Result<String, AllocError> {
    format!(in alloc; "x-operator: {operator}\r\n")
}

/// The body of a request to plan, in JSON.
#[derive(Clone, Copy, Debug)]
pub struct PlanText<'l> {
    pub style: &'l str,
    pub usage: &'l str,
    pub aircraft: &'l str,
    pub priority: &'l str,
    /// Volumes with commas between.
    pub area: &'l str,
}

impl Display for PlanText<'_> {
    fn fmt<W: Write>(&self, f: &mut Formatter<W>) -> fmt::Result {
        let PlanText {
            style,
            usage,
            aircraft,
            priority,
            area,
        } = self;
        write!(
            f,
            "{{\"execution_style\":\"{style}\",\"flight_plan\":{{\
            \"astm_f3548_21\":{{\"priority\":{priority}}},\"basic_information\":{{\"area\":[{area}],\
            \"uas_state\":\"{aircraft}\",\"usage_state\":\"{usage}\"}}}},\"request_id\":\"r1\"}}"
        )
    }
}

/// A volume of a request, in JSON.
#[derive(Clone, Copy, Debug)]
pub struct VolumeText<'l> {
    /// Decimetres.
    pub lower: &'l str,
    pub upper: &'l str,
    /// RFC 3339.
    pub start: &'l str,
    pub end: &'l str,
    /// The member that has the cells or the rectangle.
    pub footprint: &'l str,
}

impl Display for VolumeText<'_> {
    fn fmt<W: Write>(&self, f: &mut Formatter<W>) -> fmt::Result {
        let VolumeText {
            lower,
            upper,
            start,
            end,
            footprint,
        } = self;
        write!(
            f,
            "{{\"time_end\":{{\"format\":\"RFC3339\",\"value\":\"{end}\"}},\
            \"time_start\":{{\"format\":\"RFC3339\",\"value\":\"{start}\"}},\
            \"volume\":{{\"altitude_lower\":{lower},\"altitude_upper\":{upper},{footprint}}}}}"
        )
    }
}

/// The member of a volume that has the cells of S2 tokens with commas between.
pub fn cells_member(alloc: Global, tokens: &str) -> Result<String, AllocError> {
    let quoted = tokens.replace(alloc, ",", "\",\"")?;
    format!(in alloc; "\"cells\":[\"{quoted}\"]")
}
