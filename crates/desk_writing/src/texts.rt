//! The bytes of answers: HTTP/1.1 responses. A function that can fail does so only if memory runs out.
ghost use Rattle.std.specs.Prelude.{◌≡◌, ◌≤◌, IfOk, None, codes, false, length, option_map, string_bytes};
ghost use Rattle.serde_json.specs.{View.view, Written.has_float};
ghost use Rattle.desk_rules.specs.Outcome.{said_in};
ghost use Rattle.desk_writing.specs.ReplyText.{allow_line, answer_text, error_text, json_answer, reply_text};

use crate::json_out::{error_value, reply_value};
use desk_rules::reply::Reply;
use http::StatusCode;
use serde_json::Value;
use std::alloc::{AllocError, Global};

/// The response for `reply`, with the status 200, also if a rule refused the request.
///
/// # Errors
///
/// `AllocError` if memory runs out.
#[tactic(auto, unfolding(crate::specs::ReplyText::reply_text))]
pub fn reply_answer(alloc: Global, reply: &Reply) -> Result<Vec<u8>, AllocError>
    ensures { IfOk result (λ v. v.items ≡ reply_text (said_in reply.now)) }
{
    let value = reply_value(alloc, reply)?;
    json_answer(alloc, StatusCode::OK, None, &value)
}

/// The response with an error: its status code, and `word` as the error code in its body. `allow` has the
/// resource's methods if the status is 405, and else is `None`.
///
/// # Errors
///
/// `AllocError` if memory runs out.
#[tactic(auto, unfolding(crate::specs::ReplyText::error_text))]
pub fn error_answer(
    alloc: Global,
    status: StatusCode,
    allow: Option<&str>,
    word: &str,
) -> Result<Vec<u8>, AllocError>
    ensures { IfOk result (λ v. v.items
        ≡ error_text status (option_map (λ s. s.now) allow.entry) word.now) }
{
    let value = error_value(alloc, word)?;
    json_answer(alloc, status, allow, &value)
}

/// The response if memory ran out: status 500, error code `out_of_memory`. It is static, since nothing can be
/// allocated then. It has at most 512 bytes, as many as are reserved for it before a request is carried out.
pub fn out_of_memory_answer() -> &'static [u8]
    ensures value { result.now ≡ error_text 500 None (codes "out_of_memory") }
    ensures fits { length result.now ≤ 512 }
{
    b"HTTP/1.1 500 Internal Server Error\r\ncontent-type: application/json\r\n\
    content-length: 25\r\nconnection: close\r\n\r\n{\"error\":\"out_of_memory\"}"
}

/// The response if the store failed: status 500, error code `store`. It is static, so it can be sent even if
/// memory is short. It has at most 512 bytes, as many as are reserved for it before a request is carried out.
pub fn store_answer() -> &'static [u8]
    ensures value { result.now ≡ error_text 500 None (codes "store") }
    ensures fits { length result.now ≤ 512 }
{
    b"HTTP/1.1 500 Internal Server Error\r\ncontent-type: application/json\r\n\
    content-length: 17\r\nconnection: close\r\n\r\n{\"error\":\"store\"}"
}

// The response with this status, whose body is `value` as JSON without white space; `allow` is as in
// `error_answer`. `value` has no floating-point number: how one is printed isn't specified.
#[tactic(auto, unfolding(crate::specs::ReplyText::json_answer))]
fn json_answer(
    alloc: Global,
    status: StatusCode,
    allow: Option<&str>,
    value: &Value,
) -> Result<Vec<u8>, AllocError>
    requires { has_float (view value.now) ≡ false }
    ensures { IfOk result (λ v. v.items
        ≡ json_answer status (option_map (λ s. s.now) allow.entry) (view value.now)) }
{
    let body = value.to_string(alloc)?;
    Ok(response_text(alloc, status, allow, body.as_str())?.into_bytes())
}

// The response with this status and this body, which has to be JSON, since the head says so. `allow` is as in
// `error_answer`.
fn response_text(
    alloc: Global,
    status: StatusCode,
    allow: Option<&str>,
    body: &str,
) -> Result<String, AllocError>
    ensures { IfOk result (λ s. string_bytes s
        ≡ answer_text status (option_map (λ s. s.now) allow.entry) body.now) }
{
    let length = body.len();
    let allow = allow_line(alloc, allow)?;
    format!(in alloc;
        "HTTP/1.1 {status}\r\ncontent-type: application/json\r\n\
        content-length: {length}\r\n{allow}connection: close\r\n\r\n{body}"
    )
}

// The line of the field `allow`, with its CR LF, if `allow` has a resource's methods; the empty text if it is
// `None`.
fn allow_line(alloc: Global, allow: Option<&str>) -> Result<String, AllocError>
    ensures { IfOk result (λ s. string_bytes s ≡ allow_line (option_map (λ s. s.now) allow.entry)) }
{
    match allow {
        Some(methods) => format!(in alloc; "allow: {methods}\r\n"),
        None => Ok(String::new(alloc)),
    }
}
