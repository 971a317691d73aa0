//! Requests as bytes, and the answers to them.

ghost use Rattle.std.specs.Prelude.{◌≡◌, IfOk, Ok};
ghost use Rattle.request_parser.specs.{Messages.GivesIfRoom, Messages.or_met, Requests.asked};
ghost use Rattle.desk_run.specs.Verdicts.{enrolled, new_world};
ghost use Rattle.desk_wire.specs.Bytes.{answers_to, sent_in, texts_in};

use crate::desks::desk_for;
use desk_rules::operator::Operator;
use desk_run::DeskFault;
use desk_wire::{Answers, AnswersEnd, Moment, answer_all};
use request_parser::{ReadError, read_request};
use std::alloc::Global;

/// The operator that the bytes of a whole request name.
///
/// # Errors
///
/// `OutOfMemory`, or the first fault of the request.
pub fn sender_of(alloc: Global, request: &[u8]) -> Result<Operator, ReadError>
    ensures { GivesIfRoom (λ operator. operator) result
        (or_met (asked request.now) (λ read. Ok read.operator)) }
{
    Ok(read_request(alloc, request)?.operator)
}

/// The answers of a new desk with one operator to requests, each with its moment: if all are answered, they
/// are decided by the requests alone.
///
/// # Errors
///
/// `Ceiling` if the ceiling is above 1,000, `OutOfMemory` if memory runs out.
pub fn answers_at_new_desk(
    alloc: Global,
    operator: &Operator,
    ceiling: u32,
    requests: &[(Moment, Vec<u8>)],
) -> Result<Answers, DeskFault>
    ensures { IfOk result (λ given. given.ended ≡ AnswersEnd.All → texts_in given
        ≡ answers_to (enrolled new_world operator.now ceiling) (sent_in requests.now)) }
{
    let mut desk = desk_for(alloc, operator, ceiling)?;
    Ok(answer_all(alloc, &mut desk, requests)?)
}
