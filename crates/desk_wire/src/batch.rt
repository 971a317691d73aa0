//! Batches: a list of requests answered in order.

ghost use Rattle.std.specs.Prelude.{◌≡◌, ◌≤◌, IfOk, OnErr, OnOk, map};
ghost use Rattle.desk_store.specs.Changes.{Remembers, IsHonest};
ghost use Rattle.desk_run.specs.{Calls.FindsOnly, Verdicts.world_of};
ghost use Rattle.desk_wire.specs.{Bytes.AreAnswers, Bytes.sent_in, Bytes.texts_in, Bytes.HaveCause, Given.answered, Given.IsFoundInRequests, Given.SparesQuiet};

use crate::answering::answer_request;
use crate::response::Answer;
use desk_run::Desk;
use desk_store::PlanStore;
use io_ends::Moment;
use request_parser::read_message;
use std::alloc::{AllocError, Global};

/// The answers to a list of requests, in its order, as far as they were made.
#[derive(Debug, Drop)]
pub struct Answers {
    /// Each is a whole HTTP response.
    pub answers: Vec<Vec<u8>>,
    /// Why there are no more of them.
    pub ended: AnswersEnd,
}

impl Answers {
    /// A copy of these answers.
    ///
    /// # Errors
    ///
    /// `AllocError` if memory runs out.
    pub fn copy(&self) -> Result<Answers, AllocError>
        ensures answers { IfOk result (λ copy. map (λ v. v.items) copy.answers.items
            ≡ map (λ v. v.items) self.now.answers.items) }
        ensures ended { IfOk result (λ copy. copy.ended ≡ self.now.ended) }
    {
        let answers = copy_answers(&self.answers)?;
        let ended = self.ended;
        let copy = Answers { answers, ended };
        Ok(copy)
    }
}

// A copy of each answer, in their order.
fn copy_answers(answers: &Vec<Vec<u8>>) -> Result<Vec<Vec<u8>>, AllocError>
    ensures { IfOk result (λ copies. map (λ v. v.items) copies.items
        ≡ map (λ v. v.items) answers.now.items) }
{
    let alloc = *answers.allocator();
    let mut copies = Vec::new(alloc);
    for answer in answers {
        copies.push(Vec::from_slice(alloc, answer)?)?;
    }
    Ok(copies)
}

/// Why there are no more answers.
#[derive(Clone, Copy, Debug, PartialEq, Eq)]
pub enum AnswersEnd {
    /// All requests are answered.
    All,
    /// The last answer has the status 500.
    Broken,
    /// Memory ran out before the next request was carried out; it changed nothing.
    NoMemory,
}

/// Answers `requests` in order, each the bytes of one whole request with its moment, until an answer has the
/// status 500, or memory runs out before a request is carried out.
///
/// # Errors
///
/// `AllocError` if the list of answers can't be allocated, before any request: nothing changed.
pub fn answer_all<S: PlanStore>(
    alloc: Global,
    desk: &mut Desk<S>,
    requests: &[(Moment, Vec<u8>)],
) -> Result<Answers, AllocError>
    ensures answers { IsHonest (S.doubt desk.new.store) → IfOk result (λ a. AreAnswers a.ended
        (world_of S.content desk.old) (sent_in requests.now) (texts_in a) (world_of S.content desk.new)) }
    ensures quiet { IsHonest (S.doubt desk.new.store) → OnOk result (SparesQuiet
        (world_of S.content desk.old) (sent_in requests.now) (world_of S.content desk.new)) }
    ensures kept { IfOk result (λ a. FindsOnly S.PlanStore desk.old desk.new (IsFoundInRequests
        (world_of S.content desk.old) (sent_in requests.now) (answered a.ended (texts_in a)))) }
    ensures err { OnErr result (world_of S.content desk.new ≡ world_of S.content desk.old) }
    ensures remembered { Remembers S.doubt S.faults S.is_shielded desk.old.store desk.new.store }
    ensures cause { IfOk result (λ a. HaveCause a (S.faults desk.old.store) (S.faults desk.new.store)) }
{
    let mut answers = Vec::with_capacity(alloc, requests.len())?;
    for (moment, text) in requests {
        let answer = answer_request(alloc, desk, *moment, &read_message(text));
        let Ok(Answer { bytes, error, .. }) = answer else {
            return Ok(Answers {
                answers,
                ended: AnswersEnd::NoMemory,
            });
        };
        answers.push_reserved(bytes);
        if error.is_some() {
            return Ok(Answers {
                answers,
                ended: AnswersEnd::Broken,
            });
        }
    }
    Ok(Answers {
        answers,
        ended: AnswersEnd::All,
    })
}
