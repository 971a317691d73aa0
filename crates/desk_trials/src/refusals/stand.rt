//! A desk at which calls are made.

use crate::desks::{CEILING, MOMENT};
use crate::refusals::asked::{Asked, LISTS, Request};
use desk_rules::call;
use desk_rules::operator::Operator;
use desk_run::{Desk, Outcome};
use desk_store::PlanStore;
use desk_wire::{AnswersEnd, answer, answer_all, read_request};
use desk_writing::out_of_memory_answer;
use std::alloc::Global;
use std::io::Write;

/// A desk over a store.
#[derive(Drop)]
pub struct Stand<S> {
    desk: Desk<S>,
    alloc: Global,
}

impl<S> Stand<S> {
    /// A desk over a store.
    pub fn new(alloc: Global, store: S) -> Stand<S> {
        Stand {
            desk: Desk::new(store),
            alloc,
        }
    }

    /// The store.
    pub fn into_store(self) -> S {
        self.desk.into_store()
    }
}

impl<S: PlanStore> Stand<S> {
    /// What is said to what is asked, without the end of its last line, or None if memory was refused.
    /// Nothing grows after a change of the desk, so no call that changed it is said of as refused.
    pub fn said(&mut self, asked: &Asked) -> Option<Vec<u8>> {
        match asked {
            Asked::Enrol(name) => self.enrol(name),
            Asked::Answer(request) => self.answer(request),
            Asked::AnswerBoth(one, other) => self.answer_both(one, other),
            Asked::RunBoth(one, other) => self.run_both(one, other),
        }
    }

    /// What a List of each operator answers.
    pub fn lists(&mut self) -> Option<Vec<u8>> {
        let mut said = Vec::new(self.alloc);
        for request in &LISTS {
            said.extend_from_slice(&self.answer(request)?).ok()?;
            said.push(b'\n').ok()?;
        }
        Some(said)
    }

    fn enrol(&mut self, name: &str) -> Option<Vec<u8>> {
        let operator = Operator::try_new(name.as_bytes())?;
        let said = Vec::from_slice(self.alloc, b"enrolled").ok()?;
        self.desk.enrol(&operator, CEILING).ok()?;
        Some(said)
    }

    // The answer to a request.
    fn answer(&mut self, request: &Request) -> Option<Vec<u8>> {
        let text = request.text(self.alloc).ok()?;
        let bytes = answer(self.alloc, &mut self.desk, MOMENT, &text).ok()?;
        if bytes.as_slice() == out_of_memory_answer() {
            return None;
        }
        Some(bytes)
    }

    // The answers to two requests.
    fn answer_both(&mut self, one: &Request, other: &Request) -> Option<Vec<u8>> {
        let one = one.text(self.alloc).ok()?;
        let other = other.text(self.alloc).ok()?;
        let requests = [(MOMENT, one), (MOMENT, other)];
        let answers = answer_all(self.alloc, &mut self.desk, &requests).ok()?;
        if answers.ended != AnswersEnd::All {
            return None;
        }
        joined(self.alloc, &answers.answers)
    }

    // What two calls came to.
    fn run_both(&mut self, one: &Request, other: &Request) -> Option<Vec<u8>> {
        let calls = [
            (MOMENT.second, call_of(self.alloc, one)?),
            (MOMENT.second, call_of(self.alloc, other)?),
        ];
        let ran = self.desk.run(self.alloc, &calls).ok()?.copy().ok()?;
        if ran.stopped.is_some() {
            return None;
        }
        outcomes_said(self.alloc, &ran.outcomes)
    }
}

// Answers, each on lines of its own.
fn joined(alloc: Global, answers: &[Vec<u8>]) -> Option<Vec<u8>> {
    let mut said = Vec::new(alloc);
    for answer in answers {
        if !said.is_empty() {
            said.push(b'\n').ok()?;
        }
        said.extend_from_slice(answer).ok()?;
    }
    Some(said)
}

// The call that a request asks.
fn call_of(alloc: Global, request: &Request) -> Option<call::Asked> {
    let text = request.text(alloc).ok()?;
    read_request(alloc, &text).ok()
}

// Outcomes, each on a line.
fn outcomes_said(alloc: Global, outcomes: &[Outcome]) -> Option<Vec<u8>> {
    let mut said = Vec::new(alloc);
    for outcome in outcomes {
        let line_end = if said.is_empty() { "" } else { "\n" };
        write!(said, "{line_end}{outcome:?}").ok()?;
    }
    Some(said)
}
