//! Where cases are played: a desk, its moment, and what their steps do.

use crate::cases::ask::Ask;
use crate::cases::shown::{ShownPlan, ShownRun};
use crate::cases::step::Step;
use crate::desks;
use crate::empty_store::EmptyStore;
use crate::named::{id_of, operator_of};
use crate::texts::{RequestText, request_bytes};
use anyhow::Context;
use desk_rules::call::{Asked, Call};
use desk_rules::operator::Operator;
use desk_rules::permission::Permitted;
use desk_rules::plan::PlanRow;
use desk_rules::reply::Reply;
use desk_rules::terms::Terms;
use desk_rules::words::PlanResult;
use desk_run::{Desk, Outcome};
use desk_wire::answer;
use io_ends::Moment;
use std::alloc::{AllocError, Global};
use std::io::{self, Write};

/// A desk over a store, and its moment.
#[derive(Drop)]
pub struct Stage<S> {
    desk: Desk<S>,
    moment: Moment,
    // those of the desk
    terms: Terms,
    alloc: Global,
}

impl<S: EmptyStore> Stage<S> {
    /// An empty desk at the first moment.
    pub fn new(alloc: Global) -> anyhow::Result<Stage<S>> {
        let store = S::empty(alloc)?;
        Ok(Stage {
            desk: Desk::new(store),
            moment: Moment { second: 0 },
            terms: Terms::none(),
            alloc,
        })
    }

    /// Does what a step says, and prints what comes of it.
    pub fn play<W: Write>(&mut self, step: &Step<'_>, output: &mut W) -> anyhow::Result<()> {
        match step {
            Step::Case(name) => show_case(name, output),
            Step::Desk(enrolments) => self.begin(enrolments),
            Step::At(word) => self.set_moment(word),
            Step::Equal(list) => self.set_permitted(list, output),
            Step::Spans(word) => self.set_spans(word),
            Step::Cells(word) => self.set_cells(word),
            Step::Ask(ask) => self.send_ask(ask, output),
            Step::Request {
                method,
                target,
                operator,
                body,
            } => self.send_request(method, target, operator, body, output),
            Step::Raw(text) => self.send_raw(text, output),
            Step::Puts { count, ask } => self.put_many(count, ask, output),
            Step::Plans { operator } => self.show_plans(operator, output),
            _ => self.play_call(step, output),
        }
    }

    fn set_moment(&mut self, word: &str) -> anyhow::Result<()> {
        self.moment = Moment::try_new(word.parse()?).context("no moment")?;
        Ok(())
    }

    // Permits these priorities, or prints why they are refused.
    fn set_permitted<W: Write>(&mut self, list: &str, output: &mut W) -> anyhow::Result<()> {
        match Permitted::try_new(&numbers_in(self.alloc, list)?) {
            Ok(permitted) => self.set_terms(&Terms {
                permitted,
                ..self.terms
            }),
            Err(fault) => writeln!(output, "refused: {fault}")?,
        }
        Ok(())
    }

    // Takes the most spans of an operator's live plans; `-` if any number will do.
    fn set_spans(&mut self, word: &str) -> anyhow::Result<()> {
        let spans = most_in(word)?;
        self.set_terms(&Terms {
            spans,
            ..self.terms
        });
        Ok(())
    }

    // Takes the most cells of an operator's plans; `-` if any number will do.
    fn set_cells(&mut self, word: &str) -> anyhow::Result<()> {
        let cells = most_in(word)?;
        self.set_terms(&Terms {
            cells,
            ..self.terms
        });
        Ok(())
    }

    fn set_terms(&mut self, terms: &Terms) {
        self.terms = *terms;
        self.desk.set_terms(*terms);
    }

    // Makes the call of a step that makes one.
    fn play_call<W: Write>(&mut self, step: &Step<'_>, output: &mut W) -> anyhow::Result<()> {
        match asked_in(self.alloc, step)? {
            Some(asked) => self.call(asked, output),
            None => Ok(()),
        }
    }

    // A new desk with these enrolments, `NAME=CEILING ..`.
    fn begin(&mut self, enrolments: &str) -> anyhow::Result<()> {
        self.desk = Desk::new(S::empty(self.alloc)?);
        self.terms = Terms::none();
        for enrolment in enrolments.split_whitespace() {
            self.enrol(enrolment)?;
        }
        Ok(())
    }

    fn enrol(&mut self, enrolment: &str) -> anyhow::Result<()> {
        let (name, ceiling) = enrolment.split_once('=').context("no enrolment")?;
        desks::enrol(&mut self.desk, name, ceiling.parse()?)
    }

    // Sends the bytes of a request, and prints the answer.
    fn send<W: Write>(&mut self, text: &[u8], output: &mut W) -> anyhow::Result<()> {
        let bytes = answer(self.alloc, &mut self.desk, self.moment, text)?;
        output.write_all(&bytes)?;
        writeln!(output)?;
        Ok(())
    }

    fn send_ask<W: Write>(&mut self, ask: &Ask<'_>, output: &mut W) -> anyhow::Result<()> {
        let body = ask.body(self.alloc)?;
        let target = format!(in self.alloc; "/flight_plans/{}", ask.id)?;
        self.send_request("PUT", &target, ask.operator, &body, output)
    }

    fn send_request<W: Write>(
        &mut self,
        method: &str,
        target: &str,
        operator: &str,
        body: &str,
        output: &mut W,
    ) -> anyhow::Result<()> {
        let text = request_text(self.alloc, method, target, operator, body)?;
        self.send(&text, output)
    }

    fn send_raw<W: Write>(&mut self, text: &str, output: &mut W) -> anyhow::Result<()> {
        let text = text.replace(self.alloc, "\\r", "\r")?;
        let text = text.replace(self.alloc, "\\n", "\n")?;
        self.send(text.as_bytes(), output)
    }

    // Makes a call, and prints its outcome.
    fn call<W: Write>(&mut self, asked: Asked, output: &mut W) -> anyhow::Result<()> {
        let calls = vec![in self.alloc; (self.moment.second, asked)]?;
        let ran = self.desk.run(self.alloc, &calls)?;
        writeln!(output, "{}", ShownRun(&ran))?;
        Ok(())
    }

    // Makes many calls in one run, and prints how many of them are completed.
    fn put_many<W: Write>(
        &mut self,
        count: &str,
        ask: &Ask<'_>,
        output: &mut W,
    ) -> anyhow::Result<()> {
        let calls = self.many_calls(count.parse()?, ask)?;
        let ran = self.desk.run(self.alloc, &calls)?;
        writeln!(output, "{} completed", count_completed(&ran.outcomes))?;
        Ok(())
    }

    fn many_calls(&self, count: u16, ask: &Ask<'_>) -> anyhow::Result<Vec<(i64, Asked)>> {
        let lower: i32 = ask.lower.parse()?;
        let mut calls = Vec::new(self.alloc);
        for number in 0..count {
            let asked = numbered_call(self.alloc, ask, lower, number)?;
            calls.push((self.moment.second, asked))?;
        }
        Ok(calls)
    }

    // Prints what the store holds of an operator.
    fn show_plans<W: Write>(&mut self, operator: &str, output: &mut W) -> anyhow::Result<()> {
        let rows = self.stored_plans(&operator_of(operator)?)?;
        show_rows(&rows, output)?;
        Ok(())
    }

    fn stored_plans(&mut self, operator: &Operator) -> anyhow::Result<Vec<PlanRow>> {
        let empty = Desk::new(S::empty(self.alloc)?);
        let mut store = std::mem::replace(&mut self.desk, empty).into_store();
        let rows = store.own_plans(operator);
        self.desk = Desk::new(store);
        self.desk.set_terms(self.terms);
        rows.ok().context("the plans can't be read")
    }
}

// The most that a word names; none of `-`.
fn most_in(word: &str) -> anyhow::Result<Option<u32>> {
    Ok(match word {
        "-" => None,
        word => Some(word.parse()?),
    })
}

// The numbers of a list, with commas between them.
fn numbers_in(alloc: Global, list: &str) -> anyhow::Result<Vec<u32>> {
    let mut numbers = Vec::new(alloc);
    for word in list.split(',') {
        numbers.push(word.parse()?)?;
    }
    Ok(numbers)
}

fn show_case<W: Write>(name: &str, output: &mut W) -> anyhow::Result<()> {
    writeln!(output, "case {name}")?;
    Ok(())
}

// Prints how many plans there are, and each on a line.
fn show_rows<W: Write>(rows: &[PlanRow], output: &mut W) -> io::Result<()> {
    writeln!(output, "{} plans", rows.len())?;
    for row in rows {
        writeln!(output, "{}", ShownPlan(row))?;
    }
    Ok(())
}

// The bytes of a request; OPERATOR `-` leaves its field out.
fn request_text(
    alloc: Global,
    method: &str,
    target: &str,
    operator: &str,
    body: &str,
) -> Result<Vec<u8>, AllocError> {
    if operator != "-" {
        return request_bytes(alloc, method, target, operator, body);
    }
    let request = RequestText {
        method,
        target,
        fields: "",
        body,
    };
    request.bytes(alloc)
}

// The call of a plan of ten decimetres, with the id of its number, so many plans above the lowest.
fn numbered_call(alloc: Global, ask: &Ask<'_>, lower: i32, number: u16) -> anyhow::Result<Asked> {
    let bottom = lower.saturating_add(10 * i32::from(number));
    let id = format!(in alloc; "00000000-0000-4000-8000-{number:012}")?;
    let bottom_word = format!(in alloc; "{bottom}")?;
    let top_word = format!(in alloc; "{}", bottom.saturating_add(10))?;
    let ask = Ask {
        id: &id,
        lower: &bottom_word,
        upper: &top_word,
        ..*ask
    };
    ask.call(alloc)
}

// The call that a step makes, if it makes one.
fn asked_in(alloc: Global, step: &Step<'_>) -> anyhow::Result<Option<Asked>> {
    let asked = match step {
        Step::Put(ask) => ask.call(alloc)?,
        Step::Delete { operator, id } => asked_by(operator, Call::Delete(id_of(id)?))?,
        Step::Status { operator } => asked_by(operator, Call::Status)?,
        Step::List { operator } => asked_by(operator, Call::List)?,
        Step::Show { operator, id } => asked_by(operator, Call::Show(id_of(id)?))?,
        Step::Clear { operator, extent } => asked_by(operator, Call::Clear(extent.volume(alloc)?))?,
        _ => return Ok(None),
    };
    Ok(Some(asked))
}

// A call of an operator.
fn asked_by(operator: &str, call: Call) -> anyhow::Result<Asked> {
    Ok(Asked {
        operator: operator_of(operator)?,
        call,
    })
}

fn count_completed(outcomes: &[Outcome]) -> usize {
    outcomes.iter().filter(|it| is_completed(it)).count()
}

fn is_completed(outcome: &Outcome) -> bool {
    matches!(outcome, Outcome::Reply(Reply::Answered(put)) if put.result == PlanResult::Completed)
}
