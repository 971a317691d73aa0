//! The traits through which a desk gets its connections and new enrolments. While a desk serves, the
//! administrator may enrol more operators, or change their ceilings: the greatest priorities that they may
//! use.

ghost use Rattle.std.specs.Prelude.{◌≡◌, IfOk, IfErr, OnOk, OnErr};
ghost use Rattle.std.specs.Result.{is_ok};
ghost use Rattle.desk_cli.specs.Lines.{AreEnrolments};
ghost use Rattle.desk_program.specs.Enrolling.{IsOpen};
ghost use Rattle.desk_program.specs.Serving.{BringsEnrolments, Closes, AddsNothingNew, IsPortError, IsFresh, Listens, TakesArrival, Traffic, arrived, parted, unreported};

use desk_cli::{Enrolment, ErrorCode};
use io_ends::Moment;
use std::alloc::Global;
use std::io::{Read, Write};

/// A connection that was taken.
#[derive(Drop)]
pub struct ClientStream<I, O> {
    /// The timestamp of its request.
    pub moment: Moment,
    /// The bytes from the client.
    pub input: I,
    /// The writer to the client.
    pub output: O,
}

/// How the request of a connection ended.
#[derive(Clone, Copy)]
pub struct ExchangeEnd {
    /// Whether the request was read to its end, as far as is known. False only for an answered request whose
    /// end isn't known.
    pub is_whole: bool,
    /// Whether the answer was written whole, or no request came.
    pub is_answered: bool,
}

/// A source of enrolments that the administrator adds while a desk serves.
pub trait EnrolmentSource {
    /// The operators to enrol now: all of the source if it has changed since the last call, else none; none
    /// either if it can't be read.
    ///
    /// # Errors
    ///
    /// `Memory` if memory runs out.
    fn look(&mut self, alloc: Global) -> Result<Vec<Enrolment>, ErrorCode>
        ensures small { IfOk result (λ newly_enrolled. AreEnrolments newly_enrolled.items) }
        ensures fault { IfErr result (λ f. f ≡ ErrorCode.Memory) };
}

/// A source of connections, which are taken one after the other.
pub trait Port {
    type Input: Read + Drop;

    type Output: Write + Drop;

    /// What the port did, if known, in order: the numbers at which it was asked to listen and whether it
    /// does, the connections taken and closed, the new enrolments, and what it wrote to the journal.
    ghost traffic: { Self → Traffic } = { λ _. unreported };

    /// Starts to listen at the port `number`.
    ///
    /// # Errors
    ///
    /// `Network` if the port can't be opened.
    fn listen(&mut self, number: u16) -> Result<(), ErrorCode>
        ensures listens { Listens (traffic self.old) (traffic self.new) number (is_ok result) }
        ensures fault { IfErr result IsPortError };

    /// Waits for a connection, which `take` then takes, and returns the new enrolments of the administrator,
    /// which are to be made before its request is carried out.
    ///
    /// # Errors
    ///
    /// `Network` if no connection can be accepted, `Memory` if memory runs out; `Broken` if the port keeps a
    /// journal of its requests that can't be written.
    fn newly_enrolled(&mut self, alloc: Global) -> Result<Vec<Enrolment>, ErrorCode>
        ensures small { IfOk result (λ newly_enrolled. AreEnrolments newly_enrolled.items) }
        ensures brings { IfOk result (λ newly_enrolled.
            BringsEnrolments (traffic self.old) (traffic self.new) newly_enrolled.items) }
        ensures same { OnErr result (AddsNothingNew (traffic self.old) (traffic self.new)) }
        ensures fault { IfErr result IsPortError };

    /// Takes the next connection, to which nothing was sent yet, with the timestamp of its request.
    ///
    /// # Errors
    ///
    /// `Network` if there is none, `Clock` if the clock gives no second in range, `Memory` if memory runs
    /// out; `Broken` if the port keeps a journal that can't be written: the client was answered that the desk
    /// failed.
    fn take(&mut self, alloc: Global) -> Result<ClientStream<Self::Input, Self::Output>, ErrorCode>
        ensures taken { IfOk result (λ c. TakesArrival (traffic self.old) (traffic self.new)
            (arrived c.moment.second (Self.Input.remaining c.input))) }
        ensures unsent { IfOk result (λ c. IsFresh (traffic self.old) (Self.Output.contents c.output)) }
        ensures same { OnErr result (AddsNothingNew (traffic self.old) (traffic self.new)) }
        ensures fault { IfErr result IsPortError };

    /// Ends a connection, by the outcome of its request. What came after a whole request is discarded first;
    /// the rest of any other request is read for a while, so that the client still gets its answer.
    ///
    /// # Errors
    ///
    /// `Broken` if the port keeps a journal that can't be written: the client was answered that the desk
    /// failed. The connection has ended all the same.
    fn close(
        &mut self,
        input: Self::Input,
        output: Self::Output,
        outcome: ExchangeEnd,
    ) -> Result<(), ErrorCode>
        ensures closed { Closes (traffic self.old) (traffic self.new)
            (parted (Self.Input.remaining input) (Self.Output.contents output) outcome) }
        ensures recorded { OnOk result (IsOpen (traffic self.new).recorded) }
        ensures fault { IfErr result IsPortError };
}
