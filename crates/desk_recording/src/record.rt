//! The interface of a request journal. Its text is what has been appended so far.

ghost use Rattle.std.specs.Prelude.{◌≡◌, IfSome, List, OnOk, Option, None};
ghost use Rattle.std.specs.Result.{is_ok};
ghost use Rattle.desk_program.specs.Enrolling.{AreNamed, Noted, with_answer, with_news, with_request};
ghost use Rattle.desk_recording.specs.Recording.{AddsIf, AddsStep, Answered, Asked, Enrolled, Lost, Notes, NotesOnDisk, Step, parting_of};

use desk_cli::Enrolment;
use desk_program::ExchangeEnd;
use io_ends::Moment;
use std::marker::PhantomData;

/// How the exchange on one connection ended. Of the request, which was recorded before, it has only what was
/// left unread.
#[derive(Clone, Copy)]
pub struct Exchange<'a> {
    /// The bytes of the request that the desk left unread.
    pub unread: &'a [u8],
    /// The bytes of the answer, or of the part of it that was made; empty if none was made.
    pub sent: &'a [u8],
    /// Whether the request was read to its end, and whether it was answered whole or none came.
    pub outcome: ExchangeEnd,
}

/// A request journal, to which entries are appended. An entry that was appended only in part isn't read back.
pub trait Record {
    /// Why a call failed. Generic code can get one only from a call that failed.
    type Fault: Drop;

    /// What was recorded so far, step by step and in this order; `None` if it isn't known.
    ghost steps: { Self → Option (List Step) } = { λ _. None };

    /// The text of the journal, and the Unix second of the last request in it; `None` if they aren't known.
    ghost noted: { Self → Option Noted } = { λ _. None };

    /// Appends new enrolments, and flushes the journal to the disk. If there are none, it may do nothing.
    ///
    /// # Errors
    ///
    /// What failed. They may be in the text all the same.
    fn append_new_enrolments(&mut self, newly_enrolled: &[Enrolment]) -> Result<(), Self::Fault>
        ensures steps { AddsIf (steps self.old) (steps self.new) (is_ok result)
            (Enrolled newly_enrolled.now) }
        ensures noted { NotesOnDisk (noted self.old) (noted self.new) (is_ok result)
            (λ n. with_news n newly_enrolled.now) }
        ensures named { IfSome (noted self.old) (λ _. OnOk result (AreNamed newly_enrolled.now)) };

    /// Appends a request (`bytes`) that the desk is to decide at `moment`, and flushes the journal to the
    /// disk. If `bytes` is empty, no whole request came, and no entry is appended.
    ///
    /// # Errors
    ///
    /// What failed. The entry may be in the text all the same.
    fn append_request(&mut self, moment: Moment, bytes: &[u8]) -> Result<(), Self::Fault>
        ensures steps { AddsIf (steps self.old) (steps self.new) (is_ok result)
            (Asked moment.second bytes.now) }
        ensures noted { NotesOnDisk (noted self.old) (noted self.new) (is_ok result)
            (λ n. with_request n moment.second bytes.now) };

    /// Appends the answer to the last request, `connection.sent`; an empty one appends nothing. It needn't be
    /// flushed: the next request flushes it. If a crash loses it before, the next start answers the request
    /// again.
    ///
    /// # Errors
    ///
    /// What failed. The answer doesn't count as appended then.
    fn append_answer(&mut self, connection: Exchange<'_>) -> Result<(), Self::Fault>
        ensures steps { AddsIf (steps self.old) (steps self.new) (is_ok result)
            (Answered (parting_of connection.entry)) }
        ensures noted { Notes (noted self.old) (noted self.new) (is_ok result)
            (λ n. with_answer n connection.entry.sent.now) };

    /// Notes that the answer to the last request is lost: no whole one was made, or it isn't appended. The
    /// text stays as it is.
    fn note_lost_answer(&mut self, connection: Exchange<'_>)
        ensures steps { AddsStep (steps self.old) (steps self.new) (Lost (parting_of connection.entry)) }
        ensures noted { noted self.new ≡ noted self.old };
}

/// Shows that a journal of type `R` failed: it can be made only from an error of such a journal.
#[derive_where(Clone, Copy)]
pub struct RecordFault<R> {
    record: PhantomData<R>,
}

impl<R: Record> RecordFault<R> {
    /// The fault, made from an error of the journal, which is dropped.
    pub(crate) fn by(_fault: R::Fault) -> RecordFault<R> {
        RecordFault {
            record: PhantomData,
        }
    }
}
