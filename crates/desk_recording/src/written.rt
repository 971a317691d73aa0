//! The request journal over an append-only file.

ghost use Rattle.std.specs.Prelude.{◌≡◌, map, nat_abs, [], ◌∷◌, None, IfSome, OnErr, OnOk};
ghost use Rattle.std.specs.Result.{is_ok};
ghost use Rattle.desk_record.specs.Record.{entries, entry};
ghost use Rattle.desk_program.specs.Enrolling.{AreNamed, operator_entry, request_entry, with_answer, with_news, with_request};
ghost use Rattle.desk_recording.specs.Recording.{AddsIf, Answered, Asked, Enrolled, Notes, NotesOnDisk, parting_of};
ghost use Rattle.desk_recording.specs.RecordWrites.{Appended, AppendsKnown, Failed, FollowsWrites, IsNotWritten, MakesWrite, StopsWriting, Synced, answer_writes, appended_writes, enrolment_writes, noted_in, request_writes};

use crate::header::write_operators;
use crate::journal::{AppendError, Journal, append_to, sync_to};
use crate::record::{Exchange, Record};
use desk_cli::Enrolment;
use desk_record::{Kind, write_entry};
use io_ends::Moment;
use std::alloc::Global;

/// A request journal that is written to an append-only file, entry by entry.
#[derive(Drop)]
pub struct WrittenRecord<J: Drop> {
    alloc: Global,
    journal: J,
    // The Unix second of the last request; 0 before the first one.
    second: u64,
}

impl<J: Journal + Drop> WrittenRecord<J> {
    /// A request journal whose entries are appended to the file `journal`. It writes nothing yet.
    pub fn new(alloc: Global, journal: J) -> WrittenRecord<J>
        ensures { result.journal ≡ journal }
    {
        WrittenRecord {
            alloc,
            journal,
            second: 0,
        }
    }

    /// Flushes all that was appended to the disk.
    ///
    /// # Errors
    ///
    /// The error of the file.
    pub fn sync(&mut self) -> Result<(), J::Fault>
        ensures { MakesWrite (J.writes self.old.journal) (J.writes self.new.journal) (is_ok result) Synced }
    {
        self.journal.sync()
    }

    // Appends an entry with this kind, number and bytes, without flushing it. After an error it counts as not
    // appended, though a part of it may be in the file.
    #[tactic(auto, using(crate::proofs::WritingLemmas::extends_none))]
    fn append(&mut self, kind: Kind, number: u64, bytes: &[u8]) -> Result<(), AppendError<J::Fault>>
        ensures done { OnOk result (FollowsWrites (J.writes self.old.journal) (J.writes self.new.journal)
            (appended_writes (record { kind = kind; number = number; bytes = bytes.now }))) }
        ensures stops { OnErr result (IsNotWritten (J.writes self.old.journal) (J.writes self.new.journal)) }
        ensures text { AppendsKnown (J.writes self.old.journal) (J.writes self.new.journal) (is_ok result)
            (entry (record { kind = kind; number = number; bytes = bytes.now })) }
        ensures second { self.new.second ≡ self.old.second }
    {
        let mut text = Vec::new(self.alloc);
        write_entry(&mut text, kind, number, bytes)?;
        append_text(&mut self.journal, &text)
    }

    // Appends an entry for each new enrolment, without flushing them. After an error they count as not
    // appended, though some of them may be in the file.
    #[tactic(auto, using(crate::proofs::WritingLemmas::extends_none))]
    fn append_enrolments(
        &mut self,
        newly_enrolled: &[Enrolment],
    ) -> Result<(), AppendError<J::Fault>>
        ensures done { OnOk result (FollowsWrites (J.writes self.old.journal) (J.writes self.new.journal)
            (Appended (entries (map operator_entry newly_enrolled.now)) ∷ [])) }
        ensures stops { OnErr result (IsNotWritten (J.writes self.old.journal) (J.writes self.new.journal)) }
        ensures text { AppendsKnown (J.writes self.old.journal) (J.writes self.new.journal) (is_ok result)
            (entries (map operator_entry newly_enrolled.now)) }
        ensures named { OnOk result (AreNamed newly_enrolled.now) }
        ensures second { self.new.second ≡ self.old.second }
    {
        let mut text = Vec::new(self.alloc);
        write_operators(&mut text, newly_enrolled)?;
        append_text(&mut self.journal, &text)
    }
}

// Appends `text`, which are whole entries, to the file, without flushing it. After an error it counts as not
// appended, though a part of it may be in the file: an entry that is cut short isn't read back.
#[tactic(auto, using(crate::proofs::WritingLemmas::extends_by))]
fn append_text<J: Journal>(journal: &mut J, text: &[u8]) -> Result<(), AppendError<J::Fault>>
    ensures done { OnOk result
        (FollowsWrites (J.writes journal.old) (J.writes journal.new) (Appended text.now ∷ [])) }
    ensures stops { OnErr result (FollowsWrites (J.writes journal.old) (J.writes journal.new) (Failed ∷ [])) }
    ensures text { AppendsKnown (J.writes journal.old) (J.writes journal.new) (is_ok result) text.now }
{
    append_to(journal, text)
}

impl<J: Journal + Drop> Record for WrittenRecord<J> {
    type Fault = AppendError<J::Fault>;

    ghost noted = { λ s. noted_in s.second (J.writes s.journal) };

    // Appends an entry for each new enrolment, and flushes them. If there are none, nothing is flushed. After
    // an error they may be in the file all the same.
    fn append_new_enrolments(
        &mut self,
        newly_enrolled: &[Enrolment],
    ) -> Result<(), AppendError<J::Fault>>
        ensures steps { AddsIf None None (is_ok result) (Enrolled newly_enrolled.now) }
        ensures noted { NotesOnDisk (noted_in self.old.second (J.writes self.old.journal))
            (noted_in self.new.second (J.writes self.new.journal)) (is_ok result)
            (λ n. with_news n newly_enrolled.now) }
        ensures named { IfSome (noted_in self.old.second (J.writes self.old.journal))
            (λ _. OnOk result (AreNamed newly_enrolled.now)) }
        ensures writes { OnOk result (FollowsWrites (J.writes self.old.journal) (J.writes self.new.journal)
            (enrolment_writes newly_enrolled.now)) }
        ensures stops { OnErr result (StopsWriting (J.writes self.old.journal) (J.writes self.new.journal)
            (Appended (entries (map operator_entry newly_enrolled.now)))) }
    {
        if newly_enrolled.is_empty() {
            return Ok(());
        }
        self.append_enrolments(newly_enrolled)?;
        sync_to(&mut self.journal)
    }

    // Appends the entry of a request and flushes it. Does nothing if the request is empty: none came whole.
    // After an error the entry may be in the file all the same.
    fn append_request(&mut self, moment: Moment, bytes: &[u8]) -> Result<(), AppendError<J::Fault>>
        ensures steps { AddsIf None None (is_ok result) (Asked moment.second bytes.now) }
        ensures noted { NotesOnDisk (noted_in self.old.second (J.writes self.old.journal))
            (noted_in self.new.second (J.writes self.new.journal)) (is_ok result)
            (λ n. with_request n moment.second bytes.now) }
        ensures writes { OnOk result (FollowsWrites (J.writes self.old.journal) (J.writes self.new.journal)
            (request_writes (nat_abs moment.second) bytes.now)) }
        ensures stops { OnErr result (StopsWriting (J.writes self.old.journal) (J.writes self.new.journal)
            (Appended (entry (request_entry (nat_abs moment.second) bytes.now)))) }
    {
        if bytes.is_empty() {
            return Ok(());
        }
        self.second = moment.second.unsigned_abs();
        self.append(Kind::Request, self.second, bytes)?;
        sync_to(&mut self.journal)
    }

    // Appends the entry of the answer to the last request, without flushing it. Does nothing if the answer is
    // empty: none was made.
    fn append_answer(&mut self, connection: Exchange<'_>) -> Result<(), AppendError<J::Fault>>
        ensures steps { AddsIf None None (is_ok result) (Answered (parting_of connection.entry)) }
        ensures noted { Notes (noted_in self.old.second (J.writes self.old.journal))
            (noted_in self.new.second (J.writes self.new.journal)) (is_ok result)
            (λ n. with_answer n connection.entry.sent.now) }
        ensures writes { OnOk result (FollowsWrites (J.writes self.old.journal) (J.writes self.new.journal)
            (answer_writes self.old.second connection.entry.sent.now)) }
        ensures stops { OnErr result (IsNotWritten (J.writes self.old.journal) (J.writes self.new.journal)) }
    {
        if connection.sent.is_empty() {
            return Ok(());
        }
        self.append(Kind::Answer, self.second, connection.sent)
    }

    // Writes nothing: a journal has no entry for a lost answer.
    fn note_lost_answer(&mut self, _connection: Exchange<'_>) {}
}
