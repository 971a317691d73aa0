//! Laws of the definitions. Each is the contract of a function that does nothing but call another law.

ghost use Rattle.std.specs.Prelude.{◌≡◌, ⊤, ℕ, Ok, Option, Result, Some};
ghost use Rattle.desk_store.specs.{Changes.IsHonest, World.World};
ghost use Rattle.desk_run.specs.Verdicts.{DeskWorld};
ghost use Rattle.desk_wire.specs.Streams.{Course};
ghost use Rattle.desk_cli.specs.declared.failure.ErrorCode.{ErrorCode};
ghost use Rattle.desk_program.specs.{Keeping.IsFoundServed, Enrolling.Noted, Enrolling.Open, Serving.AreTaken, Serving.Traffic};
ghost use Rattle.desk_replay.specs.Replaying.{State};
ghost use Rattle.desk_recording.specs.Inputs.{AddsOpen, EndsFound, EndsPlayed, IsPlayedTo, entries_of};

use desk_wire::laws::request_ends;

/// The promise Recorded: a desk at a port with an open journal serves all connections that it was to serve
/// (the clause `served` of `serve`). Then the journal gets just the entries of these connections, each
/// request with its answer, and stays open. Their replay from the state in which the desk began (`w`, which
/// is that of the replay `s`) reports no difference, and results in the desk's state at the end (`after`).
pub fn recorded()
    ensures { (doubt count : ℕ) (port : Course Traffic) (w after : DeskWorld) (n : Noted) (s : State) →
        IsHonest doubt → (taken : AreTaken {A = ⊤} (IsHonest doubt) (Ok tt) count port w after) →
        port.before.recorded ≡ Some (Open n) → IsPlayedTo s w →
        AddsOpen n port.after.recorded (entries_of taken.exchanges) s after }
{
    request_ends();
}

/// The promise Recorded, however the desk stopped serving (`done`). The journal has the entries of all
/// connections but the last, then those that were written for the last and for new enrolments, and perhaps a
/// truncated one. Their replay reports no difference. It results in the state that the desk has after a
/// recovery: the operators and the request that only the journal has are enrolled and carried out then.
pub fn recorded_to_the_end()
    ensures { (doubt count : ℕ) (done : Result ⊤ ErrorCode) (port : Course Traffic) (w after : DeskWorld)
        (n : Noted) (s : State) → IsHonest doubt →
        (taken : AreTaken {A = ⊤} (IsHonest doubt) done count port w after) →
        port.before.recorded ≡ Some (Open n) → IsPlayedTo s w →
        EndsPlayed n port.after.recorded taken.exchanges taken.last s after }
{
    request_ends();
}

/// The promises Recorded, Kept and Repeated together. However the desk stopped serving, take the content that
/// the next start finds (`found`, by the clause `kept` of `serve`), and the same terms. After a recovery the
/// desk has the state that results from a replay of the journal, from the state in which the desk began. The
/// recovery enrols the operators and carries out the request that follow the last answer, even if that was
/// done before. The exception: an operator of the last new enrolments could not be enrolled.
pub fn recorded_and_kept()
    ensures { (doubt count : ℕ) (done : Result ⊤ ErrorCode) (port : Course Traffic) (w after : DeskWorld)
        (n : Noted) (s : State) (found : Option World) → IsHonest doubt →
        (taken : AreTaken {A = ⊤} (IsHonest doubt) done count port w after) →
        IsFoundServed taken.exchanges taken.last after found →
        port.before.recorded ≡ Some (Open n) → IsPlayedTo s w →
        EndsFound n port.after.recorded taken.exchanges taken.last s after found }
{
    request_ends();
}
