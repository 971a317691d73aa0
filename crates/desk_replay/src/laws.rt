//! Theorems about the definitions. Each is the contract of a function that does nothing.

ghost use Rattle.std.specs.Prelude.{◌≡◌, None, IsSome, List, Ok, map};
ghost use Rattle.std.specs.List.{AllByRecursion};
ghost use Rattle.desk_wire.specs.Bytes.{world_left};
ghost use Rattle.desk_replay.specs.Replaying.{State, played, TimedRequest, IsTimely, sent, written};

/// Take the entries that a desk writes to its journal for `requests` that it answers one after the other.
/// Their replay from a state `s` in which a journal file has begun (`record_number`) and no request is
/// unanswered (`asking`) reports no difference. It ends at the world after the last request.
pub fn replayed()
    ensures { (s : State) (requests : List TimedRequest) → IsSome s.record_number → s.asking ≡ None →
        AllByRecursion IsTimely requests → (t : State) × (played s (written s.world requests) ≡ Ok t)
        × (t.world ≡ world_left s.world (map sent requests)) × (t.asking ≡ None) }
{}
