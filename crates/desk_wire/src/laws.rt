//! Laws of the definitions. Each is the contract of a function that does nothing.

ghost use Rattle.std.specs.Prelude.{◌≡◌, ◌++◌, ℕ, ℤ, List, Option, Some, length};
ghost use Rattle.std.specs.List.{AllZip};
ghost use Rattle.desk_store.specs.World.{World};
ghost use Rattle.desk_run.specs.{Verdicts.DeskWorld, Calls.HoldAlike, Calls.OwnAlike};
ghost use Rattle.io_ends.specs.declared.playing.PlayEnd.{PlayEnd};
ghost use Rattle.request_parser.specs.Requests.{asked};
ghost use Rattle.desk_wire.specs.{Bytes.world_after, Bytes.Sent, Headline.Headline, Streams.Passage, Streams.IsRequest, Streams.request_len};
ghost use Rattle.desk_wire.specs.Given.{AnswersGiven, StreamGiven, IsFoundInStream, IsKept, IsSameFor, met_by, requests_of};

/// For every list of requests, each answer, byte for byte, is decided by that request's bytes and
/// moment, its operator's own plans and ceiling, and the greatest priority that other operators hold
/// at each leaf cell, altitude and second, and by nothing else; and no other operator's request
/// changes this operator's plans. `specs/Headline.antt` says this part by part.
pub fn headline()
    ensures { Headline }
{}

/// Take two runs, of `requests` from `v` and of `others` from `w`, states in which `operator` owns the same,
/// with the same requests of that operator in the same order and at the same moments. If other operators hold
/// the same before each of these requests, then the answers to these are equal byte for byte, and the
/// operator owns the same after each of them and at the end, whatever requests of other operators come
/// between.
pub fn two_runs()
    ensures { (operator : List ℕ) (v w : DeskWorld) (requests others : List Sent) →
        OwnAlike operator v w → requests_of operator requests ≡ requests_of operator others →
        AllZip (HoldAlike operator) (met_by operator v requests) (met_by operator w others) →
        IsSameFor operator v requests w others }
{}

/// The two laws above, for the answers that a desk gave to a list of requests (by the clause of
/// `answer_all`). `specs/Given.antt` says this part by part.
pub fn answers_given()
    ensures { AnswersGiven }
{}

/// The two laws above, for what a desk wrote for a stream of requests (by the clause of `play_all`), if its
/// storage is intact. `specs/Given.antt` says this part by part.
pub fn stream_given()
    ensures { StreamGiven }
{}

/// A start after a stream, however that ended, finds the operators and plans after the first `n` requests of
/// the stream, or after these and the next one. Here `n` is the number of requests that were answered with
/// another status than 500, and `w` is the state before the stream, which was durable (by the clause `kept`
/// of `play_all`).
pub fn kept()
    ensures { (ended : PlayEnd) (n : ℕ) (passage : Passage) (stream : List ℕ) (w : DeskWorld)
        (moment : ℤ) (after : DeskWorld) (found : Option World) →
        passage.reads.before ≡ Some stream → IsKept ended n passage w moment after found →
        IsFoundInStream w moment stream n found }
{}

/// Requests are idempotent: the same request twice in a row, at the same moment, results in the same state as
/// once. (The second answer may differ: a clear finds no plan then.)
pub fn repeated()
    ensures { (w : DeskWorld) (moment : ℤ) (request : List ℕ) →
        world_after (world_after w moment (asked request)) moment (asked request)
        ≡ world_after w moment (asked request) }
{}

/// The framing is unambiguous: if a stream begins with the bytes of a request, its first request is that one,
/// whatever follows (`rest`). So there is only one way to split a stream into requests.
pub fn request_ends()
    ensures { (request rest : List ℕ) → IsRequest request →
        request_len (request ++ rest) ≡ Some (length request) }
{}
