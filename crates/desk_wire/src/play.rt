//! Serving a whole stream: its requests are answered one after the other.

ghost use Rattle.std.specs.Prelude.{◌≡◌, ◌≤◌, ◌==◌};
ghost use Rattle.desk_store.specs.Changes.{Remembers, IsHonest};
ghost use Rattle.desk_run.specs.{Calls.FindsOnly, Verdicts.world_of};
ghost use Rattle.desk_wire.specs.{Bytes.AppendsLast, Bytes.HasFailed, Given.reported_in_play, Given.IsKept, Streams.passage, Playing.HasPlayed};

use crate::stream::serve_one;
use desk_run::Desk;
use desk_store::PlanStore;
use http::StatusCode;
use io_ends::{Moment, PlayEnd, Served};
use std::alloc::{AllocError, Global};
use std::io::{Read, Write};

// The maximum number of requests that are answered of one stream.
const MAX_ANSWERED: u32 = 1_000_000;

/// The result of serving a stream.
#[derive(Clone, Copy, Debug, PartialEq, Eq)]
pub struct Played {
    /// How many requests were answered whole, the last one maybe with a 500.
    pub answered: u32,
    /// Why serving ended.
    pub ended: PlayEnd,
}

/// Answers the requests of `input` one after the other, all at the same `moment`, and writes the answers to
/// `output`, until serving ends for one of the reasons in `PlayEnd`. At most 1,000,000 requests are answered.
pub fn play_all<S: PlanStore, R: Read, W: Write>(
    alloc: Global,
    desk: &mut Desk<S>,
    moment: Moment,
    input: &mut R,
    output: &mut W,
) -> Played
    ensures played { HasPlayed (IsHonest (S.doubt desk.new.store)) result.ended result.answered
        (passage R.Read W.Write input.old input.new output.old output.new)
        (world_of S.content desk.old) moment.second (world_of S.content desk.new) }
    ensures kept { FindsOnly S.PlanStore desk.old desk.new (IsKept result.ended
        (reported_in_play result.ended result.answered) (passage R.Read W.Write input.old input.new
        output.old output.new) (world_of S.content desk.old) moment.second (world_of S.content desk.new)) }
    ensures remembered { Remembers S.doubt S.faults S.is_shielded desk.old.store desk.new.store }
    ensures cause { result.ended ≡ PlayEnd.Broken → HasFailed (AppendsLast (W.contents output.old)
        (W.contents output.new)) (S.faults desk.old.store) (S.faults desk.new.store) }
{
    for before in 0..MAX_ANSWERED {
        let served = match serve_one(alloc, desk, moment, input, output) {
            Ok(served) => served,
            Err(fault) => return Played {
                answered: before,
                ended: PlayEnd::Fault(fault),
            },
        };
        let Served::Answered { status, framed } = served else {
            return Played {
                answered: before,
                ended: PlayEnd::End,
            };
        };
        if is_server_error(status) {
            return Played {
                answered: before + 1,
                ended: PlayEnd::Broken,
            };
        }
        if !framed {
            return Played {
                answered: before + 1,
                ended: PlayEnd::Unframed,
            };
        }
    }
    Played {
        answered: MAX_ANSWERED,
        ended: PlayEnd::Limit,
    }
}

// Whether `status` is 500, which says that the desk itself failed.
fn is_server_error(status: u16) -> bool
    ensures { result ≡ (status == 500) }
{
    status == StatusCode::INTERNAL_SERVER_ERROR.as_u16()
}
