//! Reading and writing bytes with a limit on the calls, and what is known if that fails; the results of
//! serving one request of a stream and a whole stream; and timestamps.
#![tactic(auto)]

mod chunks;
mod interruption;
mod moment;
mod playing;
mod reads;
mod serving;
mod writes;
mod writing;

pub use chunks::{ChunkError, read_up_to};
pub use interruption::is_interrupted;
pub use moment::Moment;
pub use playing::PlayEnd;
pub use reads::{LastRead, ReadError, ReadLimit, Reads, read_within};
pub use serving::{ServeFault, Served};
pub use writes::{LastWrite, Writes};
pub use writing::{PartialWrite, WriteError, WriteStop, write_whole};
