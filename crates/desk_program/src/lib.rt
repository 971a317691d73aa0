//! The commands of the program that use an open desk, over any store: `enrol`, `play` for the requests of an
//! input, and `serve` with one request per connection; and the lines that other commands print.
#![tactic(auto)]

pub mod laws;
mod local;
mod looking;
mod moving;
mod port;
mod program;
mod running;
mod server;
mod timed;

pub use local::LocalPort;
pub use looking::{CheckedFile, print_checked, print_copied};
pub use moving::print_migrated;
pub use port::{ClientStream, EnrolmentSource, ExchangeEnd, Port};
pub use program::{enrol, play, set_up};
pub use running::{Streams, run_opened, with_desk};
pub use server::{play_port, serve};
pub use timed::{DeadlineStream, PATIENCE};
