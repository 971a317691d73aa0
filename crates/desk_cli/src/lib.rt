//! The command line of the program: its parser, the error codes and exit statuses, and the commands that need
//! no database.
#![tactic(auto)]

mod command;
mod equal;
mod failure;
mod line;
mod malformed;
mod printed;
mod register;
mod reporting;

pub use failure::{ErrorCode, ExitReport, report_exit};
pub use line::{
    CopyArgs, CoverArgs, Database, DeskArgs, DeskCommand, EnrolArgs, Enrolment, Line, PlayArgs,
    ReplayArgs, ServeArgs, WordsFault, read_words,
};
pub use malformed::find_malformed_argument;
pub use printed::{print_line, write_text};
pub use register::{lines_of, parse_enrolment_line, parse_enrolment_lines};
pub use reporting::{report, report_malformed_argument};
