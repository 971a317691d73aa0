//! Desks at which parts are played.

use crate::named::operator_of;
use anyhow::bail;
use desk_run::Desk;
use desk_store::PlanStore;
use io_ends::Moment;

/// The moment of all requests of a part without a script (2026-06-01T11:56:40Z).
pub const MOMENT: Moment = Moment {
    second: 1_780_315_000,
};

/// The greatest priority of each operator of such a part.
pub const CEILING: u32 = 100;

/// Enrols an operator.
pub fn enrol<S: PlanStore>(desk: &mut Desk<S>, name: &str, ceiling: u32) -> anyhow::Result<()> {
    if desk.enrol(&operator_of(name)?, ceiling).is_err() {
        bail!("an enrolment was refused");
    }
    Ok(())
}

/// Whether an answer says that what was asked is done.
pub fn is_completed(answer: &[u8]) -> bool {
    answer.ends_with(b"\"Completed\"}")
}
