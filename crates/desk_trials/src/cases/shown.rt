//! How outcomes of calls and stored plans are printed.

use crate::named::leaf_id;
use desk_rules::plan::PlanRow;
use desk_rules::reply::{PutReply, Reply, Shown};
use desk_run::{DeskFault, Outcome, Ran};
use s2_cellid::CellId;
use s2_cover::Rect;
use std::fmt;
use volume4d::{Footprint, Meeting, Volume, Window};

/// What a run of one call came to, as a line.
#[derive(Clone, Copy)]
pub struct ShownRun<'r>(pub &'r Ran);

impl fmt::Display for ShownRun<'_> {
    fn fmt<W: fmt::Write>(&self, f: &mut fmt::Formatter<W>) -> fmt::Result {
        for outcome in self.0.outcomes.iter() {
            show_outcome(f, outcome)?;
        }
        show_stop(f, self.0.stopped)
    }
}

// What came of a call.
fn show_outcome<W: fmt::Write>(f: &mut fmt::Formatter<W>, outcome: &Outcome) -> fmt::Result {
    match outcome {
        Outcome::Reply(reply) => show_reply(f, reply),
        Outcome::UnknownOperator => write!(f, "unknown operator"),
        Outcome::NoSuchPlan => write!(f, "no such plan"),
    }
}

// Why a run ended before its last call, if it did.
fn show_stop<W: fmt::Write>(f: &mut fmt::Formatter<W>, stopped: Option<DeskFault>) -> fmt::Result {
    match stopped {
        Some(fault) => write!(f, "stopped: {fault:?}"),
        None => Ok(()),
    }
}

// A reply.
fn show_reply<W: fmt::Write>(f: &mut fmt::Formatter<W>, reply: &Reply) -> fmt::Result {
    match reply {
        Reply::Ready => write!(f, "ready"),
        Reply::Plans(plans) => show_list(f, plans),
        Reply::Plan(plan) => show_plan(f, plan),
        Reply::Answered(put) => show_put(f, put),
        Reply::Cleared(count) => write!(f, "cleared {count}"),
    }
}

// A list: how many plans there are, and each on a line of its own.
fn show_list<W: fmt::Write>(f: &mut fmt::Formatter<W>, plans: &[Shown]) -> fmt::Result {
    write!(f, "shown {}", plans.len())?;
    for plan in plans {
        show_listed(f, plan)?;
    }
    Ok(())
}

// A plan of a list, on a line of its own.
fn show_listed<W: fmt::Write>(f: &mut fmt::Formatter<W>, plan: &Shown) -> fmt::Result {
    writeln!(f)?;
    show_plan(f, plan)
}

// A plan as it is shown: the status, the stored plan and the conflict.
fn show_plan<W: fmt::Write>(f: &mut fmt::Formatter<W>, plan: &Shown) -> fmt::Result {
    write!(f, "{:?}: {}", plan.status, ShownPlan(&plan.row))?;
    match &plan.conflict {
        Some(meeting) => show_meeting(f, meeting),
        None => Ok(()),
    }
}

// The reply to a request to plan or to close: result, status, note and conflict.
fn show_put<W: fmt::Write>(f: &mut fmt::Formatter<W>, put: &PutReply) -> fmt::Result {
    write!(f, "{:?} {:?}", put.result, put.status)?;
    if let Some(note) = put.note {
        write!(f, " {note:?}")?;
    }
    match &put.meeting {
        Some(meeting) => show_meeting(f, meeting),
        None => Ok(()),
    }
}

// A meeting: its leaf by its S2 id, altitude, second and priority.
fn show_meeting<W: fmt::Write>(f: &mut fmt::Formatter<W>, meeting: &Meeting) -> fmt::Result {
    let leaf = leaf_id(meeting.pos);
    write!(
        f,
        " at {leaf:016x} {} {} priority {}",
        meeting.altitude, meeting.second, meeting.priority
    )
}

/// A stored plan, as a line.
#[derive(Clone, Copy)]
pub struct ShownPlan<'r>(pub &'r PlanRow);

impl fmt::Display for ShownPlan<'_> {
    fn fmt<W: fmt::Write>(&self, f: &mut fmt::Formatter<W>) -> fmt::Result {
        show_states(f, self.0)?;
        for volume in self.0.area.volumes() {
            show_volume(f, volume)?;
        }
        Ok(())
    }
}

// The id of a stored plan, its states and its priority.
fn show_states<W: fmt::Write>(f: &mut fmt::Formatter<W>, row: &PlanRow) -> fmt::Result {
    write!(
        f,
        "{} {:?} {:?} priority {}",
        row.id, row.usage, row.aircraft, row.priority
    )
}

// A volume: its altitudes, its time and its footprint.
fn show_volume<W: fmt::Write>(f: &mut fmt::Formatter<W>, volume: &Volume) -> fmt::Result {
    show_window(f, volume.window())?;
    show_footprint(f, volume.footprint())
}

// The altitudes and the time of a volume.
fn show_window<W: fmt::Write>(f: &mut fmt::Formatter<W>, window: Window) -> fmt::Result {
    write!(
        f,
        " over {}..{} {}..{}",
        window.lower(),
        window.upper(),
        window.start(),
        window.end()
    )
}

// The cells of a footprint, by their tokens, or the parts of its rectangle.
fn show_footprint<W: fmt::Write>(f: &mut fmt::Formatter<W>, footprint: &Footprint) -> fmt::Result {
    match footprint {
        Footprint::Cells(cells) => {
            for cell in cells.iter() {
                show_cell(f, *cell)?;
            }
            Ok(())
        }
        Footprint::Rectangle(rect) => show_rect(f, rect),
    }
}

// A cell, by its token.
fn show_cell<W: fmt::Write>(f: &mut fmt::Formatter<W>, cell: CellId) -> fmt::Result {
    write!(f, " {}", cell.token())
}

// A rectangle: its face, its coordinates and its level.
fn show_rect<W: fmt::Write>(f: &mut fmt::Formatter<W>, rect: &Rect) -> fmt::Result {
    write!(
        f,
        " rectangle {} {}..={} {}..={} {}",
        rect.face(),
        rect.i_min(),
        rect.i_max(),
        rect.j_min(),
        rect.j_max(),
        rect.level()
    )
}
