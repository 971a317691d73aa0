//! How many stops left what.

use crate::disk::Image;
use crate::opening::Fused;
use crate::stops::act::Act;
use crate::stops::content::Content;
use crate::stops::moving::move_edges;
use crate::stops::round::{Came, content_of, image_after};
use anyhow::bail;
use std::alloc::Global;
use std::fmt::{self, Display, Formatter, Write};

/// How many stops left which content.
#[derive(Clone, Copy, Debug, PartialEq, Eq)]
pub struct Counts {
    before: u64,
    after: u64,
    others: u64,
}

impl Counts {
    /// Of no stops.
    pub fn new() -> Counts {
        Counts {
            before: 0,
            after: 0,
            others: 0,
        }
    }

    /// How many stops there were.
    pub fn all(&self) -> u64 {
        self.before
            .saturating_add(self.after)
            .saturating_add(self.others)
    }

    /// Counts a stop that left a content, by the contents before a change and after it.
    pub fn count(&mut self, left: &Content, before: &Content, after: &Content) {
        let number = if left == before {
            &mut self.before
        } else if left == after {
            &mut self.after
        } else {
            &mut self.others
        };
        *number = number.saturating_add(1);
    }
}

impl Display for Counts {
    fn fmt<W: Write>(&self, f: &mut Formatter<W>) -> fmt::Result {
        let Counts {
            before,
            after,
            others,
        } = self;
        write!(f, "{before} before, {after} after, {others} else")
    }
}

/// The contents before a change and after it.
#[derive(Drop)]
pub struct Edges {
    before: Content,
    after: Content,
}

impl Edges {
    /// Those of a change that is made over files of these bytes.
    pub fn of<D: Fused>(alloc: Global, image: &Image<D>, act: &Act) -> anyhow::Result<Edges> {
        let before = content_of(alloc, image)?;
        let after = content_of(alloc, &image_after(alloc, image, act)?)?;
        if before == after {
            bail!("a change that changes nothing");
        }
        Ok(Edges { before, after })
    }
}

impl Edges {
    /// Those of the move of files of these bytes to schema 2.
    pub fn of_move<D: Fused>(alloc: Global, image: &Image<D>) -> anyhow::Result<Edges> {
        let (before, after) = move_edges(alloc, image)?;
        if before == after {
            bail!("a move that changes nothing");
        }
        Ok(Edges { before, after })
    }
}

impl Display for Edges {
    fn fmt<W: Write>(&self, f: &mut Formatter<W>) -> fmt::Result {
        let Edges { before, after } = self;
        write!(f, "{} plans, then {}", before.plans(), after.plans())
    }
}

/// Counts of stops by when they came.
#[derive(Clone, Copy, Debug, PartialEq, Eq)]
pub struct Sums {
    unanswered: Counts,
    answered: Counts,
}

impl Sums {
    /// Of no stops.
    pub fn new() -> Sums {
        Sums {
            unanswered: Counts::new(),
            answered: Counts::new(),
        }
    }

    /// Counts a stop, and reports whether it came.
    pub fn count(&mut self, came: Came, left: &Content, edges: &Edges) -> bool {
        let counts = match came {
            Came::Unanswered => &mut self.unanswered,
            Came::Answered => &mut self.answered,
            Came::Never => return false,
        };
        counts.count(left, &edges.before, &edges.after);
        true
    }
}

impl Display for Sums {
    fn fmt<W: Write>(&self, f: &mut Formatter<W>) -> fmt::Result {
        let Sums {
            unanswered,
            answered,
        } = self;
        write!(f, "unanswered {unanswered}; answered {answered}")
    }
}
