//! How many calls were refused.

use std::fmt::{self, Display, Formatter, Write};

/// Refusals for want of memory, counted.
#[derive(Clone, Copy, Debug)]
pub struct Refusals {
    count: u64,
}

impl Refusals {
    /// No refusals.
    pub fn none() -> Refusals {
        Refusals { count: 0 }
    }

    /// Counts a refusal.
    pub fn add(&mut self) {
        self.count = self.count.saturating_add(1);
    }
}

impl Display for Refusals {
    fn fmt<W: Write>(&self, f: &mut Formatter<W>) -> fmt::Result {
        write!(f, "{} refused", self.count)
    }
}
