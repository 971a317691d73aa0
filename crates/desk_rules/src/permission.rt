//! The priorities at which plans of equal priority may share points.

ghost use Rattle.std.specs.Prelude.{◌≡◌, ◌-◌, ◌≤◌, ◌++◌, length, replicate, IsTrue, []};
ghost use Rattle.desk_rules.specs.Limits.{max_permitted, max_priority, is_permitted, permitted_in};
ghost use Rattle.desk_rules.specs.Limits as spec;

use crate::decide::MAX_PRIORITY;
use std::error::Error;
use std::fmt;
use std::marker::Model;

/// The most priorities that may be permitted.
pub const MAX_PERMITTED: usize = 32;

/// The priorities that are permitted: a plan of such a priority may share points with others of the
/// same priority. ASTM F3548-21 leaves it to the regulator which these are.
#[derive(Clone, Copy, Debug)]
pub struct Permitted {
    // the priorities, ascending, padded with zeros
    priorities: [u32; MAX_PERMITTED],
    // how many of them are permitted, without the padding
    count: usize,
}

/// Why priorities cannot be permitted. If several reasons apply, the first in this order is reported.
#[derive(Clone, Copy, Debug, PartialEq, Eq)]
pub enum PermitFault {
    /// There are more than 32 of them.
    TooMany,
    /// One is above 1,000.
    Range,
    /// They do not ascend, or one is there twice.
    Order,
}

impl Model for Permitted {
    ghost use Rattle.std.specs.Prelude.{◌≡◌, ℕ, ◌-◌, ◌≤◌, ◌++◌, List, length, take, replicate, IsTrue};
    ghost use Rattle.desk_rules.specs.Limits.{max_permitted, are_in_range};

    ghost Value = { List ℕ };

    ghost view = { λ p. take p.count p.priorities };

    ghost invariant = { λ p. (length p.priorities ≡ max_permitted) × (p.count ≤ max_permitted)
        × IsTrue (are_in_range (take p.count p.priorities))
        × (p.priorities ≡ take p.count p.priorities ++ replicate (max_permitted - p.count) 0) };

    ghost inverse = { λ permitted. record {
      priorities = permitted ++ replicate (max_permitted - length permitted) 0;
      count = length permitted;
    } };
}

impl Permitted {
    /// Permits no priority: plans of equal priority block each other.
    pub fn none() -> Permitted
        ensures { result ≡ [] }
    {
        Permitted {
            priorities: [0; MAX_PERMITTED],
            count: 0,
        }
    }

    /// Permits `priorities`: at most 32, each at most 1,000, and each less than the next. There may be none.
    ///
    /// # Errors
    ///
    /// The first fault that applies, in the order of `PermitFault`.
    pub fn try_new(priorities: &[u32]) -> Result<Permitted, PermitFault>
        ensures { result ≡ permitted_in priorities.now }
    {
        if priorities.len() > MAX_PERMITTED {
            return Err(PermitFault::TooMany);
        }
        if !are_in_range(priorities) {
            return Err(PermitFault::Range);
        }
        if !are_ascending(priorities) {
            return Err(PermitFault::Order);
        }
        Ok(Permitted {
            priorities: padded(priorities),
            count: priorities.len(),
        })
    }

    /// Whether plans of this priority may share points with each other. False of a priority above 1,000.
    pub fn has(&self, priority: u32) -> bool
        ensures value { result ≡ is_permitted self.now priority }
        ensures in_range { IsTrue result → priority ≤ max_priority }
    {
        self.priorities[..self.count].contains(&priority)
    }
}

impl fmt::Display for PermitFault {
    ghost use Rattle.std.specs.Prelude.{Some};
    ghost use Rattle.desk_rules.specs.Limits.{permit_fault_text};

    ghost output = { λ fault. Some (permit_fault_text fault) };

    // The fault as a sentence, in lower case and without a full stop.
    fn fmt<W: fmt::Write>(&self, f: &mut fmt::Formatter<W>) -> fmt::Result {
        f.pad(match self {
            PermitFault::TooMany => "at most 32 priorities are permitted",
            PermitFault::Range => "a priority is above 1,000",
            PermitFault::Order => "the priorities do not ascend",
        })
    }
}

impl Error for PermitFault {}

// Whether each of `priorities` is at most 1,000, the greatest that a plan may have.
fn are_in_range(priorities: &[u32]) -> bool
    ensures { result ≡ spec.are_in_range priorities.now }
{
    priorities.iter().all(|priority| *priority <= MAX_PRIORITY)
}

// Whether each of `priorities` is less than the next. It is true of none and of one.
fn are_ascending(priorities: &[u32]) -> bool
    ensures { result ≡ spec.are_ascending priorities.now }
{
    priorities.is_sorted_by(|low, high| low < high)
}

// `priorities`, at most 32, and zeros after them up to 32 numbers.
fn padded(priorities: &[u32]) -> [u32; MAX_PERMITTED]
    requires { length priorities.now ≤ max_permitted }
    ensures { result ≡ priorities.now ++ replicate (max_permitted - length priorities.now) 0 }
{
    let mut all = [0u32; MAX_PERMITTED];
    all[..priorities.len()].copy_from_slice(priorities);
    all
}
