//! Moments: the Unix seconds at which requests are decided.

ghost use Rattle.std.specs.Prelude.{◌≡◌, None, IfSome};
ghost use Rattle.io_ends.specs.Writing.{IsMoment};

use volume4d::MAX_SECOND;

/// The timestamp of a request: a Unix second from 0 to 253,370,764,800, the beginning of the year 9999.
#[derive(Clone, Copy, Debug, PartialEq, Eq)]
pub struct Moment {
    pub second: i64,
    pub ghost in_range: { IsMoment second },
}

impl Moment {
    /// The moment of the Unix second `second`, or `None` if that is out of the range of a `Moment`.
    pub fn try_new(second: i64) -> Option<Moment>
        ensures some { IfSome result (λ moment. moment.second ≡ second) }
        ensures none { result ≡ None → IsMoment second → ⊥ }
    {
        if !(0..=MAX_SECOND).contains(&second) {
            return None;
        }
        Some(Moment { second })
    }
}
