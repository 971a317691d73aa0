//! Windows: the altitudes and times of a volume.

ghost use Rattle.std.specs.Prelude.{◌≡◌, pos, ◌≤ℤ◌, ◌<ℤ◌, IsTrue};
ghost use Rattle.volume4d.specs.{VolumeLimits.within_altitudes, VolumeLimits.within_times, VolumeLimits.within_length, Volume.window_or_fault, Volume.is_window};

use std::error::Error;
use std::fmt;
use std::marker::Model;

/// The altitudes `lower <= a < upper` of a volume, in decimetres above the WGS84 ellipsoid, and its
/// Unix seconds `start <= t < end`. They are always within the desk's limits.
#[derive(Clone, Copy, Debug, PartialEq, Eq)]
pub struct Window {
    lower: i32,
    upper: i32,
    start: i64,
    end: i64,
}

/// Why a window cannot be made. If several reasons apply, the first in this order is reported.
#[derive(Clone, Copy, Debug, PartialEq, Eq)]
pub enum WindowFault {
    /// The altitudes do not meet `-10,000 <= lower < upper <= 200,000`, in decimetres.
    Altitude,
    /// The seconds do not meet `0 <= start < end <= 253,370,764,800`.
    Time,
    /// The time from start to end is longer than 86,400 s.
    TooLong,
}

impl fmt::Display for WindowFault {
    ghost use Rattle.std.specs.Prelude.{Some};
    ghost use Rattle.volume4d.specs.Volume.{window_fault_text};

    ghost output = { λ fault. Some (window_fault_text fault) };

    // The fault as a sentence, in lower case and without a full stop.
    fn fmt<W: fmt::Write>(&self, f: &mut fmt::Formatter<W>) -> fmt::Result {
        f.pad(match self {
            WindowFault::Altitude => "altitudes are -10000 <= lower < upper <= 200000 decimetres",
            WindowFault::Time => "times are 0 <= start < end <= 253370764800 s",
            WindowFault::TooLong => "a volume lasts at most 86400 s",
        })
    }
}

impl Error for WindowFault {}

impl Model for Window {
    ghost use Rattle.std.specs.Prelude.{IsTrue};
    ghost use Rattle.volume4d.specs.Volume.{WindowParts, is_window};

    ghost Value = { WindowParts };

    ghost view = { λ w. record {
      lower = w.lower;
      upper = w.upper;
      start = w.start;
      end = w.end;
    } };

    ghost invariant = { λ w. IsTrue (is_window (record {
      lower = w.lower;
      upper = w.upper;
      start = w.start;
      end = w.end;
    })) };

    ghost inverse = { λ e. record {
      lower = e.lower;
      upper = e.upper;
      start = e.start;
      end = e.end;
    } };
}

// The lowest altitude, in decimetres above the WGS84 ellipsoid.
const MIN_ALTITUDE: i32 = -10_000;

// The highest upper bound of altitudes, in decimetres above the WGS84 ellipsoid.
const MAX_ALTITUDE: i32 = 200_000;

/// The latest end of a volume, and the latest time of a request, as a Unix second: the end of the year 9998.
pub const MAX_SECOND: i64 = 253_370_764_800;

// The greatest length in time, in seconds: a day.
const MAX_LENGTH: i64 = 86_400;

impl Window {
    /// The window of the altitudes `lower <= a < upper`, in decimetres above the WGS84 ellipsoid, and of the
    /// Unix seconds `start <= t < end`. `WindowFault` has the limits.
    ///
    /// # Errors
    ///
    /// The first fault that applies, in the order of `WindowFault`.
    pub fn try_new(lower: i32, upper: i32, start: i64, end: i64) -> Result<Window, WindowFault>
        ensures { result ≡ window_or_fault
            (record { lower = lower; upper = upper; start = start; end = end }) }
    {
        if !are_altitudes(lower, upper) {
            return Err(WindowFault::Altitude);
        }
        if !are_times(start, end) {
            return Err(WindowFault::Time);
        }
        if !is_allowed_length(start, end) {
            return Err(WindowFault::TooLong);
        }
        Ok(Window {
            lower,
            upper,
            start,
            end,
        })
    }

    /// The lowest altitude, in decimetres above the WGS84 ellipsoid; it is included.
    pub fn lower(&self) -> i32
        ensures value { result ≡ self.now.lower }
        ensures limits { IsTrue (is_window self.now) }
    {
        self.lower
    }

    /// The upper bound of the altitudes, in decimetres above the WGS84 ellipsoid; it is not included.
    pub fn upper(&self) -> i32
        ensures { result ≡ self.now.upper }
    {
        self.upper
    }

    /// The first Unix second; it is included.
    pub fn start(&self) -> i64
        ensures { result ≡ self.now.start }
    {
        self.start
    }

    /// The Unix second after the last; it is not included.
    pub fn end(&self) -> i64
        ensures { result ≡ self.now.end }
    {
        self.end
    }
}

// Whether altitudes, in decimetres, are in order and within the limits: -10,000 to 200,000.
fn are_altitudes(lower: i32, upper: i32) -> bool
    ensures value { result ≡ within_altitudes lower upper }
{
    MIN_ALTITUDE <= lower && lower < upper && upper <= MAX_ALTITUDE
}

// Whether Unix seconds are in order and within the limits: 0 to `MAX_SECOND`.
fn are_times(start: i64, end: i64) -> bool
    ensures value { result ≡ within_times start end }
    ensures bounds { IsTrue result → (pos 0 ≤ℤ start) × (start <ℤ end) }
{
    0 <= start && start < end && end <= MAX_SECOND
}

// Whether the time from `start` to `end`, in seconds, is at most a day.
fn is_allowed_length(start: i64, end: i64) -> bool
    requires low { pos 0 ≤ℤ start }
    requires order { start <ℤ end }
    ensures { result ≡ within_length start end }
{
    end - start <= MAX_LENGTH
}
