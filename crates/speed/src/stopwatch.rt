//! The time and the result of a workload.

use std::rt::Clock;
use std::time::Instant;

/// The time and the result of a workload's operations.
#[derive(Clone, Copy, Debug, PartialEq, Eq)]
pub struct Seen {
    /// The nanoseconds of all operations, if the clock could be read.
    pub nanoseconds: Option<u64>,
    /// The operations' result, as one number.
    pub sum: u64,
}

/// The clock's time when the work began, if it could be read.
#[derive(Clone, Copy)]
pub struct Stopwatch {
    start: Option<Instant>,
}

impl Stopwatch {
    /// Reads the clock. If that fails the stopwatch has no time.
    pub fn start<R: Clock>(rt: &R) -> Stopwatch {
        Stopwatch {
            start: Instant::now(rt).ok(),
        }
    }

    /// The nanoseconds since the start, or `None` if the clock could not be read, or they don't fit in 64 bits.
    pub fn nanoseconds<R: Clock>(self, rt: &R) -> Option<u64> {
        let end = Instant::now(rt).ok()?;
        let elapsed = end.duration_since(self.start?);
        u64::try_from(elapsed.as_nanos()).ok()
    }

    /// The time of the work that ends now, and its result.
    pub fn seen<R: Clock>(self, rt: &R, sum: u64) -> Seen {
        let nanoseconds = self.nanoseconds(rt);
        Seen { nanoseconds, sum }
    }
}
