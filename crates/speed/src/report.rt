//! The printed lines.

use crate::runs::run;
use crate::workload::{WORKLOADS, Workload};
use comemo::Fault;
use std::alloc::{AllocError, Global};
use std::fmt;
use std::io::Write;
use std::rt::Clock;
use std::sync::Wait;
use std::thread::Threads;

/// How often a workload is timed.
const REPETITIONS: u32 = 9;

/// Why the program ended early.
#[derive(Clone, Copy, Debug, PartialEq, Eq)]
pub enum Failure {
    /// Out of memory.
    Memory,
    /// The output could not be written.
    Output,
}

impl From<Fault> for Failure {
    fn from(_fault: Fault) -> Failure {
        Failure::Memory
    }
}

impl From<AllocError> for Failure {
    fn from(_error: AllocError) -> Failure {
        Failure::Memory
    }
}

/// The time of one operation, in picoseconds.
#[derive(Clone, Copy, Debug, PartialEq, Eq, PartialOrd, Ord)]
struct Each {
    picoseconds: u64,
}

impl Each {
    /// The time of one of these operations, which took this many nanoseconds together.
    fn of(nanoseconds: u64, operations: u64) -> Each {
        Each {
            picoseconds: nanoseconds.saturating_mul(1_000) / operations.max(1),
        }
    }
}

/// Prints nanoseconds with one decimal.
impl fmt::Display for Each {
    fn fmt<W: fmt::Write>(&self, f: &mut fmt::Formatter<W>) -> fmt::Result {
        let whole = self.picoseconds / 1_000;
        let tenth = self.picoseconds % 1_000 / 100;
        write!(f, "{whole}.{tenth}")
    }
}

/// Writes the name and the sum of each workload, after a few operations. On error the earlier lines are written.
pub fn write_sums<R: Clock + Threads + Wait + Sync, W: Write>(
    rt: &R,
    alloc: Global,
    writer: &mut W,
) -> Result<(), Failure> {
    for workload in WORKLOADS {
        let seen = run(rt, alloc, workload.brief(), workload.few())?;
        write_line(alloc, writer, *workload, &[], seen.sum)?;
    }
    Ok(())
}

/// Writes the name, the times and the sum of each workload.
///
/// The times are the median, least and greatest of one operation, in nanoseconds, after a warm-up; there are none if a
/// clock can't be read. On error the earlier lines are written.
pub fn write_times<R: Clock + Threads + Wait + Sync, W: Write>(
    rt: &R,
    alloc: Global,
    writer: &mut W,
) -> Result<(), Failure> {
    for workload in WORKLOADS {
        let operations = workload.operations();
        let mut sum = run(rt, alloc, *workload, operations)?.sum;
        let mut times = Vec::new(alloc);
        for _ in 0..REPETITIONS {
            let seen = run(rt, alloc, *workload, operations)?;
            sum = seen.sum;
            if let Some(nanoseconds) = seen.nanoseconds {
                times
                    .push(Each::of(nanoseconds, operations))
                    .map_err(AllocError::from)?;
            }
        }
        times.sort_unstable();
        write_line(alloc, writer, *workload, times.as_slice(), sum)?;
    }
    Ok(())
}

/// Writes a workload's line; `times` are sorted.
fn write_line<W: Write>(
    alloc: Global,
    writer: &mut W,
    workload: Workload,
    times: &[Each],
    sum: u64,
) -> Result<(), Failure> {
    let name = workload.name(alloc)?;
    let line = match times {
        [least, .., greatest] => {
            let median = times[times.len() / 2];
            format!(in alloc; "{name:<34} {median:>12} ns ({least} .. {greatest}) {sum:016x}\n")?
        }
        _ => format!(in alloc; "{name:<34} {sum:016x}\n")?,
    };
    writer
        .write_all(line.as_bytes())
        .map_err(|_| Failure::Output)
}
