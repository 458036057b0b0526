//! The program: arguments in, a verdict out.
//!
//! | Arguments | Does | Prints, with status 0 | with status 1 |
//! |---|---|---|---|
//! | `rows` | runs each row | `rows ok` | `row N failed`: the first |
//! | `fuzz SEED STEPS` | random steps by a cache and by a plain list | `fuzz ok` | `step N failed`: the first
//! difference |
//! | `threads WORKERS CALLS` | WORKERS threads make CALLS calls each | `threads ok` | `threads failed` |
//!
//! Numbers are digits only. SEED fits in a `u64`, STEPS and CALLS in a `u32`, and WORKERS is 1 to 16.
ghost use Rattle.std.specs.Prelude.{◌≡◌, true, ℕ, MatchOption};
ghost use Rattle.bench_rows.specs.Started.{asks_for_rows, IsNumber, AsksForFuzz, AsksForThreads, AsksForNothing, RanRows, RanFuzz, fuzz_verdict, fuzz_status, RanThreads, threads_verdict, threads_status, usage};
ghost use Rattle.calc_lines.specs.Started.{WritesPrefix};

use crate::comparison::fuzz;
use crate::table::run_rows;
use crate::workers::threads;
use calc_lines::put_message;
use comemo::Cache;
use std::alloc::Global;
use std::io::Write;
use std::rt::Clock;
use std::sync::Wait;
use std::thread::Threads;

/// Whether the arguments ask for the rows.
fn are_rows(words: &[String]) -> bool
    ensures { result ≡ asks_for_rows words.now }
{
    match words {
        [word] => word.as_str() == "rows",
        _ => false,
    }
}

/// Parses a number of digits only, if it fits in a `u64`.
fn number_of(digits: &str) -> Option<u64>
    ensures { MatchOption result ((n : ℕ) → ¬ IsNumber digits.now n) (IsNumber digits.now) }
{
    if digits.starts_with('+') {
        return None;
    }
    digits.parse().ok()
}

/// The seed and the number of steps, if the arguments ask for these.
fn fuzz_of(words: &[String]) -> Option<(u64, u32)>
    ensures { MatchOption result ((seed steps : ℕ) → ¬ AsksForFuzz words.now seed steps)
        (λ asked. AsksForFuzz words.now asked.0 asked.1) }
{
    let [word, seed, steps] = words else {
        return None;
    };
    if word.as_str() != "fuzz" {
        return None;
    }
    let seed = number_of(seed.as_str())?;
    let steps = number_of(steps.as_str())?;
    Some((seed, u32::try_from(steps).ok()?))
}

/// The number of workers, and of calls for each, if the arguments ask for these.
fn threads_of(words: &[String]) -> Option<(usize, u32)>
    ensures { MatchOption result ((workers calls : ℕ) → ¬ AsksForThreads words.now workers calls)
        (λ asked. AsksForThreads words.now asked.0 asked.1) }
{
    let [word, workers, calls] = words else {
        return None;
    };
    if word.as_str() != "threads" {
        return None;
    }
    let workers = number_of(workers.as_str())?;
    let calls = number_of(calls.as_str())?;
    if workers < 1 || workers > 16 {
        return None;
    }
    Some((workers as usize, u32::try_from(calls).ok()?))
}

/// Prints `threads ok` or `threads failed`, and returns the exit status.
fn report_threads<W: Write>(right: bool, writer: &mut W) -> u8
    ensures status { result ≡ threads_status right }
    ensures written { WritesPrefix (W.contents writer.old) (W.contents writer.new)
        (threads_verdict right) }
{
    if right {
        let _ = put_message(writer, "threads ok", "", "\n");
        return 0;
    }
    let _ = put_message(writer, "threads failed", "", "\n");
    1
}

/// Prints `fuzz ok`, or `step N failed` for the first that failed, and returns the exit status. The number allocates;
/// without memory that line isn't printed.
fn report_fuzz<W: Write>(alloc: Global, failed: Option<u32>, writer: &mut W) -> u8
    ensures status { result ≡ fuzz_status failed }
    ensures written { WritesPrefix (W.contents writer.old) (W.contents writer.new)
        (fuzz_verdict failed) }
{
    let Some(step) = failed else {
        let _ = put_message(writer, "fuzz ok", "", "\n");
        return 0;
    };
    if let Ok(number) = format!(in alloc; "{step}") {
        let _ = put_message(writer, "step ", number.as_str(), " failed\n");
    }
    1
}

/// The whole program without its streams: `words` are the arguments after its name. Returns the exit status.
///
/// With any other arguments it only writes its usage to `errors`; the status is 2. Failures of `writer` and `errors`
/// are ignored.
pub fn start<R: Threads + Wait + Clock + Sync, W: Write, E: Write>(
    rt: &R,
    alloc: Global,
    words: &[String],
    writer: &mut W,
    errors: &mut E,
) -> u8
    ensures rows { asks_for_rows words.now ≡ true
        → RanRows (W.contents writer.old) (W.contents writer.new) result }
    ensures rows_keep_errors { asks_for_rows words.now ≡ true → errors.new ≡ errors.old }
    ensures fuzz { (seed steps : ℕ) → AsksForFuzz words.now seed steps
        → RanFuzz steps (W.contents writer.old) (W.contents writer.new) result }
    ensures fuzz_keeps_errors { (seed steps : ℕ) → AsksForFuzz words.now seed steps
        → errors.new ≡ errors.old }
    ensures threads { (workers calls : ℕ) → AsksForThreads words.now workers calls
        → RanThreads (W.contents writer.old) (W.contents writer.new) result }
    ensures threads_keep_errors { (workers calls : ℕ) → AsksForThreads words.now workers calls
        → errors.new ≡ errors.old }
    ensures usage { AsksForNothing words.now → result ≡ 2 }
    ensures usage_written { AsksForNothing words.now
        → WritesPrefix (E.contents errors.old) (E.contents errors.new) usage }
    ensures usage_keeps_writer { AsksForNothing words.now → writer.new ≡ writer.old }
{
    if are_rows(words) {
        return run_rows(rt, alloc).report(writer);
    }
    if let Some((seed, steps)) = fuzz_of(words) {
        return report_fuzz(alloc, fuzz(alloc, seed, steps), writer);
    }
    if let Some((workers, calls)) = threads_of(words) {
        let right = threads(rt, alloc, &Cache::new(alloc), workers, calls);
        return report_threads(right == Ok(true), writer);
    }
    let forms = "bench rows | fuzz SEED STEPS | threads WORKERS CALLS";
    let _ = put_message(errors, "usage: ", forms, "\n");
    2
}
