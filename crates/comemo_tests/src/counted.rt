//! A hit runs nothing: what a function needs, here the number of its runs, stays as it was.

use crate::again::Location;
use comemo::{CacheData, Fault, How, Recorder, Run, Top, memoized_mut_with, memoized_with};
use comemo_examples::late::Bump;
use comemo_examples::{Context, ContextCall, Counter};
use std::alloc::Global;

/// `Location`, which also counts its runs.
impl Run<Context, u64> for Location {
    fn run(_: &(), of: &mut Recorder<'_, Context>, runs: &mut u64) -> Result<u64, Fault> {
        *runs = runs.wrapping_add(1);
        of.ask(ContextCall::Location)
    }
}

/// Whether a call of `Location` returns the location, and ends as `how`.
fn locates(
    alloc: Global,
    cache: &mut CacheData<Location>,
    runs: &mut u64,
    (location, styles): (u64, u64),
    how: How,
) -> bool {
    let context = Context { location, styles };
    let enabled = how != How::Disabled;
    match memoized_with(alloc, cache, runs, (), &context, &mut Top::new(), enabled) {
        Ok(reply) => reply.output == location && reply.how == how,
        Err(_) => false,
    }
}

#[test]
fn a_hit_of_a_function_that_reads_runs_nothing(rt: HostRuntime) {
    let alloc = rt.alloc();
    let mut cache: CacheData<Location> = CacheData::new(alloc);
    let mut runs = 0;
    // A call's location and styles, how it ends, and the number of runs after it.
    let calls: &[((u64, u64), How, u64)] = &[
        ((3, 40), How::Stored, 1),
        ((3, 40), How::Hit, 1),
        ((3, 41), How::Hit, 1),
        ((5, 41), How::Stored, 2),
        ((5, 41), How::Disabled, 3),
        ((3, 41), How::Hit, 3),
    ];
    for (context, how, count) in calls {
        let is_so = locates(alloc, &mut cache, &mut runs, *context, *how);
        assert!(rt; is_so, "for {context:?} {how:?}");
        assert_eq!(rt; runs, *count);
    }
}

/// Whether a call of `Bump` on a counter at a number returns that number, adds 3, and ends as `how`.
fn bumps(
    alloc: Global,
    cache: &mut CacheData<Bump>,
    runs: &mut u64,
    number: u64,
    how: How,
) -> bool {
    let mut counter = Counter { number };
    let enabled = how != How::Disabled;
    let sink = &mut Top::new();
    let is_so = match memoized_mut_with(alloc, cache, runs, 3, &mut counter, sink, enabled) {
        Ok(reply) => reply.output == number && reply.how == how,
        Err(_) => false,
    };
    is_so && counter.number == number.wrapping_add(3)
}

#[test]
fn a_hit_of_a_function_that_writes_runs_nothing(rt: HostRuntime) {
    let alloc = rt.alloc();
    let mut cache: CacheData<Bump> = CacheData::new(alloc);
    let mut runs = 0;
    // The counter's number before a call, how the call ends, and the number of runs after it.
    let calls: &[(u64, How, u64)] = &[
        (0, How::Stored, 1),
        (0, How::Hit, 1),
        (3, How::Stored, 2),
        (0, How::Hit, 2),
        (3, How::Disabled, 3),
        (3, How::Hit, 3),
    ];
    for (number, how, count) in calls {
        let is_so = bumps(alloc, &mut cache, &mut runs, *number, *how);
        assert!(rt; is_so, "for {number} {how:?}");
        assert_eq!(rt; runs, *count);
    }
}
