//! The workloads of threads: each thread has its own view, and its own share of one cache.

use crate::stopwatch::{Seen, Stopwatch};
use crate::sums::{SumKey, SumOfCells, sum};
use comemo::{Cache, Fault};
use comemo_examples::Cells;
use std::alloc::Global;
use std::rt::Clock;
use std::sync::Wait;
use std::thread::{Threads, map_indices};

/// How many keys have cached sums at first.
const KEYS: u64 = 16;

/// How many cells a sum adds at most.
const CELLS: u32 = 16;

/// Which sums the threads compute.
#[derive(Clone, Copy, Drop, Debug, PartialEq, Eq)]
pub struct Share {
    /// How many cells a sum adds.
    count: u32,
    /// How many sums each thread computes.
    each: u64,
    /// Whether every tenth sum is under a new key.
    misses: bool,
}

impl Share {
    /// Each thread's share of this many sums.
    pub fn of(threads: u32, count: u32, sums: u64, misses: bool) -> Share {
        let each = sums / u64::from(threads.max(1));
        Share {
            count,
            each,
            misses,
        }
    }

    /// What a thread's sum at this step starts with: one of the keys in turn, or a number that no other sum starts
    /// with.
    fn start(self, thread: u64, step: u64) -> u64 {
        if self.misses && step % 10 == 9 {
            return KEYS
                .wrapping_add(thread.wrapping_mul(self.each))
                .wrapping_add(step);
        }
        step.wrapping_add(thread) % KEYS
    }
}

/// The total of one thread's sums.
fn add_up<R: Wait>(
    rt: &R,
    alloc: Global,
    cache: &Cache<SumOfCells>,
    cells: &Cells,
    share: Share,
    thread: u64,
) -> Result<u64, Fault> {
    let held = &mut cache.hold(rt);
    let count = share.count;
    let mut all: u64 = 0;
    for step in 0..share.each {
        let start = share.start(thread, step);
        all = all.wrapping_add(sum(alloc, held, SumKey { start, count }, cells)?);
    }
    Ok(all)
}

/// Caches the sums that are hit.
fn keep_sums<R: Wait>(
    rt: &R,
    alloc: Global,
    cache: &Cache<SumOfCells>,
    cells: &Cells,
    count: u32,
) -> Result<(), Fault> {
    for start in 0..KEYS {
        sum(alloc, &mut cache.hold(rt), SumKey { start, count }, cells)?;
    }
    Ok(())
}

/// The total of all threads' sums.
fn add_up_all<R: Threads + Wait + Sync>(
    rt: &R,
    alloc: Global,
    cache: &Cache<SumOfCells>,
    cells: &Cells,
    share: Share,
    threads: u32,
) -> Result<u64, Fault> {
    let taken = map_indices(
        rt,
        alloc,
        threads as usize,
        &|thread| { add_up(rt, alloc, cache, cells, share, thread as u64) },
    );
    let mut all: u64 = 0;
    for part in taken? {
        all = all.wrapping_add(part?);
    }
    Ok(all)
}

/// Computes sums on several threads through one cache. If some miss, the cache was filled and emptied before, so it has
/// room.
pub fn take_sums<R: Clock + Threads + Wait + Sync>(
    rt: &R,
    alloc: Global,
    threads: u32,
    share: Share,
) -> Result<Seen, Fault> {
    let cells = Cells::new(alloc, CELLS)?;
    let cache: Cache<SumOfCells> = Cache::new(alloc);
    keep_sums(rt, alloc, &cache, &cells, share.count)?;
    if share.misses {
        add_up_all(rt, alloc, &cache, &cells, share, threads)?;
        cache.evict(rt, 0);
        keep_sums(rt, alloc, &cache, &cells, share.count)?;
    }
    let watch = Stopwatch::start(rt);
    let all = add_up_all(rt, alloc, &cache, &cells, share, threads)?;
    Ok(watch.seen(rt, all))
}
