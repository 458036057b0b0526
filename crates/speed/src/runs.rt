//! How the workloads are done. Each prepares its data, then times its operations.

use crate::evictions::evict;
use crate::sharing::{Share, take_sums};
use crate::stopwatch::{Seen, Stopwatch};
use crate::sums::{SumKey, SumOfCells, sum};
use crate::texts::{text_by_kept_number, text_by_number, text_itself};
use crate::workload::Workload;
use comemo::{CacheData, Fault};
use comemo_examples::Cells;
use std::alloc::Global;
use std::rt::Clock;
use std::sync::Wait;
use std::thread::Threads;

/// The number of cells.
const CELLS: u32 = 128;

/// Does a workload's operations, with a new cache and new values. Fails if one of them runs out of memory.
///
/// The time is that of all operations together.
pub fn run<R: Clock + Threads + Wait + Sync>(
    rt: &R,
    alloc: Global,
    workload: Workload,
    operations: u64,
) -> Result<Seen, Fault> {
    match workload {
        Workload::Hit { calls } => hit(rt, alloc, calls, operations),
        Workload::MissNewKeys { calls } => miss_new_keys(rt, alloc, calls, operations),
        Workload::MissLastDiffers => miss_last_differs(rt, alloc, operations),
        Workload::HitAmong { entries } => hit_among(rt, alloc, entries, operations),
        Workload::HitAmongKeys { keys } => hit_among_keys(rt, alloc, keys, operations),
        Workload::HitShared { by, calls } => {
            take_sums(rt, alloc, by, Share::of(by, calls, operations, false))
        }
        Workload::MixShared { by } => {
            take_sums(rt, alloc, by, Share::of(by, 1, operations, true))
        }
        Workload::Evict(layout, left) => evict(rt, alloc, layout, left, operations),
        Workload::TextItself => text_itself(rt, alloc, operations),
        Workload::TextByNumber => text_by_number(rt, alloc, operations),
        Workload::TextByKeptNumber => text_by_kept_number(rt, alloc, operations),
    }
}

/// Hits one cached sum.
fn hit<R: Clock>(rt: &R, alloc: Global, count: u32, operations: u64) -> Result<Seen, Fault> {
    let cells = Cells::new(alloc, CELLS)?;
    let mut cache: CacheData<SumOfCells> = CacheData::new(alloc);
    let key = SumKey { start: 1, count };
    sum(alloc, &mut cache, key, &cells)?;
    let watch = Stopwatch::start(rt);
    let mut all: u64 = 0;
    for _ in 0..operations {
        all = all.wrapping_add(sum(alloc, &mut cache, key, &cells)?);
    }
    Ok(watch.seen(rt, all))
}

/// Adds the first cells to 0, 1, 2 and so on, each under its own key, and returns the total.
fn sums_of_keys(
    alloc: Global,
    cache: &mut CacheData<SumOfCells>,
    cells: &Cells,
    count: u32,
    operations: u64,
) -> Result<u64, Fault> {
    let mut all: u64 = 0;
    for start in 0..operations {
        all = all.wrapping_add(sum(alloc, cache, SumKey { start, count }, cells)?);
    }
    Ok(all)
}

/// Misses under new keys. The cache was filled and emptied before, so it has room.
fn miss_new_keys<R: Clock>(
    rt: &R,
    alloc: Global,
    count: u32,
    operations: u64,
) -> Result<Seen, Fault> {
    let cells = Cells::new(alloc, CELLS)?;
    let mut cache: CacheData<SumOfCells> = CacheData::new(alloc);
    sums_of_keys(alloc, &mut cache, &cells, count, operations)?;
    cache.evict(0);
    let watch = Stopwatch::start(rt);
    let all = sums_of_keys(alloc, &mut cache, &cells, count, operations)?;
    Ok(watch.seen(rt, all))
}

/// Adds ten cells to 1, the last of which holds 0, 1, 2 and so on, and returns the total.
fn sums_of_last(
    alloc: Global,
    cache: &mut CacheData<SumOfCells>,
    cells: &mut Cells,
    operations: u64,
) -> Result<u64, Fault> {
    let (start, count) = (1, 10);
    let key = SumKey { start, count };
    let mut all: u64 = 0;
    for number in 0..operations {
        cells.set(9, number);
        all = all.wrapping_add(sum(alloc, cache, key, cells)?);
    }
    Ok(all)
}

/// Misses under one key by the last of ten cells. The cache was filled and emptied before, so it has room.
fn miss_last_differs<R: Clock>(rt: &R, alloc: Global, operations: u64) -> Result<Seen, Fault> {
    let mut cells = Cells::new(alloc, CELLS)?;
    let mut cache: CacheData<SumOfCells> = CacheData::new(alloc);
    sums_of_last(alloc, &mut cache, &mut cells, operations)?;
    cache.evict(0);
    let watch = Stopwatch::start(rt);
    let all = sums_of_last(alloc, &mut cache, &mut cells, operations)?;
    Ok(watch.seen(rt, all))
}

/// The step's number below a bound, in a scattered order.
fn scattered(step: u64, numbers: u64) -> u64 {
    step.wrapping_mul(7919).wrapping_add(13) % numbers.max(1)
}

/// Hits among sums of one cell, which held 0, 1, 2 and so on.
fn hit_among<R: Clock>(
    rt: &R,
    alloc: Global,
    entries: u64,
    operations: u64,
) -> Result<Seen, Fault> {
    let mut cells = Cells::new(alloc, CELLS)?;
    let mut cache: CacheData<SumOfCells> = CacheData::new(alloc);
    let key = SumKey { start: 1, count: 1 };
    for number in 0..entries {
        cells.set(0, number);
        sum(alloc, &mut cache, key, &cells)?;
    }
    let watch = Stopwatch::start(rt);
    let mut all: u64 = 0;
    for hit in 0..operations {
        cells.set(0, scattered(hit, entries));
        all = all.wrapping_add(sum(alloc, &mut cache, key, &cells)?);
    }
    Ok(watch.seen(rt, all))
}

/// Hits among sums of one cell, each under its own key.
fn hit_among_keys<R: Clock>(
    rt: &R,
    alloc: Global,
    keys: u64,
    operations: u64,
) -> Result<Seen, Fault> {
    let cells = Cells::new(alloc, CELLS)?;
    let mut cache: CacheData<SumOfCells> = CacheData::new(alloc);
    let count = 1;
    for start in 0..keys {
        sum(alloc, &mut cache, SumKey { start, count }, &cells)?;
    }
    let watch = Stopwatch::start(rt);
    let mut all: u64 = 0;
    for hit in 0..operations {
        let start = scattered(hit, keys);
        all = all.wrapping_add(sum(alloc, &mut cache, SumKey { start, count }, &cells)?);
    }
    Ok(watch.seen(rt, all))
}
