//! The workloads of evictions. Each fills a cache, and times one eviction.

use crate::stopwatch::{Seen, Stopwatch};
use crate::sums::{SumKey, SumOfCells, sum};
use comemo::{CacheData, Fault};
use comemo_examples::Cells;
use std::alloc::Global;
use std::rt::Clock;

/// How many cells a sum adds.
const CELLS: u32 = 16;

/// How a cache's entries are laid out.
#[derive(Clone, Copy, Drop, Debug, PartialEq, Eq)]
pub enum Layout {
    /// Each under its own key, with this many calls.
    Keys { calls: u32 },
    /// All under one key, by the answers to one call.
    OneKey,
}

/// What an eviction leaves.
#[derive(Clone, Copy, Drop, Debug, PartialEq, Eq)]
pub enum Left {
    /// All entries, each one older.
    All,
    /// The half of the entries that were hit since the last eviction.
    Half,
    /// None.
    Nothing,
}

impl Left {
    /// The eviction's bound.
    fn max_age(self) -> usize {
        match self {
            Left::All => usize::MAX,
            Left::Half => 1,
            Left::Nothing => 0,
        }
    }
}

/// Calls for the sum with this number, in this layout.
fn call(
    alloc: Global,
    cache: &mut CacheData<SumOfCells>,
    cells: &mut Cells,
    layout: Layout,
    number: u64,
) -> Result<u64, Fault> {
    let (start, count) = match layout {
        Layout::Keys { calls } => (number, calls),
        Layout::OneKey => {
            cells.set(0, number);
            (1, 1)
        }
    };
    sum(alloc, cache, SumKey { start, count }, cells)
}

/// Evicts from a cache of sums. The result is the number of entries left.
pub fn evict<R: Clock>(
    rt: &R,
    alloc: Global,
    layout: Layout,
    left: Left,
    entries: u64,
) -> Result<Seen, Fault> {
    let mut cells = Cells::new(alloc, CELLS)?;
    let mut cache: CacheData<SumOfCells> = CacheData::new(alloc);
    for number in 0..entries {
        call(alloc, &mut cache, &mut cells, layout, number)?;
    }
    if left == Left::Half {
        cache.evict(1);
        for number in 0..entries / 2 {
            let even = number.wrapping_mul(2);
            call(alloc, &mut cache, &mut cells, layout, even)?;
        }
    }
    let watch = Stopwatch::start(rt);
    cache.evict(left.max_age());
    let nanoseconds = watch.nanoseconds(rt);
    let sum = cache.len() as u64;
    Ok(Seen { nanoseconds, sum })
}
