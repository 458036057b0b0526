//! The workloads: their names, and how often they are done.

use crate::evictions::{Layout, Left};
use std::alloc::{AllocError, Global};

/// A kind of work, whose operations are timed.
#[derive(Clone, Copy, Drop, Debug, PartialEq, Eq)]
pub enum Workload {
    /// A cached sum of this many cells.
    Hit { calls: u32 },
    /// Sums of this many cells, each under its own key. The cache is empty at first, but has room.
    MissNewKeys { calls: u32 },
    /// Sums of ten cells under one key, where the last cell differs each time. The cache is empty at first, but has
    /// room.
    MissLastDiffers,
    /// Cached sums of one cell, among this many under one key.
    HitAmong { entries: u64 },
    /// Cached sums of one cell, each under its own key, among this many.
    HitAmongKeys { keys: u64 },
    /// Cached sums of this many cells, by several threads through one cache.
    HitShared { by: u32, calls: u32 },
    /// Sums of one cell by several threads through one cache, where every tenth misses.
    MixShared { by: u32 },
    /// An eviction from a cache with this layout, which leaves these entries.
    Evict(Layout, Left),
    /// The cached length of a text, under the text.
    TextItself,
    /// The cached length of a text, under its hash, which is computed each time.
    TextByNumber,
    /// The cached length of a text, under its stored hash.
    TextByKeptNumber,
}

/// All workloads, in order.
pub const WORKLOADS: &[Workload] = &[
    Workload::Hit { calls: 0 },
    Workload::Hit { calls: 1 },
    Workload::Hit { calls: 10 },
    Workload::Hit { calls: 100 },
    Workload::MissNewKeys { calls: 0 },
    Workload::MissNewKeys { calls: 1 },
    Workload::MissNewKeys { calls: 10 },
    Workload::MissNewKeys { calls: 100 },
    Workload::MissLastDiffers,
    Workload::HitAmong { entries: 1 },
    Workload::HitAmong { entries: 1000 },
    Workload::HitAmong { entries: 100_000 },
    Workload::HitAmongKeys { keys: 100_000 },
    Workload::HitShared { by: 1, calls: 0 },
    Workload::HitShared { by: 2, calls: 0 },
    Workload::HitShared { by: 4, calls: 0 },
    Workload::HitShared { by: 1, calls: 1 },
    Workload::HitShared { by: 2, calls: 1 },
    Workload::HitShared { by: 4, calls: 1 },
    Workload::HitShared { by: 1, calls: 10 },
    Workload::HitShared { by: 2, calls: 10 },
    Workload::HitShared { by: 4, calls: 10 },
    Workload::MixShared { by: 1 },
    Workload::MixShared { by: 4 },
    Workload::Evict(Layout::Keys { calls: 1 }, Left::All),
    Workload::Evict(Layout::Keys { calls: 1 }, Left::Half),
    Workload::Evict(Layout::Keys { calls: 1 }, Left::Nothing),
    Workload::Evict(Layout::Keys { calls: 10 }, Left::All),
    Workload::Evict(Layout::Keys { calls: 10 }, Left::Nothing),
    Workload::Evict(Layout::OneKey, Left::All),
    Workload::Evict(Layout::OneKey, Left::Nothing),
    Workload::TextItself,
    Workload::TextByNumber,
    Workload::TextByKeptNumber,
];

/// How many entries there are when only the sum is wanted.
const BRIEF_ENTRIES: u64 = 5_000;

impl Workload {
    /// The workload's name in its line.
    pub fn name(self, alloc: Global) -> Result<String, AllocError> {
        match self {
            Workload::Hit { calls } => format!(in alloc; "hit {calls} calls"),
            Workload::MissNewKeys { calls } => format!(in alloc; "miss {calls} calls, new keys"),
            Workload::MissLastDiffers => String::from_str(alloc, "miss 10 calls, last differs"),
            Workload::HitAmong { entries } => {
                format!(in alloc; "hit among {entries} under one key")
            }
            Workload::HitAmongKeys { keys } => format!(in alloc; "hit among {keys} keys"),
            Workload::HitShared { by, calls } => {
                format!(in alloc; "hit {calls} calls, {by} threads")
            }
            Workload::MixShared { by } => format!(in alloc; "mix 1 calls, {by} threads"),
            Workload::Evict(layout, left) => evict_name(alloc, layout, left),
            Workload::TextItself => String::from_str(alloc, "text 1 MiB as a key, kept itself"),
            Workload::TextByNumber => String::from_str(alloc, "text 1 MiB by its number"),
            Workload::TextByKeptNumber => String::from_str(alloc, "text 1 MiB by a number kept"),
        }
    }

    /// How many operations a timed repetition does.
    pub fn operations(self) -> u64 {
        match self {
            Workload::Hit { calls } => match calls {
                0 => 600_000,
                1 => 500_000,
                2..=10 => 150_000,
                _ => 20_000,
            },
            Workload::MissNewKeys { calls: 0..=10 } | Workload::MissLastDiffers => 10_000,
            Workload::MissNewKeys { .. } => 2_000,
            Workload::HitAmong { .. } | Workload::HitAmongKeys { .. } => 400_000,
            Workload::HitShared { by, calls } => match calls {
                0 => u64::from(by) * 500_000,
                1 => u64::from(by) * 333_333,
                _ => u64::from(by) * 83_333,
            },
            Workload::MixShared { by } => u64::from(by) * 30_000,
            Workload::Evict(..) => 100_000,
            Workload::TextItself | Workload::TextByNumber => 20,
            Workload::TextByKeptNumber => 500_000,
        }
    }

    /// The workload for when only the sum is wanted: with fewer entries, which take long to make in an unoptimized
    /// program.
    pub fn brief(self) -> Workload {
        match self {
            Workload::HitAmong { entries } => Workload::HitAmong {
                entries: entries.min(BRIEF_ENTRIES),
            },
            Workload::HitAmongKeys { keys } => Workload::HitAmongKeys {
                keys: keys.min(BRIEF_ENTRIES),
            },
            other => other,
        }
    }

    /// How many operations are done when only the sum is wanted.
    pub fn few(self) -> u64 {
        match self {
            Workload::TextItself | Workload::TextByNumber => 2,
            _ => 10,
        }
    }
}

/// An eviction's name.
fn evict_name(alloc: Global, layout: Layout, left: Left) -> Result<String, AllocError> {
    let kept = match left {
        Left::All => "all",
        Left::Half => "half",
        Left::Nothing => "none",
    };
    match layout {
        Layout::Keys { calls } => format!(in alloc; "evict keeps {kept}, {calls} calls, keys"),
        Layout::OneKey => format!(in alloc; "evict keeps {kept}, 1 calls, one key"),
    }
}
