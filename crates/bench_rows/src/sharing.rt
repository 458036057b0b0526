//! Rows of caches that threads share.

use crate::workers::{
    Null, branches_are_absorbed_in_order, evictions_reach_a_cache, two_runs_of_one_key,
};
use comemo::internal::Evict;
use comemo::{Cache, Function};
use comemo_examples::double::Double;
use std::alloc::Global;
use std::rt::Clock;
use std::sync::Wait;
use std::thread::Threads;

/// Whether of two simultaneous runs of one key one is stored, and a third call hits.
pub(crate) fn a_shared_cache_stores_one_of_two<R: Threads + Wait + Clock + Sync>(
    rt: &R,
    alloc: Global,
) -> bool {
    let cache: Cache<Double> = Cache::new(alloc);
    let (left, right) = (cache.hold(rt), cache.hold(rt));
    two_runs_of_one_key(rt, alloc, left, right) == Ok(true)
}

/// Evicts a borrowed cache.
#[derive(Drop)]
struct OfCache<'a, M: Function, R: Wait> {
    cache: &'a Cache<M>,
    rt: &'a R,
}

impl<M: Function, R: Wait> Evict for OfCache<'_, M, R> {
    fn evict(&self, max_age: usize) {
        self.cache.evict(self.rt, max_age);
    }
}

/// Whether an eviction reaches a shared cache.
fn evictions_reach_a_shared_cache<R: Wait>(rt: &R, alloc: Global) -> bool {
    let cache: Cache<Null> = Cache::new(alloc);
    let evictor = OfCache { cache: &cache, rt };
    evictions_reach_a_cache(alloc, &mut cache.hold(rt), &evictor) == Ok(true)
}

/// Whether a run's branches are absorbed in order, and an eviction reaches a shared cache.
pub(crate) fn branches_and_evictions<R: Threads + Wait + Clock + Sync>(
    rt: &R,
    alloc: Global,
) -> bool {
    branches_are_absorbed_in_order(rt, alloc) && evictions_reach_a_shared_cache(rt, alloc)
}
