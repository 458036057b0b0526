//! Many workers and one cache.

use crate::workers::doubling::doubled;
use crate::workers::gate::Open;
use comemo::Cache;
use comemo_examples::double::Double;
use std::alloc::{AllocError, Global};
use std::sync::Wait;
use std::thread::{Threads, join, map_indices};

/// Whether a worker's calls were all right: it doubles each call's number modulo 16.
fn works<R: Wait>(rt: &R, alloc: Global, cache: &Cache<Double>, calls: u32) -> bool {
    for call in 0..calls {
        let number = call % 16;
        match doubled(alloc, &mut cache.hold(rt), number, &Open) {
            Ok(Some(reply)) if reply.output == 2 * number => {}
            _ => return false,
        }
    }
    true
}

/// Whether workers, each in its own thread, got right outputs through one cache. Fails if starting them does.
pub fn threads<R: Threads + Wait + Sync>(
    rt: &R,
    alloc: Global,
    cache: &Cache<Double>,
    workers: usize,
    calls: u32,
) -> Result<bool, AllocError> {
    let worked = map_indices(rt, alloc, workers, &|_| works(rt, alloc, cache, calls))?;
    Ok(worked.iter().all(|right| *right))
}

/// Whether sixteen workers get right outputs while another thread evicts their cache.
pub fn workers_beside_evictions<R: Threads + Wait + Sync>(rt: &R, alloc: Global) -> bool {
    let cache = Cache::new(alloc);
    let (worked, ()) = join(
        rt,
        || threads(rt, alloc, &cache, 16, 2000),
        || {
            for _ in 0..100 {
                cache.evict(rt, 1);
            }
        },
    );
    worked == Ok(true)
}
