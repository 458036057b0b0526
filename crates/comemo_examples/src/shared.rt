//! A function that several threads call through one cache.
ghost use Rattle.std.specs.Prelude.{◌≡◌, ◌<◌, ℕ, length, IfOk, slice_index_or};

use crate::Town;
use crate::warmth::Warmth;
use comemo::{Cache, Fault, memoized};
use std::alloc::{AllocError, Global};
use std::sync::Wait;
use std::thread::{Threads, join, map_indices};

/// How warm a town is, through a cache that threads share.
pub fn shared_warmth<R: Wait>(
    rt: &R,
    alloc: Global,
    cache: &Cache<Warmth>,
    town: &Town,
) -> Result<u64, Fault>
    ensures { IfOk result (λ degrees. degrees ≡ town.now.degrees) }
{
    let held = &mut cache.hold(rt);
    let reply = memoized(alloc, held, (), town)?;
    Ok(reply.output)
}

/// How warm two towns are, each asked in its own thread.
pub fn both_warmths<R: Threads + Wait + Sync>(
    rt: &R,
    alloc: Global,
    cache: &Cache<Warmth>,
    north: &Town,
    south: &Town,
) -> Result<(u64, u64), Fault>
    ensures { IfOk result
        (λ degrees. (degrees.0 ≡ north.now.degrees) × (degrees.1 ≡ south.now.degrees)) }
{
    let (left, right) = join(
        rt,
        || shared_warmth(rt, alloc, cache, north),
        || shared_warmth(rt, alloc, cache, south),
    );
    Ok((left?, right?))
}

/// How warm each of these towns is, in their order: a table that threads fill through one cache.
///
/// Fails if out of memory for the table. A town whose call fails has its fault in the table.
pub fn warmths<R: Threads + Wait + Sync>(
    rt: &R,
    alloc: Global,
    cache: &Cache<Warmth>,
    towns: &[Town],
) -> Result<Vec<Result<u64, Fault>>, AllocError>
    ensures { IfOk result (λ table. (i : ℕ) (d : _) (e : _) → i < length towns.now
        → IfOk (slice_index_or table.items i e)
        (λ degrees. degrees ≡ (slice_index_or towns.now i d).degrees)) }
{
    map_indices(
        rt,
        alloc,
        towns.len(),
        &|i| shared_warmth(rt, alloc, cache, &towns[i]),
    )
}
