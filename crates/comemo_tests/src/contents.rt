//! What caches hold, in numbers: entries of several keys and ages, after evictions, also of a cache behind locks.
ghost use Rattle.std.specs.Prelude.{◌≡◌};
ghost use Rattle.std.proofs.Common.{rules};

use comemo::{Cache, CacheData, Contents, Fault, Function, Hold, Recorder, Run, memoized};
use comemo_examples::{Town, TownCall};
use std::alloc::Global;

/// How warm a town is, for a reader who has a number.
pub struct WarmthFor;

impl Function for WarmthFor {
    type Key = u64;

    type Call = TownCall;

    type Answer = u64;

    type Out = u64;

    ghost use Rattle.comemo_examples.specs.declared.town.TownCall.TheVariants.{Degrees};

    ghost means = { λ _ m out. out ≡ m Degrees };

    ghost laws = { Prim.search rules };
}

impl Run<Town, ()> for WarmthFor {
    fn run(_: &u64, town: &mut Recorder<'_, Town>, _: &mut ()) -> Result<u64, Fault> {
        let degrees = town.ask(TownCall::Degrees)?;
        Ok(degrees)
    }
}

/// Whether there is a hit or a run of the function for each of these readers, while the town has these degrees.
fn asks_all<H: Hold<WarmthFor>>(
    alloc: Global,
    cache: &mut H,
    readers: &[u64],
    degrees: u64,
) -> bool {
    let town = Town {
        people: 900,
        degrees,
    };
    let mut is_so = true;
    for reader in readers {
        let is_told = memoized(alloc, cache, *reader, &town).is_ok();
        is_so = is_so && is_told;
    }
    is_so
}

/// Whether there is a hit or a run of the function for each reader below a number, while the town has these degrees.
fn asks_below<H: Hold<WarmthFor>>(alloc: Global, cache: &mut H, bound: u64, degrees: u64) -> bool {
    let mut is_so = true;
    for reader in 0..bound {
        let is_told = asks_all(alloc, cache, &[reader], degrees);
        is_so = is_so && is_told;
    }
    is_so
}

/// Whether a cache holds so many entries, under so many keys, of these ages.
fn are(contents: Contents, entries: usize, keys: usize, ages: &[usize]) -> bool {
    contents.entries == entries && contents.keys == keys && contents.ages.as_slice() == ages
}

/// Whether an unshared cache does.
fn holds(cache: &CacheData<WarmthFor>, entries: usize, keys: usize, ages: &[usize]) -> bool {
    are(cache.contents(), entries, keys, ages)
}

#[test]
fn an_empty_cache_holds_nothing(rt: HostRuntime) {
    let cache: CacheData<WarmthFor> = CacheData::new(rt.alloc());
    assert!(rt; holds(&cache, 0, 0, &[0; 8]));
}

#[test]
fn entries_are_counted_by_key_and_age(rt: HostRuntime) {
    let alloc = rt.alloc();
    let mut cache: CacheData<WarmthFor> = CacheData::new(alloc);
    assert!(rt; asks_all(alloc, &mut cache, &[1, 2, 3], 21));
    assert!(rt; asks_all(alloc, &mut cache, &[1, 2], 4));
    assert!(rt; holds(&cache, 5, 3, &[5, 0, 0, 0, 0, 0, 0, 0]));
    cache.evict(30);
    cache.evict(30);
    // A hit makes an entry young again.
    assert!(rt; asks_all(alloc, &mut cache, &[2], 21));
    assert!(rt; asks_all(alloc, &mut cache, &[4], 21));
    cache.evict(30);
    assert!(rt; holds(&cache, 6, 4, &[0, 2, 0, 4, 0, 0, 0, 0]));
    for _ in 0..4_u32 {
        cache.evict(30);
    }
    // Ages 5 and 7.
    assert!(rt; holds(&cache, 6, 4, &[0, 0, 0, 0, 0, 2, 0, 4]));
    for _ in 0..3_u32 {
        cache.evict(30);
    }
    // Ages 8 and 10.
    assert!(rt; holds(&cache, 6, 4, &[0, 0, 0, 0, 0, 0, 0, 6]));
    cache.evict(9);
    assert!(rt; holds(&cache, 2, 2, &[0, 0, 0, 0, 0, 0, 0, 2]));
}

#[test]
fn the_parts_of_a_shared_cache_are_summed(rt: HostRuntime) {
    let alloc = rt.alloc();
    let cache: Cache<WarmthFor> = Cache::new(alloc);
    let mut hold = cache.hold(&rt);
    assert!(rt; are(cache.contents(&rt), 0, 0, &[0; 8]));
    assert!(rt; asks_below(alloc, &mut hold, 100, 21));
    assert!(rt; asks_below(alloc, &mut hold, 10, 4));
    cache.evict(&rt, 30);
    assert!(rt; asks_all(alloc, &mut hold, &[200, 201], 21));
    assert!(rt; are(cache.contents(&rt), 112, 102, &[2, 110, 0, 0, 0, 0, 0, 0]));
    cache.evict(&rt, 0);
    assert!(rt; are(cache.contents(&rt), 0, 0, &[0; 8]));
}
