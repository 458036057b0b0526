//! What a change reaches: the keys whose kept runs asked given calls, also of a cache behind locks.
ghost use Rattle.std.proofs.Common.{rules};

use comemo::{Cache, CacheData, Fault, Function, Hold, Recorder, Run, memoized};
use comemo_examples::{Town, TownCall};
use std::alloc::{AllocError, Global};

/// A number of a town, for a reader: its people if the reader's number is even, and else its degrees.
pub struct NumberFor;

impl Function for NumberFor {
    type Key = u64;

    type Call = TownCall;

    type Answer = u64;

    type Out = u64;

    ghost means = { λ _ _ _. Unit {0} };

    ghost laws = { Prim.search rules };
}

impl Run<Town, ()> for NumberFor {
    fn run(key: &u64, town: &mut Recorder<'_, Town>, _: &mut ()) -> Result<u64, Fault> {
        if *key % 2 == 0 {
            town.ask(TownCall::People)
        } else {
            town.ask(TownCall::Degrees)
        }
    }
}

/// Whether there is a hit or a run for each of four readers.
fn asks_all<H: Hold<NumberFor>>(alloc: Global, cache: &mut H) -> bool {
    let town = Town {
        people: 900,
        degrees: 7,
    };
    let mut is_so = true;
    for reader in 1..5_u64 {
        let is_told = memoized(alloc, cache, reader, &town).is_ok();
        is_so = is_so && is_told;
    }
    is_so
}

/// Whether these calls reach these keys.
fn reaches(
    alloc: Global,
    cache: &CacheData<NumberFor>,
    calls: &[TownCall],
    wanted: &[u64],
) -> bool {
    let Ok(found) = cache.reached(calls) else {
        return false;
    };
    let mut keys = Vec::new(alloc);
    for key in found {
        if keys.push(*key).is_err() {
            return false;
        }
    }
    keys.sort().is_ok() && keys.as_slice() == wanted
}

#[test]
fn a_change_reaches_the_keys_that_asked(rt: HostRuntime) {
    let alloc = rt.alloc();
    let mut cache: CacheData<NumberFor> = CacheData::new(alloc);
    assert!(rt; asks_all(alloc, &mut cache));
    let is_so = reaches(alloc, &cache, &[TownCall::Degrees], &[1, 3]);
    let asks_none = reaches(alloc, &cache, &[], &[]);
    cache.evict(0);
    let is_empty = reaches(alloc, &cache, &[TownCall::Degrees], &[]);
    assert!(rt; is_so && asks_none && is_empty);
}

/// Whether these keys, which may have been refused, are 2 and 4 in some order.
fn are_even(keys: Result<Vec<u64>, AllocError>) -> bool {
    match keys {
        Ok(mut keys) => keys.sort().is_ok() && keys.as_slice() == [2, 4].as_slice(),
        Err(_) => false,
    }
}

#[test]
fn a_change_reaches_the_keys_that_asked_behind_locks(rt: HostRuntime) {
    let alloc = rt.alloc();
    let cache: Cache<NumberFor> = Cache::new(alloc);
    let mut share = cache.hold(&rt);
    assert!(rt; asks_all(alloc, &mut share));
    let calls: &[TownCall] = &[TownCall::People];
    let is_so = are_even(cache.reached(&rt, calls));
    assert!(rt; is_so);
}
