//! A function that calls itself: each number is stored once, and each later call of it is a hit.

use comemo::{Begun, CacheData, Fault, How, Recorder, Track};
use comemo_sheet::fibonacci::{Fib, numbered};
use std::alloc::Global;

/// Whether this is the number at a place.
fn is_number(alloc: Global, cache: &mut CacheData<Fib>, place: u64, number: u64) -> bool {
    let mut recorder = Recorder::new(alloc, ().view(alloc));
    match numbered(cache, place, &mut recorder) {
        Ok(found) => found == number,
        Err(_) => false,
    }
}

#[test]
fn each_number_is_kept_once(rt: HostRuntime) {
    let alloc = rt.alloc();
    let mut cache: CacheData<Fib> = CacheData::new(alloc);
    let numbers: &[(u64, u64, usize)] = &[
        // those at 0 and 1 are not kept
        (90, 2880067194370816120, 89),
        (50, 12586269025, 89),
        // 19740274219868223167 less 2^64
        (94, 1293530146158671551, 93),
    ];
    for (place, number, len) in numbers {
        assert!(rt; is_number(alloc, &mut cache, *place, *number), "at {place}");
        assert!(rt; cache.len() == *len, "at {place}");
    }
}

/// How a call of the number at place 0, made by hand, ends.
fn how_it_went(alloc: Global, cache: &mut CacheData<Fib>) -> Result<How, Fault> {
    let mut recorder = Recorder::new(alloc, ().view(alloc));
    match recorder.begin(cache, &0)? {
        Begun::Hit(_) => Ok(How::Hit),
        Begun::Run(run) => {
            let reply = recorder.finish_reply(cache, &0, run, 0)?;
            Ok(reply.how)
        }
    }
}

#[test]
fn a_call_by_hand_says_what_became_of_it(rt: HostRuntime) {
    let alloc = rt.alloc();
    let mut cache: CacheData<Fib> = CacheData::new(alloc);
    assert!(rt; how_it_went(alloc, &mut cache) == Ok(How::Stored));
    assert!(rt; how_it_went(alloc, &mut cache) == Ok(How::Hit));
}
