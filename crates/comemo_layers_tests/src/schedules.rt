//! Branches of a run by one thread and by several: the same output, the same recording, and the same ends of calls.

use crate::rolls::{Rolled, Total, totalled};
use comemo::{Cache, CacheData, Explanation, Recorder, Track, explain};
use comemo_cutoff::{Cells, Get};
use std::alloc::{AllocError, Global};
use std::marker::Sync;
use std::sync::Wait;
use std::thread::Threads;

/// How many threads a schedule has.
pub const THREADS: [usize; 4] = [0, 1, 2, 4];

/// How many places are asked.
const PLACES: u32 = 20;

/// The total of their numbers.
const TOTAL: u64 = 17_788_352_579_517_943_600;

/// The places 0, 1, ..
fn first_places(alloc: Global, count: u32) -> Result<Vec<u32>, AllocError> {
    let mut places = Vec::new(alloc);
    for place in 0..count {
        places.push(place)?;
    }
    Ok(places)
}

/// Whether a run asked the places 0, 1, .. in this order, if the last one is answered otherwise now.
pub fn asked_in_order(said: Result<Explanation<Get, u64>, AllocError>, last: u32) -> bool {
    let Ok(
        Explanation::Changed {
            asked,
            call,
            answer: _,
        },
    ) = said
    else {
        return false;
    };
    for (place, (get, _)) in asked.iter().enumerate() {
        if get.place as usize != place {
            return false;
        }
    }
    asked.len() == last as usize && call.place == last
}

/// Whether a total of these places is stored by so many threads, as what its branches asked in order, and found again. The
/// run asks each place once, and so does the hit.
fn is_stored<R: Threads + Wait + Sync>(
    rt: &R,
    alloc: Global,
    threads: usize,
    (cells, changed): (&Cells, &Cells),
    places: &Vec<u32>,
    total: u64,
) -> bool {
    let cache: Cache<Rolled> = Cache::new(alloc);
    let mut totals: CacheData<Total> = CacheData::new(alloc);
    let mut recorder = Recorder::new(alloc, cells.view(alloc));
    let asked = cells.asked();
    let first = totalled(rt, threads, &cache, &mut totals, places, &mut recorder);
    let again = totalled(rt, threads, &cache, &mut totals, places, &mut recorder);
    first == Ok(total)
        && again == Ok(total)
        && cells.asked().wrapping_sub(asked) == 2 * u64::from(PLACES)
        && (totals.contents().entries, cache.contents(rt).entries) == (1, places.len())
        && asked_in_order(explain(alloc, &mut totals, places, changed), PLACES - 1)
}

#[test]
fn schedules_are_the_same(rt: HostRuntime) -> Result<(), AllocError> {
    let alloc = rt.alloc();
    let cells = Cells::new(alloc, PLACES)?;
    let mut changed = Cells::new(alloc, PLACES)?;
    changed.set(PLACES as usize - 1, 1000);
    let places = first_places(alloc, PLACES)?;
    for threads in THREADS {
        let is_so = is_stored(&rt, alloc, threads, (&cells, &changed), &places, TOTAL);
        assert!(rt; is_so, "by {threads}");
    }
    Ok(())
}
