//! Rounds whose turns threads take.

use comemo::internal::Shared;
use comemo::{
    At, Cache, CacheData, Fault, Hold, Known, MultiCall, Provider, Round, RoundError, Track, Turn,
};
use comemo_branches::outputs_in_threads;
use comemo_cutoff::Cells;
use comemo_cutoff::rounds::{Rounded, SumCache};
use std::alloc::{AllocError, Global};
use std::marker::Sync;
use std::sync::Wait;

/// The cache of the sums, how many turns calls of them took, and how many of these returned a sum.
#[derive(Drop)]
struct Turns<H> {
    sums: SumCache<H>,
    taken: usize,
    returned: usize,
}

impl<H: Hold<Rounded>> Provider<Cells, Rounded> for Turns<H> {
    fn provide(
        &mut self,
        count: &u32,
        turn: &mut Turn<'_, Known<'_, Cells, Rounded>>,
    ) -> Result<u64, Fault> {
        self.taken = self.taken.wrapping_add(1);
        let sum = self.sums.provide(count, turn)?;
        self.returned = self.returned.wrapping_add(1);
        Ok(sum)
    }
}

/// This many providers, which share a cache.
fn sharing<'c, R: Wait>(
    rt: &'c R,
    alloc: Global,
    cache: &'c Cache<Rounded>,
    count: usize,
) -> Result<Vec<Turns<Shared<'c, Rounded, R>>>, AllocError> {
    let mut providers = Vec::new(alloc);
    for _i in 0..count {
        providers.push(Turns {
            sums: SumCache {
                cache: cache.hold(rt),
            },
            taken: 0,
            returned: 0,
        })?;
    }
    Ok(providers)
}

/// How many turns these providers took, and how many of these returned a sum.
fn totals<H>(providers: &[Turns<H>]) -> (usize, usize) {
    let mut taken = 0usize;
    let mut returned = 0usize;
    for provider in providers {
        taken = taken.wrapping_add(provider.taken);
        returned = returned.wrapping_add(provider.returned);
    }
    (taken, returned)
}

/// The sums that are asked. The longest one needs all others.
const COUNTS: [u32; 8] = [30, 7, 20, 7, 0, 13, 29, 3];

#[test]
fn sums_are_those_of_one_thread(rt: HostRuntime) -> Result<(), RoundError<u32>> {
    let alloc = rt.alloc();
    let cells = Cells::new(alloc, 40)?;
    let mut alone = Turns {
        sums: SumCache {
            cache: CacheData::new(alloc),
        },
        taken: 0,
        returned: 0,
    };
    let mut first = Round::new(alloc, &cells);
    for threads in 1..6 {
        let cache: Cache<Rounded> = Cache::new(alloc);
        let mut providers = sharing(&rt, alloc, &cache, threads)?;
        let mut round = Round::new(alloc, &cells);
        let sums = outputs_in_threads(&rt, &mut round, providers.as_mut_slice(), &COUNTS)?;
        assert_eq!(rt; sums.len(), COUNTS.len());
        for (count, sum) in COUNTS.iter().zip(sums.iter()) {
            assert_eq!(rt;
                first.output(&mut alone, *count),
                Ok(*sum),
                "{count} by {threads}"
            );
        }
    }
    Ok(())
}

#[test]
fn a_sum_is_verified_once_for_all_threads(rt: HostRuntime) -> Result<(), RoundError<u32>> {
    let alloc = rt.alloc();
    let mut cells = Cells::new(alloc, 40)?;
    let cache: Cache<Rounded> = Cache::new(alloc);
    for threads in 1..6 {
        cells.set(0, 10 * threads as u64);
        let mut providers = sharing(&rt, alloc, &cache, threads)?;
        let mut round = Round::new(alloc, &cells);
        let _ = outputs_in_threads(&rt, &mut round, providers.as_mut_slice(), &COUNTS)?;
        // The sums of 0 to 30 cells return once each. All but the first two wait once: that of no cell is asked, and is
        // known before another needs that of one.
        assert_eq!(rt; totals(providers.as_slice()), (60, 31), "by {threads}");
        let _ = outputs_in_threads(&rt, &mut round, providers.as_mut_slice(), &[31, 7])?;
        assert_eq!(rt; totals(providers.as_slice()), (61, 32), "by {threads}");
    }
    Ok(())
}

/// Fails at the sums of so many cells and more, at the even ones by `Write`. Below, the sum of one cell needs that of two,
/// and each other one that of one cell.
#[derive(Drop)]
struct Failing {
    from: u32,
}

impl Provider<Cells, Rounded> for Failing {
    fn provide(
        &mut self,
        count: &u32,
        turn: &mut Turn<'_, Known<'_, Cells, Rounded>>,
    ) -> Result<u64, Fault> {
        if *count >= self.from {
            return Err(if *count % 2 == 0 {
                Fault::Write
            } else {
                Fault::Incomplete
            });
        }
        let needed = if *count == 1 { 2 } else { 1 };
        let _ = turn.at().ask(&MultiCall::B(At { key: needed }))?;
        Err(Fault::Memory)
    }
}

#[test]
fn a_circle_is_told(rt: HostRuntime) -> Result<(), RoundError<u32>> {
    let alloc = rt.alloc();
    let cells = Cells::new(alloc, 4)?;
    let mut providers = [Failing { from: 100 }, Failing { from: 100 }];
    let asked: &[(&[u32], u32)] = &[(&[1], 1), (&[2, 1], 2), (&[9, 8, 7], 1)];
    for (counts, on) in asked {
        let mut round = Round::new(alloc, &cells);
        let sums = outputs_in_threads(&rt, &mut round, &mut providers, counts);
        assert!(rt; matches!(sums, Err(RoundError::Circle(at)) if at == *on));
    }
    Ok(())
}

#[test]
fn the_first_fault_is_told(rt: HostRuntime) -> Result<(), RoundError<u32>> {
    let alloc = rt.alloc();
    let cells = Cells::new(alloc, 40)?;
    let mut round = Round::new(alloc, &cells);
    let mut providers = [
        Failing { from: 4 },
        Failing { from: 4 },
        Failing { from: 4 },
    ];
    let asked: &[(&[u32], Fault)] = &[
        (&[9, 8, 7, 6], Fault::Incomplete),
        (&[3, 2, 8, 9], Fault::Write),
        (&[3, 2, 1, 5], Fault::Incomplete),
    ];
    for (counts, fault) in asked {
        let sums = outputs_in_threads(&rt, &mut round, &mut providers, counts);
        assert!(rt; matches!(sums, Err(RoundError::Fault(told)) if told == *fault));
    }
    Ok(())
}

#[test]
fn without_providers_what_is_known_is_returned(rt: HostRuntime) -> Result<(), RoundError<u32>> {
    let alloc = rt.alloc();
    let cells = Cells::new(alloc, 40)?;
    let mut round = Round::new(alloc, &cells);
    let cache: Cache<Rounded> = Cache::new(alloc);
    let mut providers = sharing(&rt, alloc, &cache, 2)?;
    let sums = outputs_in_threads(&rt, &mut round, providers.as_mut_slice(), &[5])?;
    let mut none = sharing(&rt, alloc, &cache, 0)?;
    let again = outputs_in_threads(&rt, &mut round, none.as_mut_slice(), &[5, 4])?;
    assert_eq!(rt; (again.len(), again.first()), (2, sums.first()));
    let unknown = outputs_in_threads(&rt, &mut round, none.as_mut_slice(), &[6]);
    assert!(rt; matches!(unknown, Err(RoundError::Fault(Fault::Memory))));
    Ok(())
}
