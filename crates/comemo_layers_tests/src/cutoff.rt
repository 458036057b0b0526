//! Changes that leave an output as it is, and changes that don't.

use comemo::{
    At, Cache, CacheData, Fault, Hold, Known, MultiCall, Provider, Round, RoundError, Track, Turn,
};
use comemo_cutoff::Cells;
use comemo_cutoff::rounds::{Rounded, SumCache};
use std::alloc::Global;

/// The cache of the sums, and how many turns calls of them took.
#[derive(Drop)]
struct Counted<H> {
    sums: SumCache<H>,
    turns: usize,
}

impl<H: Hold<Rounded>> Provider<Cells, Rounded> for Counted<H> {
    fn provide(
        &mut self,
        count: &u32,
        turn: &mut Turn<'_, Known<'_, Cells, Rounded>>,
    ) -> Result<u64, Fault> {
        self.turns = self.turns.wrapping_add(1);
        self.sums.provide(count, turn)
    }
}

/// The sum of the first cells, each without its last digit, in a new round.
fn sum<H: Hold<Rounded>>(
    alloc: Global,
    counted: &mut Counted<H>,
    cells: &Cells,
    count: u32,
) -> Result<u64, RoundError<u32>> {
    let mut round = Round::new(alloc, cells);
    counted.turns = 0;
    round.output(counted, count)
}

/// In each round each sum takes two turns: it needs the one before at first, and then it is a hit or runs. That of no
/// cell needs none.
const TURNS: usize = 30 + 30 + 1;

#[test]
fn a_sum_runs_again_up_to_an_equal_output(rt: HostRuntime) -> Result<(), RoundError<u32>> {
    let alloc = rt.alloc();
    let mut cells = Cells::new(alloc, 40)?;
    let mut counted: Counted<CacheData<Rounded>> = Counted {
        sums: SumCache {
            cache: CacheData::new(alloc),
        },
        turns: 0,
    };
    let rounds: &[(usize, u64, u64, usize)] = &[
        (0, 1, 120, 31),
        (0, 9, 120, 32),
        (0, 10, 121, 32 + 30),
        (5, 17, 121, 32 + 31),
        (35, 0, 121, 32 + 31),
    ];
    for (place, number, total, kept) in rounds {
        cells.set(*place, *number);
        assert_eq!(rt; sum(alloc, &mut counted, &cells, 30), Ok(*total));
        assert_eq!(rt; (counted.sums.cache.len(), counted.turns), (*kept, TURNS));
    }
    Ok(())
}

#[test]
fn a_shared_cache_keeps_the_sums_too(rt: HostRuntime) -> Result<(), RoundError<u32>> {
    let alloc = rt.alloc();
    let mut cells = Cells::new(alloc, 12)?;
    let cache: Cache<Rounded> = Cache::new(alloc);
    let mut counted = Counted {
        sums: SumCache {
            cache: cache.hold(&rt),
        },
        turns: 0,
    };
    let rounds: &[(usize, u64, u64, usize)] = &[(0, 1, 10, 11), (0, 9, 10, 12), (0, 10, 11, 22)];
    for (place, number, total, kept) in rounds {
        cells.set(*place, *number);
        assert_eq!(rt; sum(alloc, &mut counted, &cells, 10), Ok(*total));
        assert_eq!(rt; cache.contents(&rt).entries, *kept);
    }
    Ok(())
}

#[test]
fn an_output_is_verified_once_in_a_round(rt: HostRuntime) -> Result<(), RoundError<u32>> {
    let alloc = rt.alloc();
    let cells = Cells::new(alloc, 40)?;
    let mut counted: Counted<CacheData<Rounded>> = Counted {
        sums: SumCache {
            cache: CacheData::new(alloc),
        },
        turns: 0,
    };
    let mut round = Round::new(alloc, &cells);
    // The sum that is asked, and how many turns were taken since the round began.
    let asked: &[(u32, usize)] = &[(30, TURNS), (30, TURNS), (7, TURNS), (31, TURNS + 1)];
    for (count, turns) in asked {
        let _ = round.output(&mut counted, *count)?;
        assert_eq!(rt; counted.turns, *turns);
    }
    Ok(())
}

#[test]
fn a_look_up_asks_no_number_twice_in_a_round(rt: HostRuntime) -> Result<(), RoundError<u32>> {
    let alloc = rt.alloc();
    let mut cells = Cells::new(alloc, 40)?;
    let mut counted: Counted<CacheData<Rounded>> = Counted {
        sums: SumCache {
            cache: CacheData::new(alloc),
        },
        turns: 0,
    };
    let _ = sum(alloc, &mut counted, &cells, 30)?;
    // A place and its number, and how many numbers are asked: each by a look-up, and a changed one by the run, which
    // begins anew once the sum before is known.
    let rounds: &[(usize, u64, u64)] = &[(0, 1, 30), (0, 9, 30 + 2), (0, 9, 30), (7, 20, 30 + 2)];
    for (place, number, asked) in rounds {
        cells.set(*place, *number);
        let before = cells.asked();
        let _ = sum(alloc, &mut counted, &cells, 30)?;
        assert_eq!(rt; cells.asked().wrapping_sub(before), *asked);
    }
    Ok(())
}

/// Asks the sum of one cell for that of two, and the other way round.
#[derive(Drop)]
struct Circle;

impl Provider<Cells, Rounded> for Circle {
    fn provide(
        &mut self,
        count: &u32,
        turn: &mut Turn<'_, Known<'_, Cells, Rounded>>,
    ) -> Result<u64, Fault> {
        let needed = if *count == 1 { 2 } else { 1 };
        let _ = turn.at().ask(&MultiCall::B(At { key: needed }))?;
        Err(Fault::Memory)
    }
}

#[test]
fn an_output_that_needs_itself_is_told(rt: HostRuntime) -> Result<(), RoundError<u32>> {
    let alloc = rt.alloc();
    let cells = Cells::new(alloc, 4)?;
    let mut round = Round::new(alloc, &cells);
    assert_eq!(rt; round.output(&mut Circle, 1), Err(RoundError::Circle(1)));
    Ok(())
}
