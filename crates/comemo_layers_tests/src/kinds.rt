//! Branches of two kinds, and branches within branches.
ghost use Rattle.std.specs.Prelude.{◌≡◌};
ghost use Rattle.std.specs.Thread.{IsSync};
ghost use Rattle.comemo.specs.Recursive.{TellsOwn};
ghost use Rattle.comemo_layers_tests.specs.Rolls.{rolled_at, is_odd_at};
ghost use Rattle.comemo_layers_tests.specs.RollTells.{TellsOdd, TellsRolled, TellsSomething};

use crate::rolls::{Rolled, rolled_in_branch};
use crate::schedules::THREADS;
use comemo::internal::Told;
use comemo::{Cache, Fault, Recorder, Track};
use comemo_branches::join_in_threads;
use comemo_cutoff::{Cells, Get};
use std::alloc::{AllocError, Global};
use std::marker::Sync;
use std::sync::Wait;
use std::sync::atomic::{AtomicUsize, Ordering};
use std::thread::Threads;

/// The number of a place, through the cache, and whether another place has an odd one. Each is found in a branch.
fn number_and_odd<R: Threads + Wait + Sync>(
    rt: &R,
    threads: usize,
    cache: &Cache<Rolled>,
    place: u32,
    other: u32,
    of: &mut Recorder<'_, Cells>,
) -> Result<(u64, bool), Fault>
    ensures { TellsOwn ⟦<Cells as Told>⟧.fits of.old of.new result
        (λ out m. (out.0 ≡ rolled_at m place) × (out.1 ≡ is_odd_at m other)) }
{
    join_in_threads(
        rt,
        threads,
        of,
        |of: &mut Recorder<'_, Cells>| -> Result<u64, Fault>
            ensures { TellsRolled place of.old of.new result }
        { rolled_in_branch(rt, cache, place, of) },
        |of: &mut Recorder<'_, Cells>| -> Result<bool, Fault>
            ensures { TellsOdd other of.old of.new result }
        { is_odd(other, of) },
    )
}

/// Whether a place has an odd number.
fn is_odd(place: u32, of: &mut Recorder<'_, Cells>) -> Result<bool, Fault>
    ensures { TellsOwn ⟦<Cells as Told>⟧.fits of.old of.new result
        (λ odd m. odd ≡ is_odd_at m place) }
{
    let number = of.ask(Get { place })?;
    Ok(number % 2 == 1)
}

#[test]
fn branches_of_two_kinds_are_joined(rt: HostRuntime) -> Result<(), AllocError> {
    let alloc = rt.alloc();
    let cells = Cells::new(alloc, 8)?;
    for threads in THREADS {
        let cache: Cache<Rolled> = Cache::new(alloc);
        let mut of = Recorder::new(alloc, cells.view(alloc));
        let came = number_and_odd(&rt, threads, &cache, 0, 2, &mut of);
        assert_eq!(rt; came, Ok((1_442_695_040_888_963_407, true)), "by {threads}");
    }
    Ok(())
}

/// How many leaves of a tree are asked now, and how many were at once at most.
#[derive(Drop)]
struct Gauge {
    now: AtomicUsize,
    most: AtomicUsize,
}

/// The total of 2^depth places from this one on, which wraps at 64 bits. A branch within branches asks each, and each half
/// has half of the threads.
#[cycle(halves)]
fn halved<R: Threads + Sync>(
    rt: &R,
    threads: usize,
    gauge: &Gauge,
    first: u32,
    depth: u32,
    of: &mut Recorder<'_, Cells>,
) -> Result<u64, Fault>
    ensures { TellsOwn ⟦<Cells as Told>⟧.fits of.old of.new result (λ _ _. Unit {0}) }
{
    if depth == 0 {
        return gauged(gauge, first, of);
    }
    let below = depth - 1;
    let middle = first.wrapping_add(1u32.wrapping_shl(below));
    let lower = threads / 2;
    let upper = threads - lower;
    let low = |of: &mut Recorder<'_, Cells>| -> Result<u64, Fault>
        requires { IsSync R.row }
        ensures { TellsSomething of.old of.new result }
    { halved(rt, lower, gauge, first, below, of) };
    let high = |of: &mut Recorder<'_, Cells>| -> Result<u64, Fault>
        requires { IsSync R.row }
        ensures { TellsSomething of.old of.new result }
    { halved(rt, upper, gauge, middle, below, of) };
    let (left, right) = join_in_threads(rt, threads, of, low, high)?;
    Ok(left.wrapping_add(right))
}

/// The number of a place. It is gauged how many are asked at once.
fn gauged(gauge: &Gauge, place: u32, of: &mut Recorder<'_, Cells>) -> Result<u64, Fault>
    ensures { TellsOwn ⟦<Cells as Told>⟧.fits of.old of.new result (λ _ _. Unit {0}) }
{
    let others = gauge.now.fetch_add(1, Ordering::SeqCst);
    gauge
        .most
        .fetch_max(others.wrapping_add(1), Ordering::SeqCst);
    let number = of.ask(Get { place });
    gauge.now.fetch_sub(1, Ordering::SeqCst);
    number
}

/// The total of 1,024 places by so many threads, and how many of them were asked at once at most.
fn total_and_most<R: Threads + Sync>(
    rt: &R,
    alloc: Global,
    threads: usize,
    cells: &Cells,
) -> Option<(u64, usize)> {
    let gauge = Gauge {
        now: AtomicUsize::new(0),
        most: AtomicUsize::new(0),
    };
    let mut of = Recorder::new(alloc, cells.view(alloc));
    match halved(rt, threads, &gauge, 0, 10, &mut of) {
        Ok(total) => Some((total, gauge.most.load(Ordering::SeqCst))),
        Err(_) => None,
    }
}

#[test]
fn branches_within_branches_share_the_threads(rt: HostRuntime) -> Result<(), AllocError> {
    let alloc = rt.alloc();
    let cells = Cells::new(alloc, 1024)?;
    for threads in THREADS {
        // Place i has the number 3 i + 1.
        let came = total_and_most(&rt, alloc, threads, &cells);
        let is_so =
            matches!(came, Some((total, most)) if total == 3 * 1023 * 512 + 1024 && most <= threads.max(1));
        assert!(rt; is_so, "{came:?} by {threads}");
    }
    Ok(())
}
