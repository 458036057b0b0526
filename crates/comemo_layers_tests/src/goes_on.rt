//! Runs that go on after a fault of a branch: they record what the branches before it recorded.
ghost use Rattle.std.specs.Prelude.{◌≡◌, OnOk, IfErr};
ghost use Rattle.std.proofs.Common.{rules};
ghost use Rattle.comemo_branches.specs.Branches.{GoesOn};

use crate::schedules::{THREADS, asked_in_order};
use comemo::internal::Told;
use comemo::{Begun, CacheData, Fault, Function, How, Recorder, Reply, Run, Track, explain};
use comemo_branches::map_in_threads;
use comemo_cutoff::{Cells, Get};
use std::alloc::{AllocError, Global};
use std::marker::Sync;
use std::thread::Threads;

/// A function of which any output is right.
pub struct Anything;

impl Function for Anything {
    type Key = u32;

    type Call = Get;

    type Answer = u64;

    type Out = bool;

    ghost means = { λ _ _ _. Unit {0} };

    ghost laws = { Prim.search rules };
}

/// The places that are asked.
const PLACES: [u32; 8] = [0, 1, 2, 3, 4, 5, 6, 7];

/// Asks the places, each in a branch, of which those from one place on fail: the even ones with `Write`, the odd ones with
/// `Incomplete`. Returns whether none failed.
fn asked_up_to<R: Threads + Sync>(
    rt: &R,
    threads: usize,
    cache: &mut CacheData<Anything>,
    failing: u32,
    of: &mut Recorder<'_, Cells>,
) -> Result<Reply<bool>, Fault> {
    let mut run = match of.begin(cache, &failing)? {
        Begun::Hit(output) => {
            return Ok(Reply {
                output,
                how: How::Hit,
            });
        }
        Begun::Run(run) => run,
    };
    let is_whole = match each_asked(rt, threads, failing, &mut run.recorder) {
        Ok(_) => true,
        Err(Fault::Memory) => return Err(Fault::Memory),
        Err(_) => false,
    };
    of.finish_reply(cache, &failing, run, is_whole)
}

/// The answers at the places, each asked in a branch.
fn each_asked<R: Threads + Sync>(
    rt: &R,
    threads: usize,
    failing: u32,
    of: &mut Recorder<'_, Cells>,
) -> Result<Vec<u64>, Fault>
    ensures value { of.new.value ≡ of.old.value }
    ensures complete { OnOk result (of.new.recording.complete ≡ of.old.recording.complete) }
    ensures goes_on { IfErr result (GoesOn ⟦<Cells as Told>⟧.fits of.old of.new) }
{
    map_in_threads(
        rt,
        threads,
        of,
        &PLACES,
        &|of: &mut Recorder<'_, Cells>, place: &u32| -> Result<u64, Fault> {
            if *place < failing {
                of.ask(Get { place: *place })
            } else if *place % 2 == 0 {
                Err(Fault::Write)
            } else {
                Err(Fault::Incomplete)
            }
        },
    )
}

/// What a run returns whose branches fail from a place on, how it ends, and whether it recorded the places up to the last one
/// before.
fn ends<R: Threads + Sync>(
    rt: &R,
    alloc: Global,
    threads: usize,
    (failing, last): (u32, u32),
    (cells, changed): (&Cells, &Cells),
) -> Option<(bool, How, bool)> {
    let mut cache: CacheData<Anything> = CacheData::new(alloc);
    let mut recorder = Recorder::new(alloc, cells.view(alloc));
    let Ok(reply) = asked_up_to(rt, threads, &mut cache, failing, &mut recorder) else {
        return None;
    };
    let is_recorded = asked_in_order(explain(alloc, &mut cache, &failing, changed), last);
    Some((reply.output, reply.how, is_recorded))
}

#[test]
fn a_run_goes_on_without_branches(rt: HostRuntime) -> Result<(), AllocError> {
    let alloc = rt.alloc();
    let cells = Cells::new(alloc, 8)?;
    // The place from which branches fail with `Write`, the last one before it, and whether none fails.
    for (failing, last, is_whole) in [(4, 3, false), (6, 5, false), (8, 7, true)] {
        let mut changed = Cells::new(alloc, 8)?;
        changed.set(last as usize, 1000);
        for threads in THREADS {
            let came = ends(&rt, alloc, threads, (failing, last), (&cells, &changed));
            assert_eq!(rt; came, Some((is_whole, How::Stored, true)), "by {threads}");
        }
    }
    Ok(())
}

#[test]
fn the_first_fault_is_returned(rt: HostRuntime) -> Result<(), AllocError> {
    let alloc = rt.alloc();
    let cells = Cells::new(alloc, 8)?;
    let mut recorder = Recorder::new(alloc, cells.view(alloc));
    for threads in THREADS {
        for (failing, fault) in [(2, Fault::Write), (5, Fault::Memory), (7, Fault::Memory)] {
            let came = each_asked(&rt, threads, failing, &mut recorder);
            assert!(rt; matches!(came, Err(told) if told == fault), "by {threads}");
        }
    }
    Ok(())
}
