//! Branches of a run over two values, each of which asks both.
ghost use Rattle.std.specs.Prelude.{◌≡◌, OnOk};
ghost use Rattle.std.proofs.Common.{rules};

use crate::schedules::THREADS;
use comemo::{
    Begun, Both, CacheData, Fault, First, Function, How, MultiAnswer, MultiCall, Recorder, Reply,
    Second, Track,
};
use comemo_branches::map_in_threads;
use comemo_cutoff::{Cells, Get};
use std::alloc::{AllocError, Global};
use std::marker::Sync;
use std::thread::Threads;

/// A function of two values, of which any output is right.
pub struct AnythingOfTwo;

impl Function for AnythingOfTwo {
    type Key = ();

    type Call = MultiCall<Get, Get>;

    type Answer = MultiAnswer<u64, u64>;

    type Out = u64;

    ghost means = { λ _ _ _. Unit {0} };

    ghost laws = { Prim.search rules };
}

/// The places that are asked.
const PLACES: [u32; 6] = [0, 1, 2, 3, 4, 5];

/// For how many places the first value has the greater number, and how the call ended. Each place is a branch.
fn counted<R: Threads + Sync>(
    rt: &R,
    threads: usize,
    cache: &mut CacheData<AnythingOfTwo>,
    of: &mut Recorder<'_, Both<'_, Cells, Cells>>,
) -> Result<Reply<u64>, Fault> {
    let mut run = match of.begin(cache, &())? {
        Begun::Hit(output) => {
            return Ok(Reply {
                output,
                how: How::Hit,
            });
        }
        Begun::Run(run) => run,
    };
    let greater = each_compared(rt, threads, &mut run.recorder)?;
    let count = greater.iter().filter(|is| **is).count();
    of.finish_reply(cache, &(), run, count as u64)
}

/// Whether the first value has the greater number, for each place.
fn each_compared<R: Threads + Sync>(
    rt: &R,
    threads: usize,
    of: &mut Recorder<'_, Both<'_, Cells, Cells>>,
) -> Result<Vec<bool>, Fault>
    ensures value { of.new.value ≡ of.old.value }
    ensures complete { OnOk result (of.new.recording.complete ≡ of.old.recording.complete) }
{
    map_in_threads(
        rt,
        threads,
        of,
        &PLACES,
        &|of: &mut Recorder<'_, Both<'_, Cells, Cells>>, place: &u32| -> Result<bool, Fault> {
            let one = of.ask_part(First::new(), Get { place: *place })?;
            let other = of.ask_part(Second::new(), Get { place: *place })?;
            Ok(one > other)
        },
    )
}

/// How a count of two values ends, by so many threads.
fn count_of<R: Threads + Sync>(
    rt: &R,
    alloc: Global,
    threads: usize,
    cache: &mut CacheData<AnythingOfTwo>,
    (first, second): (&Cells, &Cells),
) -> Option<(u64, How)> {
    let both = Both {
        first: first.view(alloc),
        second: second.view(alloc),
    };
    let mut recorder = Recorder::new(alloc, both.view(alloc));
    match counted(rt, threads, cache, &mut recorder) {
        Ok(reply) => Some((reply.output, reply.how)),
        Err(_) => None,
    }
}

#[test]
fn branches_ask_both_values(rt: HostRuntime) -> Result<(), AllocError> {
    let alloc = rt.alloc();
    let one = Cells::new(alloc, 8)?;
    let mut other = Cells::new(alloc, 8)?;
    for threads in THREADS {
        let mut cache: CacheData<AnythingOfTwo> = CacheData::new(alloc);
        // Who has the greater numbers, and whether a place that no branch asks or one that each asks has another one.
        let calls: &[(usize, u64, u64, How)] = &[
            (3, 10, 0, How::Stored),
            (7, 0, 0, How::Hit),
            (3, 9, 1, How::Stored),
            (7, 22, 1, How::Hit),
            (3, 10, 0, How::Hit),
        ];
        for (place, number, count, how) in calls {
            other.set(*place, *number);
            let came = count_of(&rt, alloc, threads, &mut cache, (&one, &other));
            assert_eq!(rt; came, Some((*count, *how)), "by {threads}");
        }
    }
    Ok(())
}
