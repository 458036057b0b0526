//! Doubles of numbers, in a cache that threads share.
ghost use Rattle.std.specs.Prelude.{◌≡◌, ◌+◌, ◌%◌, ◌^◌, IfOk, IfSome};

use crate::workers::gate::{Gate, Meeting, Open, TURNS};
use comemo::internal::{Evict, Keyed};
use comemo::{Begun, Fault, Hold, How, Reply, Top, Track, begin};
use comemo_examples::double::Double;
use std::alloc::Global;
use std::rt::Clock;
use std::thread::{Threads, join};

/// The double of a number, memoized; `None` if a gate of the run didn't open. It holds no lock while it runs.
pub fn doubled<H: Hold<Double>, G: Gate>(
    alloc: Global,
    cache: &mut H,
    number: u32,
    gate: &G,
) -> Result<Option<Reply<u32>>, Fault>
    ensures output { IfOk result (λ reply. IfSome reply
        (λ r. r.output ≡ (number + number) % 2 ^ 32)) }
{
    let nothing = ();
    let mut input = Keyed {
        key: &number,
        view: nothing.view(alloc),
    };
    let mut sink = Top::new();
    match begin(alloc, cache, &mut input, &mut sink, true) {
        Ok(Begun::Hit(output)) => Ok(Some(Reply {
            output,
            how: How::Hit,
        })),
        Ok(Begun::Run(pending)) => {
            let is_begun = gate.reach(1);
            let output = number.wrapping_add(number);
            if !is_begun || !gate.reach(2) {
                pending.give_up(&mut sink);
                return Ok(None);
            }
            match pending.finish(cache, &mut sink, output) {
                Ok(reply) => Ok(Some(reply)),
                Err(fault) => Err(fault),
            }
        }
        Err(fault) => Err(fault),
    }
}

/// What a call came to; `None` if a gate of its run didn't open.
type Ran = Result<Option<Reply<u32>>, Fault>;

/// Whether of two runs of 21 one was stored, the other got `AlreadyExists`, and a third call hit, all with its double.
fn is_one_stored(first: Ran, second: Ran, third: Ran) -> Result<bool, Fault> {
    let (Some(first), Some(second)) = (first?, second?) else {
        return Ok(false);
    };
    let Some(third) = third? else {
        return Ok(false);
    };
    let hows = match first.how {
        How::Stored => second.how == How::AlreadyExists,
        How::AlreadyExists => second.how == How::Stored,
        _ => false,
    };
    let are_double = first.output == 42 && second.output == 42 && third.output == 42;
    Ok(hows && third.how == How::Hit && are_double)
}

/// Runs the same key on two threads at once. True if one run is stored, the other gets `AlreadyExists`, and a third
/// call hits.
pub fn two_runs_of_one_key<R: Threads + Clock + Sync, H: Hold<Double> + Send + Drop>(
    rt: &R,
    alloc: Global,
    mut left: H,
    mut right: H,
) -> Result<bool, Fault> {
    let gate = Meeting::new(rt, 2, TURNS);
    let (first, second) = join(
        rt,
        || doubled(alloc, &mut left, 21, &gate),
        || doubled(alloc, &mut right, 21, &gate),
    );
    let third = doubled(alloc, &mut left, 21, &gate);
    is_one_stored(first, second, third)
}

/// How many numbers are doubled in a round.
const NUMBERS: u32 = 100;

/// Whether a round of calls, one for each number, ends like this, except like that for one number.
fn round_ends<H: Hold<Double>>(
    alloc: Global,
    cache: &mut H,
    how: How,
    one: u32,
    its: How,
) -> Result<bool, Fault> {
    for number in 0..NUMBERS {
        let want = if number == one { its } else { how };
        let Some(reply) = doubled(alloc, cache, number, &Open)? else {
            return Ok(false);
        };
        if reply.how != want {
            return Ok(false);
        }
    }
    Ok(true)
}

/// Whether an eviction with bound 0 drops the entries of all numbers, and later ones with bound 1 leave only the entry
/// that was hit between them.
pub fn evictions_reach_all_keys<H: Hold<Double>, E: Evict>(
    alloc: Global,
    cache: &mut H,
    evictor: &E,
) -> Result<bool, Fault> {
    if !round_ends(alloc, cache, How::Stored, 0, How::Stored)? {
        return Ok(false);
    }
    if !round_ends(alloc, cache, How::Hit, 0, How::Hit)? {
        return Ok(false);
    }
    evictor.evict(0);
    if !round_ends(alloc, cache, How::Stored, 0, How::Stored)? {
        return Ok(false);
    }
    evictor.evict(1);
    let hit = doubled(alloc, cache, 42, &Open)?;
    evictor.evict(1);
    let is_hit = hit.is_some_and(|reply| reply.how == How::Hit);
    Ok(is_hit && round_ends(alloc, cache, How::Stored, 42, How::Hit)?)
}
