//! A memoized function that calls itself, by hand: each of its calls is a history, with those of its run in it.
ghost use Rattle.std.specs.Prelude.{◌≡◌, IfOk, ◌%◌, ◌^◌, true, ⊤};
ghost use Rattle.std.proofs.Common.{rules};
ghost use Rattle.comemo_cache.specs.Meaning.{invocation};
ghost use Rattle.comemo_theorems.specs.Fibonacci.{fib};
ghost use Rattle.comemo_theorems.specs.Requests.{Happened, CallHappened};

use comemo::internal::{Hashed, Meant};
use comemo::{Begun, CacheData, Constraint, Fault, Function, How, Reply, begin};
use std::alloc::Global;

/// A Fibonacci number.
pub struct Fibonacci;

impl Function for Fibonacci {
    type Call = ();

    type Key = u64;

    type Answer = ();

    type Out = u64;

    ghost means = { λ n _ out. out ≡ fib n % 2 ^ 64 };

    ghost writes = { λ _ _ _ _. ⊤ };

    ghost laws = { Prim.search rules };
}

/// The number at an index, from memoized calls for the two before it.
#[cycle(counting)]
fn from_before(
    alloc: Global,
    cache: &mut CacheData<Fibonacci>,
    place: u64,
    recording: &mut Constraint<(), ()>,
) -> Result<u64, Fault>
    ensures number { IfOk result (λ number. number ≡ fib place % 2 ^ 64) }
    ensures history { Happened ⟦<Fibonacci as Meant>⟧.meaning cache.old cache.new }
{
    if place < 2 {
        return Ok(place);
    }
    let one = numbered(alloc, cache, place - 1, recording)?;
    let other = numbered(alloc, cache, place - 2, recording)?;
    Ok(one.output.wrapping_add(other.output))
}

/// A Fibonacci number, modulo 2^64, memoized, as are those before it.
#[cycle(counting)]
pub fn numbered(
    alloc: Global,
    cache: &mut CacheData<Fibonacci>,
    place: u64,
    sink: &mut Constraint<(), ()>,
) -> Result<Reply<u64>, Fault>
    ensures number { IfOk result (λ reply. reply.output ≡ fib place % 2 ^ 64) }
    ensures history { CallHappened ⟦<Fibonacci as Meant>⟧.meaning
        (invocation place (λ _. tt) true) cache.old cache.new result }
{
    match begin(alloc, cache, &mut Hashed(place), sink, true) {
        Ok(Begun::Hit(output)) => Ok(Reply {
            output,
            how: How::Hit,
        }),
        Ok(Begun::Run(mut pending)) => {
            let ran = from_before(alloc, cache, place, pending.recording());
            pending.end(cache, sink, ran)
        }
        Err(fault) => Err(fault),
    }
}
