//! A costly memoized function, and its total over a list of places, each asked in a branch.
ghost use Rattle.std.specs.Prelude.{◌≡◌, map};
ghost use Rattle.std.specs.List.{fold};
ghost use Rattle.std.proofs.Common.{rules};
ghost use Rattle.comemo_layers_tests.specs.RollTells.{TellsRolled};
ghost use Rattle.comemo.specs.Recursive.{TellsOwn};
ghost use Rattle.comemo.specs.MeaningLaws.{output_laws};
ghost use Rattle.comemo_layers_tests.specs.Rolls.{plus, rolled, rolled_at, total};
ghost use Rattle.comemo_layers_tests.specs.RollLaws.{places_alike, places_clone};

use comemo::internal::Told;
use comemo::{Begun, Cache, Fault, Function, Hold, Recorder, Run};
use comemo_branches::map_in_threads;
use comemo_cutoff::{Cells, Get};
use std::marker::Sync;
use std::sync::Wait;
use std::thread::Threads;

/// A place after as many steps of a generator of numbers as the number there says.
pub struct Rolled;

impl Function for Rolled {
    type Key = u32;

    type Call = Get;

    type Answer = u64;

    type Out = u64;

    ghost means = { λ place m out. out ≡ rolled_at m place };

    ghost laws = { Prim.search rules };
}

impl Run<Cells, ()> for Rolled {
    fn run(place: &u32, of: &mut Recorder<'_, Cells>, _: &mut ()) -> Result<u64, Fault> {
        let steps = of.ask(Get { place: *place })?;
        Ok(roll(steps, u64::from(*place)))
    }
}

/// A number after so many steps.
fn roll(steps: u64, first: u64) -> u64
    ensures { result ≡ rolled steps first }
{
    let mut number = first;
    for turn in 0..steps {
        let _ = turn;
        number = number
            .wrapping_mul(6364136223846793005)
            .wrapping_add(1442695040888963407);
    }
    number
}

/// The total of these places, which wraps at 64 bits.
pub struct Total;

impl Function for Total {
    type Key = Vec<u32>;

    type Call = Get;

    type Answer = u64;

    type Out = u64;

    ghost means = { λ places m out. out ≡ total m places.items };

    ghost laws = { output_laws (Prim.search rules) (λ x y h. places_clone x.items y.items h.0)
        (λ j k m r e. places_alike (total m) j.items k.items e) };
}

/// The total of these places, kept in a cache. Its numbers are found in branches, through a cache that threads share.
///
/// It is not a `Run`: the checker knows a bound `Sync` in functions alone, so a method of a trait may start no thread.
pub fn totalled<R: Threads + Wait + Sync, H: Hold<Total>>(
    rt: &R,
    threads: usize,
    cache: &Cache<Rolled>,
    totals: &mut H,
    places: &Vec<u32>,
    of: &mut Recorder<'_, Cells>,
) -> Result<u64, Fault>
    ensures { TellsOwn ⟦<Cells as Told>⟧.fits of.old of.new result
        (λ out m. out ≡ total m places.now.items) }
{
    let mut run = match of.begin(totals, places)? {
        Begun::Hit(total) => return Ok(total),
        Begun::Run(run) => run,
    };
    let numbers = rolled_each(rt, threads, cache, places.as_slice(), &mut run.recorder)?;
    of.finish(totals, places, run, added(numbers.as_slice()))
}

/// The numbers of these places, each found in a branch.
fn rolled_each<R: Threads + Wait + Sync>(
    rt: &R,
    threads: usize,
    cache: &Cache<Rolled>,
    places: &[u32],
    of: &mut Recorder<'_, Cells>,
) -> Result<Vec<u64>, Fault>
    ensures { TellsOwn ⟦<Cells as Told>⟧.fits of.old of.new result
        (λ numbers m. numbers.items ≡ map (rolled_at m) places.now) }
{
    map_in_threads(
        rt,
        threads,
        of,
        places,
        &|of: &mut Recorder<'_, Cells>, place: &u32| -> Result<u64, Fault>
            ensures { TellsRolled place.now of.old of.new result }
        { rolled_in_branch(rt, cache, *place, of) },
    )
}

/// The number of a place, through the cache.
pub fn rolled_in_branch<R: Wait>(
    rt: &R,
    cache: &Cache<Rolled>,
    place: u32,
    of: &mut Recorder<'_, Cells>,
) -> Result<u64, Fault>
    ensures { TellsOwn ⟦<Cells as Told>⟧.fits of.old of.new result
        (λ number m. number ≡ rolled_at m place) }
{
    of.call_other(&mut cache.hold(rt), &mut (), place)
}

/// The sum of numbers, which wraps at 64 bits.
pub fn added(numbers: &[u64]) -> u64
    ensures { result ≡ fold plus 0 numbers.now }
{
    let mut total = 0u64;
    for number in numbers {
        total = total.wrapping_add(*number);
    }
    total
}
