//! A `Run` with branches in turn.
ghost use Rattle.std.specs.Prelude.{◌≡◌, map};
ghost use Rattle.std.specs.List.{fold};
ghost use Rattle.std.proofs.Common.{rules};
ghost use Rattle.comemo.specs.Recursive.{TellsOwn};
ghost use Rattle.comemo.specs.MeaningLaws.{output_laws};
ghost use Rattle.comemo_layers_tests.specs.Rolls.{number_at, plus, summed};
ghost use Rattle.comemo_layers_tests.specs.RollLaws.{places_alike, places_clone};
ghost use Rattle.comemo_layers_tests.specs.RollTells.{TellsNumber};

use crate::rolls::added;
use comemo::internal::Told;
use comemo::{CacheData, Fault, Function, How, Recorder, Run, memoized};
use comemo_branches::map_in_turn;
use comemo_cutoff::{Cells, Get};
use std::alloc::{AllocError, Global};
use std::test::Fail;

/// The sum of the numbers at these places, which wraps at 64 bits.
pub struct Summed;

impl Function for Summed {
    type Key = Vec<u32>;

    type Call = Get;

    type Answer = u64;

    type Out = u64;

    ghost means = { λ places m out. out ≡ summed m places.items };

    ghost laws = { output_laws (Prim.search rules) (λ x y h. places_clone x.items y.items h.0)
        (λ j k m r e. places_alike (summed m) j.items k.items e) };
}

impl Run<Cells, ()> for Summed {
    fn run(places: &Vec<u32>, of: &mut Recorder<'_, Cells>, _: &mut ()) -> Result<u64, Fault> {
        let numbers = map_in_turn(
            of,
            places.as_slice(),
            &|of: &mut Recorder<'_, Cells>, place: &u32| -> Result<u64, Fault>
                ensures { TellsNumber place.now of.old of.new result }
            { number(*place, of) },
        )?;
        Ok(added(numbers.as_slice()))
    }
}

/// The number at a place.
fn number(place: u32, of: &mut Recorder<'_, Cells>) -> Result<u64, Fault>
    ensures { TellsOwn ⟦<Cells as Told>⟧.fits of.old of.new result
        (λ number m. number ≡ number_at m place) }
{
    of.ask(Get { place })
}

/// These places. Fails if out of memory.
fn places_of(alloc: Global, list: &[u32]) -> Result<Vec<u32>, AllocError> {
    let mut places = Vec::new(alloc);
    for place in list {
        places.push(*place)?;
    }
    Ok(places)
}

/// The sum of the numbers at the places 1, 3 and 1, and how its call ended.
fn sum(alloc: Global, cache: &mut CacheData<Summed>, of: &Cells) -> Option<(u64, How)> {
    let Ok(places) = places_of(alloc, &[1, 3, 1]) else {
        return None;
    };
    match memoized(alloc, cache, places, of) {
        Ok(reply) => Some((reply.output, reply.how)),
        Err(_) => None,
    }
}

#[test]
fn a_run_has_branches_in_turn(rt: HostRuntime) -> Result<(), Fail> {
    let alloc = rt.alloc();
    let mut cells = Cells::new(alloc, 8)?;
    let mut cache: CacheData<Summed> = CacheData::new(alloc);
    let calls: &[(usize, u64, u64, How)] = &[
        (1, 4, 18, How::Stored),
        (2, 5, 18, How::Hit),
        (3, 11, 19, How::Stored),
        (1, 6, 23, How::Stored),
        (0, 0, 23, How::Hit),
    ];
    for (place, number, total, how) in calls {
        cells.set(*place, *number);
        assert_eq!(rt; sum(alloc, &mut cache, &cells), Some((*total, *how)));
    }
    Ok(())
}
