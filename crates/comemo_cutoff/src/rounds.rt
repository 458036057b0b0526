//! A function that asks its own outputs, which runs again only if a number or the output before changes.
ghost use Rattle.std.specs.Prelude.{◌≡◌, IfOk};
ghost use Rattle.std.proofs.Common.{rules};
ghost use Rattle.comemo_cutoff.specs.Cells.{numbers};
ghost use Rattle.comemo_cutoff.specs.Rounds.{rounded};

use crate::{Cells, Get};
use comemo::{
    At, Fault, First, Function, Hold, Known, MultiAnswer, MultiCall, Provider, Query, Recorder,
    Round, RoundError, Run, Second, Turn,
};
use std::alloc::Global;

/// The sum of the first cells, each without its last digit, which wraps at 64 bits. It asks the last of these cells,
/// and the sum of those before.
pub struct Rounded;

impl Query<Cells> for Rounded {
    type At = u32;

    type Output = u64;

    ghost gives = { λ count m. rounded m count };

    ghost alike = { λ j k m r e. Prim.search rules };
}

impl Function for Rounded {
    type Key = u32;

    type Call = MultiCall<Get, At<u32>>;

    type Answer = MultiAnswer<u64, u64>;

    type Out = u64;

    ghost use Rattle.comemo_cutoff.specs.Rounds.{round_by};
    ghost use Rattle.comemo.specs.Multi.{OnParts};

    ghost means = { λ count m out. OnParts m (λ number sum. out
        ≡ round_by count (λ place. number (record { place = place })) (λ before. sum (record { key = before }))) };

    ghost laws = { Prim.search rules };
}

impl<'a> Run<Known<'a, Cells, Rounded>, ()> for Rounded {
    fn run(
        count: &u32,
        of: &mut Recorder<'_, Known<'a, Cells, Rounded>>,
        _: &mut (),
    ) -> Result<u64, Fault> {
        if *count == 0 {
            return Ok(0);
        }
        let number = of.ask_part(First::new(), Get { place: *count - 1 })?;
        let before = of.ask_part(Second::new(), At { key: *count - 1 })?;
        Ok(before.wrapping_add(number / 10))
    }
}

/// The cache of the sums.
#[derive(Drop)]
pub struct SumCache<H> {
    /// The cache.
    pub cache: H,
}

impl<H: Hold<Rounded>> Provider<Cells, Rounded> for SumCache<H> {
    fn provide(
        &mut self,
        count: &u32,
        turn: &mut Turn<'_, Known<'_, Cells, Rounded>>,
    ) -> Result<u64, Fault> {
        let reply = turn.call(&mut self.cache, &mut (), *count)?;
        Ok(reply.output)
    }
}

/// The sum of the first cells, each without its last digit, through a cache, in a round of its own.
pub fn summed<H: Hold<Rounded>>(
    alloc: Global,
    sums: &mut SumCache<H>,
    cells: &Cells,
    count: u32,
) -> Result<u64, RoundError<u32>>
    ensures { IfOk result (λ sum. sum ≡ rounded (numbers cells.now.numbers.items) count) }
{
    let mut round = Round::new(alloc, cells);
    round.output(sums, count)
}
