//! The memoized sum: a number and the first few cells.
ghost use Rattle.std.specs.Prelude.{⊤};
ghost use Rattle.std.proofs.Common.{rules};

use comemo::{Fault, Function, Hold, Recorder, Run, memoized};
use comemo_examples::{Cells, Get};
use std::alloc::Global;

/// What a sum starts with, and how many cells it adds.
#[derive(Clone, Copy, Drop, Debug, PartialEq, Eq, Hash)]
pub struct SumKey {
    /// What the sum starts with.
    pub start: u64,
    /// How many cells it adds, from place 0 on.
    pub count: u32,
}

/// The memoized sum of a number and the first cells, which wraps at 64 bits.
///
/// It is only there to be timed, so its meaning allows every output. The program's stored output has its results.
pub struct SumOfCells;

impl Function for SumOfCells {
    type Key = SumKey;

    type Call = Get;

    type Answer = u64;

    type Out = u64;

    ghost means = { λ _ _ _. ⊤ };

    ghost laws = { Prim.search rules };
}

impl Run<Cells, ()> for SumOfCells {
    fn run(key: &SumKey, cells: &mut Recorder<'_, Cells>, _: &mut ()) -> Result<u64, Fault> {
        let mut sum = key.start;
        for place in 0..key.count {
            sum = sum.wrapping_add(cells.ask(Get { place })?);
        }
        Ok(sum)
    }
}

/// The sum of a number and the first cells, wrapping at 64 bits, memoized under the number and the count. Both a run
/// and a hit ask each of these cells.
pub fn sum<H: Hold<SumOfCells>>(
    alloc: Global,
    cache: &mut H,
    key: SumKey,
    cells: &Cells,
) -> Result<u64, Fault> {
    let reply = memoized(alloc, cache, key, cells)?;
    Ok(reply.output)
}
