//! A function that calls itself, reads cells, and writes to a notebook.
ghost use Rattle.std.specs.Prelude.{◌≡◌, map};
ghost use Rattle.std.proofs.Common.{rules};
ghost use Rattle.comemo.specs.FunctionMut.{TellsWrites, lent};
ghost use Rattle.comemo.specs.MeaningLaws.{exact_laws};
ghost use Rattle.comemo_examples.specs.Totals.{total, notes};

use crate::{Cells, Get, Notebook, NotebookCall};
use comemo::internal::{Meant, Told, ToldMut};
use comemo::{
    Begun, CacheData, Fault, First, Function, Hold, MultiAnswer, MultiCall, ReadAndWrite,
    RecorderMut, RunMut, Second,
};

/// The total of the first cells, modulo 2^64, with the totals up to it noted in a notebook.
pub struct RunningTotal;

impl Function for RunningTotal {
    type Call = MultiCall<Get, NotebookCall>;

    type Key = u32;

    type Answer = MultiAnswer<u64, u64>;

    type Out = u64;

    ghost use Rattle.comemo.specs.Multi.{OnParts, second_call};

    ghost means = { λ count m out. OnParts m (λ cells _. out ≡ total cells count) };

    ghost writes = { λ count m _ W.
        OnParts m (λ cells _. W ≡ map second_call (notes cells count)) };

    ghost laws = { exact_laws (Prim.search rules) };
}

/// The total of the first cells, through a cache. As long as these cells are unchanged, a later call notes the totals
/// again by a hit.
#[cycle(totalling)]
pub fn totalled<'a, H: Hold<RunningTotal>>(
    cache: &mut H,
    count: u32,
    both: &mut RecorderMut<'_, '_, ReadAndWrite<'a, Cells, Notebook>>,
) -> Result<u64, Fault>
    requires agrees { ⟦<ReadAndWrite<'a, Cells, Notebook> as ToldMut>⟧.agrees
        (lent both.now.value both.now.recording) }
    ensures agrees { ⟦<ReadAndWrite<'a, Cells, Notebook> as ToldMut>⟧.agrees
        (lent both.new.value both.new.recording) }
    ensures tells { TellsWrites ⟦<ReadAndWrite<'a, Cells, Notebook> as ToldMut>⟧.goes
        ⟦<ReadAndWrite<'a, Cells, Notebook> as Told>⟧.fits
        (lent both.old.value both.old.recording) (lent both.new.value both.new.recording) result
        (λ out m writes. ⟦<RunningTotal as Meant>⟧.right count m out writes) }
{
    let run = match both.begin(cache, &count)? {
        Begun::Hit(total) => return Ok(total),
        Begun::Run(run) => run,
    };
    let ran = add_up(cache, count, both);
    both.finish(cache, &count, run, ran)
}

/// The run of `totalled`.
#[cycle(totalling)]
fn add_up<'a, H: Hold<RunningTotal>>(
    cache: &mut H,
    count: u32,
    both: &mut RecorderMut<'_, '_, ReadAndWrite<'a, Cells, Notebook>>,
) -> Result<u64, Fault>
    requires agrees { ⟦<ReadAndWrite<'a, Cells, Notebook> as ToldMut>⟧.agrees
        (lent both.now.value both.now.recording) }
    ensures agrees { ⟦<ReadAndWrite<'a, Cells, Notebook> as ToldMut>⟧.agrees
        (lent both.new.value both.new.recording) }
    ensures tells { TellsWrites ⟦<ReadAndWrite<'a, Cells, Notebook> as ToldMut>⟧.goes
        ⟦<ReadAndWrite<'a, Cells, Notebook> as Told>⟧.fits
        (lent both.old.value both.old.recording) (lent both.new.value both.new.recording) result
        (λ out m writes. ⟦<RunningTotal as Meant>⟧.right count m out writes) }
{
    if count == 0 {
        return Ok(0);
    }
    let before = totalled(cache, count - 1, both)?;
    let cell = both.ask_part(First::new(), Get { place: count - 1 })?;
    let total = before.wrapping_add(cell);
    both.write_part(Second::new(), NotebookCall::Note(total))?;
    Ok(total)
}

/// The total of the first cells, with the totals up to it noted, as a function that is called like any other.
///
/// The run calls `totalled`. After a fault the notebook holds a prefix of the totals.
pub struct NotesTotals;

impl Function for NotesTotals {
    type Call = MultiCall<Get, NotebookCall>;

    type Key = u32;

    type Answer = MultiAnswer<u64, u64>;

    type Out = u64;

    ghost means = { ⟦<RunningTotal as Function>⟧.means };

    ghost writes = { ⟦<RunningTotal as Function>⟧.writes };

    ghost laws = { exact_laws (Prim.search rules) };
}

impl<'a> RunMut<ReadAndWrite<'a, Cells, Notebook>, CacheData<RunningTotal>> for NotesTotals {
    fn run(
        count: &u32,
        both: &mut RecorderMut<'_, '_, ReadAndWrite<'a, Cells, Notebook>>,
        kept: &mut CacheData<RunningTotal>,
    ) -> Result<u64, Fault> {
        totalled(kept, *count, both)
    }
}
