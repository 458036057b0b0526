//! A function of two values that only reads them and calls itself.
ghost use Rattle.std.specs.Prelude.{◌≡◌};
ghost use Rattle.std.proofs.Common.{rules};
ghost use Rattle.comemo.specs.Multi.{OnParts};
ghost use Rattle.comemo.specs.Recursive.{TellsOwn};
ghost use Rattle.comemo_examples.specs.Compared.{all_equal};

use crate::{Cells, Get};
use comemo::internal::Told;
use comemo::{Begun, Both, Fault, First, Function, Hold, MultiAnswer, MultiCall, Recorder, Second};

/// Whether the first cells of two values are equal, place by place.
pub struct AllEqual;

impl Function for AllEqual {
    type Call = MultiCall<Get, Get>;

    type Key = u32;

    type Answer = MultiAnswer<u64, u64>;

    type Out = bool;

    ghost means = { λ count m out. OnParts m (λ one other. out ≡ all_equal one other count) };

    ghost laws = { Prim.search rules };
}

/// Whether the first `count` cells of two values are equal, through a cache, by the cells before them.
pub fn compared<'a, H: Hold<AllEqual>>(
    cache: &mut H,
    count: u32,
    both: &mut Recorder<'_, Both<'a, Cells, Cells>>,
) -> Result<bool, Fault>
    ensures { TellsOwn ⟦<Both<'a, Cells, Cells> as Told>⟧.fits both.old both.new result
        (λ equal m. OnParts m (λ one other. equal ≡ all_equal one other count)) }
{
    if count == 0 {
        return Ok(true);
    }
    let mut run = match both.begin(cache, &count)? {
        Begun::Hit(equal) => return Ok(equal),
        Begun::Run(run) => run,
    };
    let recorder = &mut run.recorder;
    let before = compared(cache, count - 1, recorder)?;
    let one = recorder.ask_part(First::new(), Get { place: count - 1 })?;
    let other = recorder.ask_part(Second::new(), Get { place: count - 1 })?;
    both.finish(cache, &count, run, before && one == other)
}
