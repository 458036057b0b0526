//! Functions of two tracked values.
ghost use Rattle.std.specs.Prelude.{◌≡◌, ◌-◌, nat_lt};
ghost use Rattle.std.proofs.Common.{rules};
ghost use Rattle.comemo.specs.Multi.{OnParts};
ghost use Rattle.comemo_examples.specs.declared.town.TownCall.TheVariants.{Degrees};

use crate::warmth::Warmth;
use crate::{Town, TownCall};
use comemo::{
    Both, CacheData, Fault, First, Function, MultiAnswer, MultiCall, Recorder, Run, Second,
};

/// Whether the first of two towns is warmer than the second. Asks each for its degrees, the first one first.
pub struct IsWarmer;

impl Function for IsWarmer {
    type Call = MultiCall<TownCall, TownCall>;

    type Key = ();

    type Answer = MultiAnswer<u64, u64>;

    type Out = bool;

    ghost means = { λ _ m out.
        OnParts m (λ one other. out ≡ nat_lt (other Degrees) (one Degrees)) };

    ghost laws = { Prim.search rules };
}

impl<'a> Run<Both<'a, Town, Town>, ()> for IsWarmer {
    fn run(
        _: &(),
        towns: &mut Recorder<'_, Both<'a, Town, Town>>,
        _: &mut (),
    ) -> Result<bool, Fault> {
        let one = towns.ask_part(First::new(), TownCall::Degrees)?;
        let other = towns.ask_part(Second::new(), TownCall::Degrees)?;
        Ok(one > other)
    }
}

/// How many degrees the first of two towns is warmer than the second; 0 if it isn't.
///
/// Calls `Warmth` for each, the first one first, through one cache. Its faults are passed on, and what it stored before
/// stays.
pub struct Lead;

impl Function for Lead {
    type Call = MultiCall<TownCall, TownCall>;

    type Key = ();

    type Answer = MultiAnswer<u64, u64>;

    type Out = u64;

    ghost means = { λ _ m out.
        OnParts m (λ one other. out ≡ one Degrees - other Degrees) };

    ghost laws = { Prim.search rules };
}

impl<'a> Run<Both<'a, Town, Town>, CacheData<Warmth>> for Lead {
    fn run(
        _: &(),
        towns: &mut Recorder<'_, Both<'a, Town, Town>>,
        kept: &mut CacheData<Warmth>,
    ) -> Result<u64, Fault> {
        let one = towns.call_part(First::new(), kept, &mut (), ())?;
        let other = towns.call_part(Second::new(), kept, &mut (), ())?;
        Ok(one.saturating_sub(other))
    }
}
