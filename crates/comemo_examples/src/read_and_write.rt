//! Functions that read one value, a town, and write another, a counter.
ghost use Rattle.std.specs.Prelude.{◌≡◌, ◌+◌, ◌%◌, ◌^◌, [], ◌∷◌};
ghost use Rattle.std.proofs.Common.{rules};
ghost use Rattle.comemo.specs.MeaningLaws.{exact_laws};
ghost use Rattle.comemo.specs.Multi.{OnParts, second_call};
ghost use Rattle.comemo_examples.specs.declared.town.TownCall.TheVariants.{Degrees};
ghost use Rattle.comemo_examples.specs.declared.counter.CounterCall.TheVariants.{Add, Get};

use crate::adding::Adds;
use crate::warmth::Warmth;
use crate::{Counter, CounterCall, Town, TownCall};
use comemo::{
    CacheData, Fault, First, Function, MultiAnswer, MultiCall, ReadAndWrite, RecorderMut, RunMut,
    Second,
};

/// Adds the degrees of a town to a counter, and returns them.
///
/// The run calls `Warmth` for the degrees.
pub struct TallyWarmth;

impl Function for TallyWarmth {
    type Call = MultiCall<TownCall, CounterCall>;

    type Key = ();

    type Answer = MultiAnswer<u64, u64>;

    type Out = u64;

    ghost means = { λ _ m out. OnParts m (λ town _. out ≡ town Degrees) };

    ghost writes = { λ _ _ out W. W ≡ second_call (Add out) ∷ [] };

    ghost laws = { exact_laws (Prim.search rules) };
}

impl<'a> RunMut<ReadAndWrite<'a, Town, Counter>, CacheData<Warmth>> for TallyWarmth {
    fn run(
        _: &(),
        both: &mut RecorderMut<'_, '_, ReadAndWrite<'a, Town, Counter>>,
        kept: &mut CacheData<Warmth>,
    ) -> Result<u64, Fault> {
        let degrees = both.call_part(First::new(), kept, &mut (), ())?;
        both.write_part(Second::new(), CounterCall::Add(degrees))?;
        Ok(degrees)
    }
}

/// Adds the degrees of a town to a counter, and returns the number that the counter had before.
pub struct AddsDegrees;

impl Function for AddsDegrees {
    type Call = MultiCall<TownCall, CounterCall>;

    type Key = ();

    type Answer = MultiAnswer<u64, u64>;

    type Out = u64;

    ghost means = { λ _ m out. OnParts m (λ _ counter. out ≡ counter Get) };

    ghost writes = { λ _ m _ W.
        OnParts m (λ town _. W ≡ second_call (Add (town Degrees)) ∷ []) };

    ghost laws = { exact_laws (Prim.search rules) };
}

impl<'a> RunMut<ReadAndWrite<'a, Town, Counter>, ()> for AddsDegrees {
    fn run(
        _: &(),
        both: &mut RecorderMut<'_, '_, ReadAndWrite<'a, Town, Counter>>,
        _: &mut (),
    ) -> Result<u64, Fault> {
        let number = both.ask_part(Second::new(), CounterCall::Get)?;
        let degrees = both.ask_part(First::new(), TownCall::Degrees)?;
        both.write_part(Second::new(), CounterCall::Add(degrees))?;
        Ok(number)
    }
}

/// Adds the degrees of a town to a counter, and then 1, by `Adds`. Returns the output of `Adds`.
pub struct AddsOneMore;

impl Function for AddsOneMore {
    type Call = MultiCall<TownCall, CounterCall>;

    type Key = ();

    type Answer = MultiAnswer<u64, u64>;

    type Out = u64;

    ghost means = { λ _ m out. OnParts m (λ town _. out ≡ (town Degrees + 1) % 2 ^ 64) };

    ghost writes = { λ _ m _ W. OnParts m
        (λ town _. W ≡ second_call (Add (town Degrees)) ∷ second_call (Add 1) ∷ []) };

    ghost laws = { exact_laws (Prim.search rules) };
}

impl<'a> RunMut<ReadAndWrite<'a, Town, Counter>, CacheData<Adds>> for AddsOneMore {
    fn run(
        _: &(),
        both: &mut RecorderMut<'_, '_, ReadAndWrite<'a, Town, Counter>>,
        kept: &mut CacheData<Adds>,
    ) -> Result<u64, Fault> {
        let degrees = both.ask_part(First::new(), TownCall::Degrees)?;
        let sum = both.call_mut_part(Second::new(), kept, &mut (), degrees)?;
        Ok(sum)
    }
}
