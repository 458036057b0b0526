//! Functions that read a counter and write to it. A run that reads what it wrote is late.
ghost use Rattle.std.specs.Prelude.{◌≡◌, [], ◌∷◌, ⊤};
ghost use Rattle.std.proofs.Common.{rules};
ghost use Rattle.comemo.specs.MeaningLaws.{exact_laws};
ghost use Rattle.comemo_examples.specs.declared.counter.CounterCall.TheVariants.{Get, Add};
ghost use Rattle.comemo.specs.Multi.{first_call, second_call, second_answer};

use crate::{Counter, CounterCall};
use comemo::{BothMut, Fault, Function, Hold, MultiAnswer, MultiCall, RecorderMut, RunMut};
use std::marker::PhantomData;

/// Returns a counter's number, and then adds to it. What it needs is the number of its runs, which each run raises.
pub struct Bump;

impl Function for Bump {
    type Key = u64;

    type Call = CounterCall;

    type Answer = u64;

    type Out = u64;

    ghost means = { λ _ m out. out ≡ m Get };

    ghost writes = { λ k _ _ W. W ≡ Add k ∷ [] };

    ghost laws = { exact_laws (Prim.search rules) };
}

impl RunMut<Counter, u64> for Bump {
    // it asks first
    ghost late = { λ _. ⊥ };

    fn run(
        k: &u64,
        counter: &mut RecorderMut<'_, '_, Counter>,
        runs: &mut u64,
    ) -> Result<u64, Fault> {
        *runs = runs.wrapping_add(1);
        let number = counter.ask(CounterCall::Get)?;
        counter.write(CounterCall::Add(*k))?;
        Ok(number)
    }
}

/// Adds to a counter, and then returns its number.
pub struct Readback;

impl Function for Readback {
    type Key = u64;

    type Call = CounterCall;

    type Answer = u64;

    type Out = u64;

    ghost means = { λ _ _ _. ⊤ };

    ghost writes = { λ k _ _ W. W ≡ Add k ∷ [] };

    ghost laws = { exact_laws (Prim.search rules) };
}

impl RunMut<Counter, ()> for Readback {
    fn run(k: &u64, counter: &mut RecorderMut<'_, '_, Counter>, _: &mut ()) -> Result<u64, Fault> {
        counter.write(CounterCall::Add(*k))?;
        let number = counter.ask(CounterCall::Get)?;
        Ok(number)
    }
}

/// What a run of `Twice` needs.
#[derive(Drop)]
pub struct Bumps<H> {
    /// The cache of `Bump`.
    pub cache: H,
    /// The number of runs of `Bump`.
    pub runs: u64,
}

/// Calls `Bump` twice, through a cache `H`. Returns the sum of both outputs.
pub struct Twice<H> {
    held: PhantomData<H>,
}

impl<H: Hold<Bump>> Function for Twice<H> {
    type Key = u64;

    type Call = CounterCall;

    type Answer = u64;

    type Out = u64;

    ghost means = { λ _ _ _. ⊤ };

    ghost writes = { λ k _ _ W. W ≡ Add k ∷ Add k ∷ [] };

    ghost laws = { exact_laws (Prim.search rules) };
}

impl<H: Hold<Bump>> RunMut<Counter, Bumps<H>> for Twice<H> {
    fn run(
        k: &u64,
        counter: &mut RecorderMut<'_, '_, Counter>,
        bumps: &mut Bumps<H>,
    ) -> Result<u64, Fault> {
        let first = counter.call_mut(&mut bumps.cache, &mut bumps.runs, *k)?;
        let second = counter.call_mut(&mut bumps.cache, &mut bumps.runs, *k)?;
        Ok(first.wrapping_add(second))
    }
}

/// Adds 1 to the first of two counters. Returns the number of the second.
pub struct AddsAndGets;

impl Function for AddsAndGets {
    type Call = MultiCall<CounterCall, CounterCall>;

    type Key = ();

    type Answer = MultiAnswer<u64, u64>;

    type Out = u64;

    ghost means = { λ _ m out. m (second_call Get) ≡ second_answer out };

    ghost writes = { λ _ _ _ W. W ≡ first_call (Add 1) ∷ [] };

    ghost laws = { exact_laws (Prim.search rules) };
}

impl<'a> RunMut<BothMut<'a, Counter, Counter>, ()> for AddsAndGets {
    fn run(
        _: &(),
        both: &mut RecorderMut<'_, '_, BothMut<'a, Counter, Counter>>,
        _: &mut (),
    ) -> Result<u64, Fault> {
        both.write(MultiCall::A(CounterCall::Add(1)))?;
        match both.ask(MultiCall::B(CounterCall::Get))? {
            // This does not occur: a question to the second counter has an answer of the second.
            MultiAnswer::A(_) => Ok(0),
            MultiAnswer::B(number) => Ok(number),
        }
    }
}
