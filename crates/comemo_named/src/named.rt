//! Functions that name the calls that they ask, so that storing a run never fails because of the order of its calls.
ghost use Rattle.std.specs.Prelude.{◌≡◌, ◌+◌, ◌%◌, ◌^◌, ⊤, nat_lt};
ghost use Rattle.std.proofs.Common.{rules};
ghost use Rattle.comemo.specs.Meaning.{names};
ghost use Rattle.comemo_examples.specs.declared.contexts.ContextCall.TheVariants.{Location, Styles};

use comemo::{CacheData, Fault, Function, Recorder, Run};
use comemo_examples::{Context, ContextCall};

/// The sum of a context's location and its styles, which wraps at 64 bits.
///
/// Asks both, first the one that its needs name.
pub struct Sum;

impl Function for Sum {
    type Key = ();

    type Call = ContextCall;

    type Answer = u64;

    type Out = u64;

    ghost means = { λ _ m out. out ≡ (m Location + m Styles) % 2 ^ 64 };

    // both calls are asked, whatever the answers are
    ghost naming = { names (λ _ _ _. ⊤) };

    ghost laws = { Prim.search rules };
}

impl Run<Context, ContextCall> for Sum {
    fn run(
        _: &(),
        context: &mut Recorder<'_, Context>,
        first: &mut ContextCall,
    ) -> Result<u64, Fault> {
        match first {
            ContextCall::Location => {
                let location = context.ask(ContextCall::Location)?;
                let styles = context.ask(ContextCall::Styles)?;
                Ok(location.wrapping_add(styles))
            }
            ContextCall::Styles => {
                let styles = context.ask(ContextCall::Styles)?;
                let location = context.ask(ContextCall::Location)?;
                Ok(location.wrapping_add(styles))
            }
        }
    }
}

/// Whether the sum of a context exceeds a number.
///
/// Calls `Sum` with a cache and the question that comes first. What `Sum` asked, or had asked when its kept output was
/// made, counts as asked here.
pub struct IsOver;

impl Function for IsOver {
    type Key = u64;

    type Call = ContextCall;

    type Answer = u64;

    type Out = bool;

    ghost means = { λ n m out. out ≡ nat_lt n ((m Location + m Styles) % 2 ^ 64) };

    // what `Sum` asks
    ghost naming = { names (λ n m call. ⊤) };

    ghost laws = { Prim.search rules };
}

impl Run<Context, (CacheData<Sum>, ContextCall)> for IsOver {
    fn run(
        n: &u64,
        context: &mut Recorder<'_, Context>,
        (kept, first): &mut (CacheData<Sum>, ContextCall),
    ) -> Result<bool, Fault> {
        let sum = context.call(kept, first, ())?;
        Ok(sum > *n)
    }
}
