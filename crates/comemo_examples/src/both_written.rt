//! A function that reads and writes two values, a counter and a notebook.
ghost use Rattle.std.specs.Prelude.{◌≡◌, [], ◌∷◌};
ghost use Rattle.std.proofs.Common.{rules};
ghost use Rattle.comemo.specs.MeaningLaws.{exact_laws};

use crate::adding::Adds;
use crate::{Counter, CounterCall, Notebook, NotebookCall};
use comemo::{
    BothMut, CacheData, Fault, First, Function, MultiAnswer, MultiCall, RecorderMut, RunMut, Second,
};

/// Notes the number of a counter in a notebook, and adds to the counter by `Adds`. Returns the noted number.
pub struct NotesAndAdds;

impl Function for NotesAndAdds {
    type Call = MultiCall<CounterCall, NotebookCall>;

    type Key = u64;

    type Answer = MultiAnswer<u64, u64>;

    type Out = u64;

    ghost use Rattle.comemo.specs.Multi.{OnParts, first_call, second_call};
    ghost use Rattle.comemo_examples.specs.declared.counter.CounterCall.TheVariants.{Get, Add};
    ghost use Rattle.comemo_examples.specs.declared.notebook.NotebookCall.TheVariants.{Note};

    ghost means = { λ _ m out. OnParts m (λ counter _. out ≡ counter Get) };

    ghost writes = { λ n m _ W. OnParts m (λ counter _. W
        ≡ second_call (Note (counter Get)) ∷ first_call (Add n) ∷ first_call (Add 1) ∷ []) };

    ghost laws = { exact_laws (Prim.search rules) };
}

impl<'a> RunMut<BothMut<'a, Counter, Notebook>, CacheData<Adds>> for NotesAndAdds {
    fn run(
        n: &u64,
        both: &mut RecorderMut<'_, '_, BothMut<'a, Counter, Notebook>>,
        kept: &mut CacheData<Adds>,
    ) -> Result<u64, Fault> {
        let number = both.ask_part(First::new(), CounterCall::Get)?;
        both.write_part(Second::new(), NotebookCall::Note(number))?;
        both.call_mut_part(First::new(), kept, &mut (), *n)?;
        Ok(number)
    }
}
