//! Functions that write to a notebook and to a counter.
ghost use Rattle.std.specs.Prelude.{◌≡◌, ◌+◌, ◌%◌, ◌^◌, [], ◌∷◌, ⊤};
ghost use Rattle.std.proofs.Common.{rules};
ghost use Rattle.comemo.specs.MeaningLaws.{exact_laws};

use comemo::{Fault, Function, RecorderMut, RunMut};
use comemo_examples::{CounterCall, Notebook, NotebookCall};

/// Notes a number, the owner's number, and the first number again. Returns the owner's number.
pub struct NotesThree;

impl Function for NotesThree {
    type Key = u64;

    type Call = NotebookCall;

    type Answer = u64;

    type Out = u64;

    ghost use Rattle.comemo_examples.specs.declared.notebook.NotebookCall.TheVariants.{Owner, Note};

    ghost means = { λ _ m out. out ≡ m Owner };

    ghost writes = { λ n m _ W. W ≡ Note n ∷ Note (m Owner) ∷ Note n ∷ [] };

    ghost laws = { exact_laws (Prim.search rules) };
}

impl RunMut<Notebook, ()> for NotesThree {
    fn run(n: &u64, book: &mut RecorderMut<'_, '_, Notebook>, _: &mut ()) -> Result<u64, Fault> {
        book.write(NotebookCall::Note(*n))?;
        let owner = book.ask(NotebookCall::Owner)?;
        book.write(NotebookCall::Note(owner))?;
        book.write(NotebookCall::Note(*n))?;
        Ok(owner)
    }
}

/// Adds 3 to a counter. Its run is a closure.
pub struct AddsThree;

impl Function for AddsThree {
    type Call = CounterCall;

    type Key = ();

    type Answer = u64;

    type Out = ();

    ghost use Rattle.comemo_examples.specs.declared.counter.CounterCall.TheVariants.{Add};

    ghost means = { λ _ _ _. ⊤ };

    ghost writes = { λ _ _ _ W. W ≡ Add 3 ∷ [] };

    ghost laws = { exact_laws (Prim.search rules) };
}
