//! A tracked text, and a text that is always the same.
ghost use Rattle.std.specs.Prelude.{◌≡◌, codes, string_bytes};
ghost use Rattle.std.proofs.Common.{rules};

use comemo::{Fault, Function, Recorder, Run, Track};
use std::alloc::{AllocError, Global};

/// What the world is: a constant text, which each run allocates. Asks nothing, and needs an allocator.
pub struct World;

impl Function for World {
    type Key = ();

    type Call = ();

    type Answer = ();

    type Out = String;

    ghost means = { λ _ _ out. string_bytes out ≡ codes "The world is big" };

    ghost laws = { Prim.search rules };
}

impl Run<(), Global> for World {
    fn run(_: &(), _: &mut Recorder<'_, ()>, alloc: &mut Global) -> Result<String, Fault> {
        Ok(String::from_str(*alloc, "The world is big")?)
    }
}

/// A tracked text. Its one question is whether it is `hello`. The answer does not allocate and never fails.
#[derive(Drop)]
pub struct Greeting {
    /// The text.
    pub text: String,
}

impl Track for Greeting {
    type Call = ();

    type Answer = bool;

    ghost use Rattle.comemo_examples.specs.Greetings.{is_hello};

    ghost answers = { λ s _. is_hello (string_bytes s.text) };

    ghost alike = { λ s x y h. Prim.search rules };

    fn ask(&self, _call: &()) -> Result<bool, AllocError> {
        Ok(self.text.as_str() == "hello")
    }
}

/// Whether a text is `hello`. Asks that one question, and doesn't see the text.
pub struct SaysHello;

impl Function for SaysHello {
    type Key = ();

    type Call = ();

    type Answer = bool;

    type Out = bool;

    ghost means = { λ _ m out. out ≡ m tt };

    ghost laws = { Prim.search rules };
}

impl Run<Greeting, ()> for SaysHello {
    fn run(_: &(), text: &mut Recorder<'_, Greeting>, _: &mut ()) -> Result<bool, Fault> {
        let is = text.ask(())?;
        Ok(is)
    }
}
