//! A tracked value that is only written: a text that grows.
ghost use Rattle.std.specs.Prelude.{◌≡◌, [], true, false, refl};
ghost use Rattle.std.proofs.Common.{rules};

use comemo::{Call, Track};
use std::alloc::{AllocError, Global};
use std::hash::Hash;
use std::marker::Model;

/// A call to an emitter. Each is a write. Cloning one copies its text.
#[derive(Clone, Drop, Debug, PartialEq, Eq, Hash)]
pub enum EmitterCall {
    /// Appends a text.
    Emit(String),
}

impl Call for EmitterCall {
    ghost is_write = { λ _. true };

    ghost touches = { λ _ _. false };

    ghost laws = { Prim.search rules };

    fn is_mutable(&self) -> bool {
        true
    }

    fn touches(&self, _read: &EmitterCall) -> bool {
        false
    }
}

/// The texts that were emitted, concatenated. Contracts see it as their bytes.
///
/// It answers no read. A write copies its text, and fails if out of memory; then nothing is emitted.
#[derive(Drop)]
pub struct Emitter {
    text: String,
}

impl Model for Emitter {
    ghost use Rattle.std.specs.Prelude.{ℕ, List, string_bytes};

    ghost Value = { List ℕ };

    ghost view = { λ s. string_bytes s.text };
}

impl Emitter {
    /// An emitter with an empty text. Does not allocate.
    pub fn new(alloc: Global) -> Self
        ensures { result ≡ [] }
    {
        Emitter {
            text: String::new(alloc),
        }
    }

    /// What was emitted so far.
    pub fn text(&self) -> &str
        ensures { result.now ≡ self.now }
    {
        self.text.as_str()
    }
}

impl Track for Emitter {
    type Call = EmitterCall;

    type Answer = ();

    ghost use Rattle.std.specs.Prelude.{◌++◌};
    ghost use Rattle.comemo_examples.specs.Writers.{emitted};

    // there is nothing to ask
    ghost answers = { λ _ _. tt };

    ghost wrote = { λ s call t. t ≡ s ++ emitted call };

    ghost alike = { λ _ _ _ _. refl };

    fn ask(&self, _call: &EmitterCall) -> Result<(), AllocError> {
        // Each call is a write, so there is no answer.
        Err(AllocError)
    }

    fn call_mut(&mut self, call: &EmitterCall) -> Result<(), AllocError> {
        match call {
            EmitterCall::Emit(text) => self.text.push_str(text.as_str()),
        }
    }
}
