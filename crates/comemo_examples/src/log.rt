//! A tracked value that is only written: a log of texts.
ghost use Rattle.std.specs.Prelude.{◌≡◌, [], map, refl, string_bytes, true, false};
ghost use Rattle.std.proofs.Common.{rules};

use comemo::{Call, Track};
use std::alloc::{AllocError, Global};
use std::hash::Hash;
use std::marker::Model;

/// A call to a log. Each is a write. Cloning one copies its text.
#[derive(Clone, Drop, Debug, PartialEq, Eq, Hash)]
pub enum LogCall {
    /// Puts a text on the next line.
    Line(String),
}

impl Call for LogCall {
    ghost is_write = { λ _. true };

    ghost touches = { λ _ _. false };

    ghost laws = { Prim.search rules };

    fn is_mutable(&self) -> bool {
        true
    }

    fn touches(&self, _read: &LogCall) -> bool {
        false
    }
}

/// Texts, one on each line. Contracts see it as the bytes of each.
///
/// Two `Vec`s of the same texts are not one value, since each has its own capacity. So the model is the texts alone,
/// and a write that fails leaves it unchanged.
///
/// It answers no read. A write copies its text, and fails if out of memory; then nothing is written.
#[derive(Drop)]
pub struct Log {
    lines: Vec<String>,
}

impl Model for Log {
    ghost use Rattle.std.specs.Prelude.{ℕ, List, map, string_bytes};

    ghost Value = { List (List ℕ) };

    ghost view = { λ s. map string_bytes s.lines.items };
}

impl Log {
    /// An empty log. Does not allocate.
    pub fn new(alloc: Global) -> Self
        ensures { result ≡ [] }
    {
        Log {
            lines: Vec::new(alloc),
        }
    }

    /// The texts, in the order in which they were written.
    pub fn lines(&self) -> &[String]
        ensures { map string_bytes result.now ≡ self.now }
    {
        self.lines.as_slice()
    }
}

impl Track for Log {
    type Call = LogCall;

    type Answer = ();

    ghost use Rattle.std.specs.Prelude.{◌++◌, ◌∷◌, []};
    ghost use Rattle.comemo_examples.specs.Writers.{logged};

    // there is nothing to ask
    ghost answers = { λ _ _. tt };

    ghost wrote = { λ s call t. t ≡ s ++ logged call ∷ [] };

    ghost alike = { λ _ _ _ _. refl };

    fn ask(&self, _call: &LogCall) -> Result<(), AllocError> {
        // Each call is a write, so there is no answer.
        Err(AllocError)
    }

    fn call_mut(&mut self, call: &LogCall) -> Result<(), AllocError> {
        match call {
            LogCall::Line(text) => {
                let own = text.clone()?;
                Ok(self.lines.push(own)?)
            }
        }
    }
}
