//! Tracked values: two numbers, a text, and a row of numbers.
ghost use Rattle.std.specs.Prelude.{false};
ghost use Rattle.std.proofs.Common.{rules};

use comemo::{Call, Track};
use std::alloc::AllocError;
use std::hash::Hash;

/// A read of a context.
#[derive(Clone, Copy, Drop, Debug, PartialEq, Eq, Hash)]
pub enum ContextCall {
    /// Where it is.
    Location,
    /// How it is set.
    Styles,
}

impl Call for ContextCall {
    ghost is_write = { λ _. false };

    ghost touches = { λ _ _. false };

    ghost laws = { Prim.search rules };

    fn is_mutable(&self) -> bool {
        false
    }

    fn touches(&self, _read: &ContextCall) -> bool {
        false
    }
}

/// A context: two numbers, each asked by a call of its own.
#[derive(Drop)]
pub struct Context {
    /// The answer to `ContextCall::Location`.
    pub location: u64,
    /// The answer to `ContextCall::Styles`.
    pub styles: u64,
}

impl Track for Context {
    type Call = ContextCall;

    type Answer = u64;

    ghost use Rattle.comemo_examples.specs.Contexts.{field};

    ghost answers = { λ s call. field s.location s.styles call };

    ghost alike = { λ s x y h. Prim.search rules };

    fn ask(&self, call: &ContextCall) -> Result<u64, AllocError> {
        match call {
            ContextCall::Location => Ok(self.location),
            ContextCall::Styles => Ok(self.styles),
        }
    }
}

/// A page: a text, asked by one call. Its answers allocate, and equal ones need not be identical.
///
/// Each answer is a copy of the text, and fails if out of memory.
#[derive(Drop)]
pub struct Page {
    /// The text.
    pub text: String,
}

impl Track for Page {
    type Call = ();

    type Answer = String;

    ghost answers = { λ s _. s.text };

    ghost alike = { λ s x y h. Prim.search rules };

    fn ask(&self, _call: &()) -> Result<String, AllocError> {
        self.text.clone()
    }
}

/// A read of a row: the number at a place.
#[derive(Clone, Copy, Drop, Debug, PartialEq, Eq, Hash)]
pub struct Place {
    /// The place, from 0 on.
    pub at: u64,
}

impl Call for Place {
    ghost is_write = { λ _. false };

    ghost touches = { λ _ _. false };

    ghost laws = { Prim.search rules };

    fn is_mutable(&self) -> bool {
        false
    }

    fn touches(&self, _read: &Place) -> bool {
        false
    }
}

/// A row of numbers: one at each place, and 0 after the last.
#[derive(Drop)]
pub struct Row {
    /// The numbers, from place 0 on.
    pub numbers: Vec<u64>,
}

impl Track for Row {
    type Call = Place;

    type Answer = u64;

    ghost use Rattle.std.specs.Prelude.{slice_index};

    ghost answers = { λ s call. slice_index s.numbers.items call.at };

    ghost alike = { λ s x y h. Prim.search rules };

    fn ask(&self, call: &Place) -> Result<u64, AllocError> {
        let at = call.at as usize;
        Ok(if at < self.numbers.len() {
            self.numbers[at]
        } else {
            0
        })
    }
}
