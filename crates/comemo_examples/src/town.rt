//! A tracked value: the people of a town, and its degrees.
ghost use Rattle.std.specs.Prelude.{false};
ghost use Rattle.std.proofs.Common.{rules};

use comemo::{Call, Track};
use std::alloc::AllocError;

/// What can be asked of a town.
#[derive(Clone, Copy, Drop, Debug, PartialEq, Eq, Hash)]
pub enum TownCall {
    /// How many people live there.
    People,
    /// How many degrees it has.
    Degrees,
}

impl Call for TownCall {
    ghost is_write = { λ _. false };

    ghost touches = { λ _ _. false };

    ghost laws = { Prim.search rules };

    fn is_mutable(&self) -> bool {
        false
    }

    fn touches(&self, _read: &TownCall) -> bool {
        false
    }
}

/// A town, whose people and degrees are asked separately.
#[derive(Drop)]
pub struct Town {
    /// How many people live there.
    pub people: u64,
    /// How many degrees it has.
    pub degrees: u64,
}

impl Track for Town {
    type Call = TownCall;

    type Answer = u64;

    ghost use Rattle.comemo_examples.specs.Towns.{asked};

    ghost answers = { λ s call. asked s.people s.degrees call };

    ghost alike = { λ s x y h. Prim.search rules };

    fn ask(&self, call: &TownCall) -> Result<u64, AllocError> {
        match call {
            TownCall::People => Ok(self.people),
            TownCall::Degrees => Ok(self.degrees),
        }
    }
}
