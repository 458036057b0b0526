//! A tracked value with two reads, which counts how often it is asked.
ghost use Rattle.std.specs.Prelude.{false};
ghost use Rattle.std.proofs.Common.{rules};

use comemo::{Answer, Call, Track};
use std::alloc::{AllocError, Global};
use std::cell::Cell;
use std::hash::Hash;

/// A read of a place.
#[derive(Clone, Copy, Drop, PartialEq, Eq, Hash)]
pub(crate) enum PlaceCall {
    /// Where it is.
    Location,
    /// How it is set.
    Styles,
}

impl Call for PlaceCall {
    ghost is_write = { λ _. false };

    ghost touches = { λ _ _. false };

    ghost laws = { Prim.search rules };

    fn is_mutable(&self) -> bool {
        false
    }

    fn touches(&self, _read: &PlaceCall) -> bool {
        false
    }
}

/// The answer of a place.
#[derive(Clone, Drop, PartialEq, Eq, PartialOrd, Ord)]
pub(crate) enum PlaceAnswer {
    /// To where it is.
    At(u64),
    /// To how it is set.
    Set(String),
}

impl Answer for PlaceAnswer {
    ghost clones = { λ x y h. Prim.search rules };
}

/// A place that counts how often each of its two reads is asked.
#[derive(Drop)]
pub(crate) struct Place {
    location: u64,
    styles: String,
    asked_where: Cell<u64>,
    asked_how: Cell<u64>,
}

impl Place {
    /// The place at a location, with the styles `styles`, not asked yet.
    pub(crate) fn at(alloc: Global, location: u64) -> Result<Place, AllocError> {
        Ok(Place {
            location,
            styles: String::from_str(alloc, "styles")?,
            asked_where: Cell::new(0),
            asked_how: Cell::new(0),
        })
    }

    /// How often it was asked.
    pub(crate) fn asked(&self) -> u64 {
        self.asked_where.get().wrapping_add(self.asked_how.get())
    }

    /// How often it was asked where it is, and how it is set.
    pub(crate) fn asked_each(&self) -> (u64, u64) {
        (self.asked_where.get(), self.asked_how.get())
    }
}

impl Track for Place {
    type Call = PlaceCall;

    type Answer = PlaceAnswer;

    ghost use Rattle.bench_rows.specs.PlaceAnswers.{place_answer};

    ghost answers = { λ s call. place_answer s.location s.styles call };

    ghost alike = { λ s x y h. Prim.search rules };

    fn ask(&self, call: &PlaceCall) -> Result<PlaceAnswer, AllocError> {
        match call {
            PlaceCall::Location => {
                self.asked_where.set(self.asked_where.get().wrapping_add(1));
                Ok(PlaceAnswer::At(self.location))
            }
            PlaceCall::Styles => {
                self.asked_how.set(self.asked_how.get().wrapping_add(1));
                Ok(PlaceAnswer::Set(self.styles.clone()?))
            }
        }
    }
}
