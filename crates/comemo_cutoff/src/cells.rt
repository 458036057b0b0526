//! A tracked value: numbers by place.
ghost use Rattle.std.specs.Prelude.{false};
ghost use Rattle.std.proofs.Common.{rules};

use comemo::{Call, Track};
use std::alloc::{AllocError, Global};
use std::hash::Hash;
use std::sync::atomic::{AtomicU64, Ordering};

/// A read of the number at a place.
#[derive(Clone, Copy, Drop, Debug, PartialEq, Eq, Hash)]
pub struct Get {
    /// The place, from 0 on.
    pub place: u32,
}

impl Call for Get {
    ghost is_write = { λ _. false };

    ghost touches = { λ _ _. false };

    ghost laws = { Prim.search rules };

    fn is_mutable(&self) -> bool {
        false
    }

    fn touches(&self, _read: &Get) -> bool {
        false
    }
}

/// Numbers: one at each place, and 0 after the last.
#[derive(Drop)]
pub struct Cells {
    /// The numbers, from place 0 on.
    pub numbers: Vec<u64>,
    // how many numbers were asked
    asked: AtomicU64,
}

impl Cells {
    /// This many cells. The one at place i holds 3 i + 1.
    ///
    /// Fails if out of memory for them.
    pub fn new(alloc: Global, count: u32) -> Result<Cells, AllocError> {
        let mut numbers = Vec::new(alloc);
        for place in 0..count {
            numbers.push(3 * u64::from(place) + 1)?;
        }
        Ok(Cells {
            numbers,
            asked: AtomicU64::new(0),
        })
    }

    /// Puts a number at a place. Nothing changes if the place is after the last. Does not allocate.
    pub fn set(&mut self, place: usize, number: u64) {
        if let Some(cell) = self.numbers.get_mut(place) {
            *cell = number;
        }
    }

    /// How many numbers were asked so far.
    pub fn asked(&self) -> u64 {
        self.asked.load(Ordering::SeqCst)
    }
}

impl Track for Cells {
    type Call = Get;

    type Answer = u64;

    ghost use Rattle.comemo_cutoff.specs.Cells.{numbers};

    ghost answers = { λ s get. numbers s.numbers.items get };

    ghost alike = { λ s x y h. Prim.search rules };

    fn ask(&self, get: &Get) -> Result<u64, AllocError> {
        self.asked.fetch_add(1, Ordering::SeqCst);
        let place = get.place as usize;
        Ok(if place < self.numbers.len() {
            self.numbers[place]
        } else {
            0
        })
    }
}
