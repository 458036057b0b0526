//! Random steps from a seed.
ghost use Rattle.std.specs.Prelude.{IfOk};
ghost use Rattle.comemo.specs.Steps.{IsStep};

use crate::steps::{Anything, evict, look, store, touch};
use comemo::internal::{Meant, Step};
use std::alloc::{AllocError, Global};

/// Pseudorandom numbers.
#[derive(Drop)]
pub(crate) struct Numbers {
    state: u64,
}

impl Numbers {
    /// The numbers from a seed.
    pub(crate) fn new(seed: u64) -> Self {
        Numbers { state: seed }
    }

    /// The next number, by SplitMix64.
    fn next(&mut self) -> u64 {
        self.state = self.state.wrapping_add(0x9e37_79b9_7f4a_7c15);
        let mixed = (self.state ^ (self.state >> 30)).wrapping_mul(0xbf58_476d_1ce4_e5b9);
        let mixed = (mixed ^ (mixed >> 27)).wrapping_mul(0x94d0_49bb_1331_11eb);
        mixed ^ (mixed >> 31)
    }

    /// The next number below a bound.
    fn below(&mut self, bound: u8) -> u8 {
        let number = self.next() % u64::from(bound.max(1));
        u8::try_from(number).unwrap_or(0)
    }

    /// At most five reads, of eight, each with one of four answers.
    fn pairs(&mut self, alloc: Global) -> Result<Vec<(u8, u8)>, AllocError> {
        let mut pairs = Vec::new(alloc);
        for _ in 0..self.below(6) {
            pairs.push((self.below(8), self.below(4)))?;
        }
        Ok(pairs)
    }

    /// At most five answers, of four.
    fn answers(&mut self, alloc: Global) -> Result<Vec<u8>, AllocError> {
        let mut answers = Vec::new(alloc);
        for _ in 0..self.below(6) {
            answers.push(self.below(4))?;
        }
        Ok(answers)
    }

    /// At most two writes, each 8 or 9.
    fn writes(&mut self, alloc: Global) -> Result<Vec<u8>, AllocError> {
        let mut writes = Vec::new(alloc);
        for _ in 0..self.below(3) {
            let number = if self.below(2) == 0 { 8 } else { 9 };
            writes.push(number)?;
        }
        Ok(writes)
    }

    /// The next step, under one of four keys. If it stores, then this output.
    pub(crate) fn step(&mut self, alloc: Global, output: u32) -> Result<Step<Anything>, AllocError>
        ensures { IfOk result (IsStep ⟦<Anything as Meant>⟧.meaning) }
    {
        let key = self.below(4);
        match self.below(32) {
            0..12 => {
                let answers = self.pairs(alloc)?;
                look(alloc, key, answers.as_slice(), self.below(4))
            }
            12..24 => {
                let pairs = self.pairs(alloc)?;
                let writes = self.writes(alloc)?;
                store(alloc, key, pairs.as_slice(), output, writes.as_slice())
            }
            24..30 => {
                let answers = self.answers(alloc)?;
                touch(alloc, key, answers.as_slice())
            }
            _ => Ok(evict(usize::from(self.below(4)))),
        }
    }
}
