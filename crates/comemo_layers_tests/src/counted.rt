//! A tracked value that counts its answers, and a function of any value with the same calls.
ghost use Rattle.std.specs.Prelude.{◌≡◌, ◌+◌, ◌%◌, ◌^◌};
ghost use Rattle.std.proofs.Common.{rules};

use comemo::{Fault, Function, Recorder, Run, Track};
use comemo_cutoff::Get;
use std::alloc::AllocError;
use std::sync::atomic::{AtomicU64, Ordering};

/// The same number at each place; how often it was asked is counted.
#[derive(Drop)]
pub struct Counted {
    /// The number.
    pub number: u64,
    asked: AtomicU64,
}

impl Counted {
    /// A number that was not asked yet.
    pub fn new(number: u64) -> Counted
        ensures { result.number ≡ number }
    {
        Counted {
            number,
            asked: AtomicU64::new(0),
        }
    }

    /// How often it was asked.
    pub fn asked(&self) -> u64 {
        self.asked.load(Ordering::SeqCst)
    }
}

impl Track for Counted {
    type Call = Get;

    type Answer = u64;

    ghost answers = { λ s _. s.number };

    ghost alike = { λ s x y h. Prim.search rules };

    fn ask(&self, _call: &Get) -> Result<u64, AllocError> {
        self.asked.fetch_add(1, Ordering::SeqCst);
        Ok(self.number)
    }
}

/// The sum of the numbers at two places, which wraps at 64 bits.
pub struct Pair;

impl Function for Pair {
    type Key = (u32, u32);

    type Call = Get;

    type Answer = u64;

    type Out = u64;

    ghost use Rattle.comemo_cutoff.specs.declared.cells.Get.{Get};

    ghost means = { λ key m out.
        out ≡ (m (record { place = key.0 }) + m (record { place = key.1 })) % 2 ^ 64 };

    ghost laws = { Prim.search rules };
}

impl<T: Track<Call = Get, Answer = u64>> Run<T, ()> for Pair {
    fn run(key: &(u32, u32), of: &mut Recorder<'_, T>, _: &mut ()) -> Result<u64, Fault> {
        let one = of.ask(Get { place: key.0 })?;
        let other = of.ask(Get { place: key.1 })?;
        Ok(one.wrapping_add(other))
    }
}
