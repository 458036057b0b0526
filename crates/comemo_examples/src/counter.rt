//! A tracked value that is read and written: a number that grows.
ghost use Rattle.std.specs.Prelude.{◌≡◌, true};
ghost use Rattle.std.proofs.Common.{rules};
ghost use Rattle.comemo_examples.specs.Writers.{is_add};

use comemo::{Call, Track};
use std::alloc::AllocError;
use std::hash::Hash;

/// A call to a counter.
#[derive(Clone, Copy, Drop, Debug, PartialEq, Eq, Hash)]
pub enum CounterCall {
    /// Returns its number: a read.
    Get,
    /// Adds a number: a write, which touches that read.
    Add(u64),
}

impl Call for CounterCall {
    ghost is_write = { is_add };

    ghost touches = { λ _ _. true };

    ghost laws = { Prim.search rules };

    fn is_mutable(&self) -> bool {
        match self {
            CounterCall::Get => false,
            CounterCall::Add(_) => true,
        }
    }

    fn touches(&self, _read: &CounterCall) -> bool {
        true
    }
}

/// A number that is added to, wrapping at 64 bits. No read or write allocates or fails.
#[derive(Drop)]
pub struct Counter {
    /// What was added so far, modulo 2^64.
    pub number: u64,
}

impl Track for Counter {
    type Call = CounterCall;

    type Answer = u64;

    ghost use Rattle.std.specs.Prelude.{◌+◌, ◌%◌, ◌^◌};
    ghost use Rattle.comemo_examples.specs.Writers.{added};

    ghost answers = { λ s _. s.number };

    ghost wrote = { λ s call t. t.number ≡ (s.number + added call) % 2 ^ 64 };

    ghost alike = { λ s x y h. Prim.search rules };

    fn ask(&self, _call: &CounterCall) -> Result<u64, AllocError> {
        Ok(self.number)
    }

    fn call_mut(&mut self, call: &CounterCall) -> Result<(), AllocError>
        ensures ok { result ≡ Ok tt }
        ensures number { self.new.number ≡ (self.old.number + added call.now) % 2 ^ 64 }
    {
        let number = match *call {
            CounterCall::Get => 0,
            CounterCall::Add(number) => number,
        };
        self.number = self.number.wrapping_add(number);
        Ok(())
    }
}
