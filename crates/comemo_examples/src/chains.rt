//! Chains of numbers, linked by plain references, and a function that asks a chain for a number.
ghost use Rattle.std.specs.Prelude.{◌≡◌, ℕ, ◌||◌, false, nat_eq};
ghost use Rattle.std.proofs.Common.{rules};
ghost use Rattle.comemo_examples.specs.Chains.{has};

use comemo::{Call, Fault, Function, Recorder, Run, Track};
use std::alloc::AllocError;

/// What can be asked of a chain.
#[derive(Clone, Copy, Drop, Debug, PartialEq, Eq, Hash)]
pub enum ChainCall {
    /// Whether a number is in it.
    Contains(u32),
}

impl Call for ChainCall {
    ghost is_write = { λ _. false };

    ghost touches = { λ _ _. false };

    ghost laws = { Prim.search rules };

    fn is_mutable(&self) -> bool {
        false
    }

    fn touches(&self, _read: &ChainCall) -> bool {
        false
    }
}

/// A number, and the chain before it, if any, which it borrows. Does not allocate, and no read fails.
#[derive(Drop)]
pub struct Chain<'a> {
    outer: Option<&'a Chain<'a>>,
    value: u32,
}

impl<'a> Chain<'a> {
    /// A chain of one number.
    pub fn new(value: u32) -> Self
        ensures { (n : ℕ) → has n result ≡ nat_eq value n }
    {
        Chain { outer: None, value }
    }

    /// A chain with one more number, which borrows the chain before.
    pub fn insert(outer: &'a Chain<'a>, value: u32) -> Self
        ensures { (n : ℕ) → has n result ≡ (nat_eq value n || has n outer.now) }
    {
        Chain {
            outer: Some(outer),
            value,
        }
    }

    /// Whether a number is in the chain.
    ///
    /// Searches from the last number back, and recurses once for each number that it passes.
    pub fn contains(&self, value: u32) -> bool
        ensures { result ≡ has value self.now }
    {
        if self.value == value {
            return true;
        }
        match self.outer {
            Some(outer) => outer.contains(value),
            None => false,
        }
    }
}

impl<'a> Track for Chain<'a> {
    type Call = ChainCall;

    type Answer = bool;

    ghost use Rattle.comemo_examples.specs.Chains.{chain_answer};

    ghost answers = { λ s call. chain_answer s call };

    ghost alike = { λ s x y h. Prim.search rules };

    fn ask(&self, call: &ChainCall) -> Result<bool, AllocError> {
        match call {
            ChainCall::Contains(value) => Ok(self.contains(*value)),
        }
    }
}

/// Whether a number is in a chain. Asks the chain for that number alone.
pub struct IsInChain;

impl Function for IsInChain {
    type Call = ChainCall;

    type Key = u32;

    type Answer = bool;

    type Out = bool;

    ghost use Rattle.comemo_examples.specs.declared.chains.ChainCall.TheVariants.{Contains};

    ghost means = { λ n m out. out ≡ m (Contains n) };

    ghost laws = { Prim.search rules };
}

impl<'a> Run<Chain<'a>, ()> for IsInChain {
    fn run(n: &u32, chain: &mut Recorder<'_, Chain<'a>>, _: &mut ()) -> Result<bool, Fault> {
        let is = chain.ask(ChainCall::Contains(*n))?;
        Ok(is)
    }
}
