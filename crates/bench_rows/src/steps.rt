//! Steps of a cache of a function for which everything is right. Its calls are numbers.
ghost use Rattle.std.specs.Prelude.{◌≡◌, ⊤, true, false, IfOk};
ghost use Rattle.std.specs.List.{All};
ghost use Rattle.std.proofs.Common.{rules};
ghost use Rattle.comemo.specs.Steps.{IsStep};

use comemo::internal::{Meant, Step};
use comemo::{Call, Function};
use std::alloc::{AllocError, Global};
use std::hash::Hash;

/// A read or a write, by its number.
#[derive(Clone, Copy, Drop, PartialEq, Eq, Hash)]
pub struct Numbered {
    number: u8,
    writes: bool,
}

impl Call for Numbered {
    ghost is_write = { λ call. call.writes };

    ghost touches = { λ _ _. false };

    ghost laws = { Prim.search rules };

    fn is_mutable(&self) -> bool {
        self.writes
    }

    fn touches(&self, _read: &Numbered) -> bool {
        false
    }
}

/// The read of a number.
pub(crate) fn read(number: u8) -> Numbered
    ensures { result.writes ≡ false }
{
    let writes = false;
    Numbered { number, writes }
}

/// The write of a number.
pub(crate) fn write(number: u8) -> Numbered
    ensures { result.writes ≡ true }
{
    let writes = true;
    Numbered { number, writes }
}

/// A function for which every output and all writes are right.
pub struct Anything;

impl Function for Anything {
    type Call = Numbered;

    type Key = u8;

    type Answer = u8;

    type Out = u32;

    ghost means = { λ _ _ _. ⊤ };

    ghost writes = { λ _ _ _ _. ⊤ };

    ghost laws = { Prim.search rules };
}

/// Reads with their answers.
fn reads(alloc: Global, pairs: &[(u8, u8)]) -> Result<Vec<(Numbered, u8)>, AllocError>
    ensures { IfOk result (λ reads. All (λ p. p.0.writes ≡ false) reads.items) }
{
    let mut reads = Vec::new(alloc);
    for pair in pairs {
        reads.push((read(pair.0), pair.1))?;
    }
    Ok(reads)
}

/// Writes by their numbers.
fn writes(alloc: Global, numbers: &[u8]) -> Result<Vec<Numbered>, AllocError>
    ensures { IfOk result (λ writes. All (λ c. c.writes ≡ true) writes.items) }
{
    let mut writes = Vec::new(alloc);
    for number in numbers {
        writes.push(write(*number))?;
    }
    Ok(writes)
}

/// A look-up under a key, with these answers to some reads and one to all others.
pub(crate) fn look(
    alloc: Global,
    key: u8,
    answers: &[(u8, u8)],
    other: u8,
) -> Result<Step<Anything>, AllocError>
    ensures { IfOk result (IsStep ⟦<Anything as Meant>⟧.meaning) }
{
    let answers = reads(alloc, answers)?;
    Ok(Step::Look {
        key,
        answers,
        other,
    })
}

/// A touch of the entry under a key whose path has these answers.
pub(crate) fn touch(alloc: Global, key: u8, answers: &[u8]) -> Result<Step<Anything>, AllocError>
    ensures { IfOk result (IsStep ⟦<Anything as Meant>⟧.meaning) }
{
    let answers = Vec::from_slice(alloc, answers)?;
    Ok(Step::Touch { key, answers })
}

/// Stores an output and writes under a key and some reads with their answers.
pub(crate) fn store(
    alloc: Global,
    key: u8,
    pairs: &[(u8, u8)],
    output: u32,
    numbers: &[u8],
) -> Result<Step<Anything>, AllocError>
    ensures { IfOk result (IsStep ⟦<Anything as Meant>⟧.meaning) }
{
    let pairs = reads(alloc, pairs)?;
    let writes = writes(alloc, numbers)?;
    Ok(Step::Store {
        key,
        pairs,
        output,
        writes,
    })
}

/// Evicts with a bound.
pub(crate) fn evict(max_age: usize) -> Step<Anything>
    ensures { IsStep ⟦<Anything as Meant>⟧.meaning result }
{
    Step::Evict { max_age }
}
