//! A function for examples: for each key it asks A and B, in any order, and also C if the answer to A is 1.
ghost use Rattle.std.specs.Prelude.{◌≢◌, [], nat_eq, IfErr, IfOk};
ghost use Rattle.comemo_base.specs.Sequence.{absorbed};
ghost use Rattle.comemo_base.specs.declared.insertion.InsertError.TheVariants.{MissingCall};
ghost use Rattle.comemo_base.specs.Runs.{IsRun};
ghost use Rattle.comemo_examples.specs.LetterCalls.{AsksLetter};
ghost use Rattle.comemo_examples.specs.declared.letters.Letter.TheVariants.{A, B, C};
ghost use Rattle.std.proofs.Common.{rules};

use crate::sequences::sequence_of;
use comemo_base::InsertError;
use comemo_tree::{Asks, Settled};
use std::alloc::{AllocError, Global};

/// A call.
#[derive(Clone, Copy, Debug, PartialEq, Eq, Hash)]
pub enum Letter {
    /// Always asked.
    A,
    /// Always asked.
    B,
    /// Asked if the answer to A is 1.
    C,
}

/// What the function asks.
#[derive(Drop)]
pub struct Letters;

impl Asks for Letters {
    type Key = u128;

    type Call = Letter;

    type Answer = u128;

    ghost asks = { λ k m c. AsksLetter m c };

    ghost laws = { record {
      respect = λ k k' m. elim [
        | A ↦ elim [ A ↦ λ e f a. a | B ↦ λ e f a. tt | C ↦ λ e f a. Prim.search rules ]
        | B ↦ elim [ A ↦ λ e f a. tt | B ↦ λ e f a. a | C ↦ λ e f a. Prim.search rules ]
        | C ↦ elim [ A ↦ λ e f a. tt | B ↦ λ e f a. tt | C ↦ λ e f a. a ]
      ];
      clones = λ x y h. Prim.search rules;
    } };
}

/// Stores a value under the key 0 and the run of the pairs.
pub fn insert(
    alloc: Global,
    tree: &mut Settled<Letters, char>,
    pairs: Vec<(Letter, u128)>,
    value: char,
) -> Result<(), InsertError>
    requires { IsRun ⟦<Letter as PartialEq>⟧.eq nat_eq (λ m c. AsksLetter m c)
        (absorbed ⟦<Letter as PartialEq>⟧.eq [] pairs.items) }
    ensures { IfErr result (λ e. e ≢ MissingCall) }
{
    let sequence = sequence_of(alloc, pairs)?;
    tree.insert(0, sequence, value)
}

/// The pairs of the run with these answers, in the order that `order` picks.
///
/// Leaves C and its answer out if the answer to A is not 1.
pub fn run_of(
    alloc: Global,
    order: u64,
    a: u128,
    b: u128,
    c: u128,
) -> Result<Vec<(Letter, u128)>, AllocError>
    ensures { IfOk result (λ pairs.
        IsRun ⟦<Letter as PartialEq>⟧.eq nat_eq (λ m c. AsksLetter m c)
        (absorbed ⟦<Letter as PartialEq>⟧.eq [] pairs.items)) }
{
    match (a, order) {
        (1, 0) => Ok(vec![in alloc; (Letter::A, a), (Letter::B, b), (Letter::C, c)]?),
        (1, 1) => Ok(vec![in alloc; (Letter::A, a), (Letter::C, c), (Letter::B, b)]?),
        (1, _) => Ok(vec![in alloc; (Letter::B, b), (Letter::A, a), (Letter::C, c)]?),
        (_, 0) => Ok(vec![in alloc; (Letter::A, a), (Letter::B, b)]?),
        _ => Ok(vec![in alloc; (Letter::B, b), (Letter::A, a)]?),
    }
}
