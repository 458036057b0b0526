//! A function for random steps: it asks many calls, in any order.
ghost use Rattle.std.specs.Prelude.{◌≡◌, ◌+◌, ◌<◌, ◌≤◌, ◌^◌, ℕ, nat_eq, IsTrue, IfOk, OnOk};
ghost use Rattle.comemo_base.specs.Sequence.{held};
ghost use Rattle.comemo_base.specs.Answers.{Agrees};
ghost use Rattle.comemo_base.specs.Runs.{IsRun};
ghost use Rattle.comemo_tree_tests.specs.CountedCalls.{AsksCounted, IsDraft, bound_of};
ghost use Rattle.std.proofs.Common.{rules};

use crate::numbers::Numbers;
use comemo_base::CallSequence;
use comemo_tree::Asks;
use std::alloc::{AllocError, Global};

/// What the function asks: the calls below its key, and also the next three if the answer to the call 0 is 1.
#[derive(Drop)]
pub(crate) struct Counted;

impl Asks for Counted {
    type Key = u64;

    type Call = u64;

    type Answer = u64;

    ghost asks = { λ key m call. AsksCounted key m call };

    ghost laws = { record {
      respect = λ k k' m c c' e f a. Prim.search rules;
      clones = λ x y h. Prim.search rules;
    } };
}

/// A run, or a prefix of one.
pub(crate) type Run = CallSequence<u64, u64>;

/// The answer to a call above 0: the bit with its number.
pub(crate) fn answer_to(answers: u64, call: u64) -> u64 {
    (answers >> (call % 64)) % 2
}

/// Asks a call after those of a run, unless it was asked before. Returns whether it was asked now.
fn ask(key: u64, run: &mut Run, call: u64, answer: u64) -> Result<bool, AllocError>
    requires draft { IsDraft key run.old }
    requires asked { (m : ℕ → ℕ) → Agrees nat_eq m run.old.pairs → AsksCounted key m call }
    ensures draft { IsDraft key run.new }
    ensures agrees { (m : ℕ → ℕ)
        → Agrees nat_eq m run.new.pairs
        → Agrees nat_eq m run.old.pairs }
    ensures kept { (other : ℕ)
        → IsTrue (held nat_eq run.old.pairs other)
        → IsTrue (held nat_eq run.new.pairs other) }
    ensures held { OnOk result (IsTrue (held nat_eq run.new.pairs call)) }
    ensures told { IfOk result (λ new. IsTrue new
        → (m : ℕ → ℕ) → Agrees nat_eq m run.new.pairs → m call ≡ answer) }
{
    let is_new = run.insert(call, answer)?;
    Ok(is_new)
}

/// Asks some of the calls that are asked whatever the answers, except the call 0.
fn begin(key: u64, answers: u64, numbers: &mut Numbers, run: &mut Run) -> Result<(), AllocError>
    requires draft { IsDraft key run.old }
    requires above { 0 < key }
    ensures { IsDraft key run.new }
{
    for _ in 0..numbers.below(4) {
        let call = numbers.below(key);
        if call != 0 {
            ask(key, run, call, answer_to(answers, call))?;
        }
    }
    Ok(())
}

/// Asks the calls below a bound that were not asked yet, some in random order, and then the others.
fn end(
    key: u64,
    bound: u64,
    answers: u64,
    numbers: &mut Numbers,
    run: &mut Run,
) -> Result<(), AllocError>
    requires draft { IsDraft key run.old }
    requires asked { (m : ℕ → ℕ) → Agrees nat_eq m run.old.pairs → bound ≡ bound_of key (m 0) }
    requires above { 0 < bound }
    ensures draft { IsDraft key run.new }
    ensures agrees { (m : ℕ → ℕ)
        → Agrees nat_eq m run.new.pairs
        → Agrees nat_eq m run.old.pairs }
    ensures whole { OnOk result ((call : ℕ) → call < bound
        → IsTrue (held nat_eq run.new.pairs call)) }
{
    for _ in 0..numbers.below(8) {
        let call = numbers.below(bound);
        ask(key, run, call, answer_to(answers, call))?;
    }
    for call in 0..bound {
        ask(key, run, call, answer_to(answers, call))?;
    }
    Ok(())
}

/// How many calls are asked under a key, if the call 0 has this answer.
fn bound_at(key: u64, first: u64) -> u64
    requires { key + 3 < 2 ^ 64 }
    ensures { result ≡ bound_of key first }
{
    if first == 1 { key + 3 } else { key }
}

/// A run under a key in some order, with the first answer for the call 0, and these for the others.
pub(crate) fn run_under(
    alloc: Global,
    key: u64,
    first: u64,
    answers: u64,
    numbers: &mut Numbers,
) -> Result<Run, AllocError>
    requires above { 0 < key }
    requires below { key + 3 < 2 ^ 64 }
    ensures { IfOk result
        (λ run. IsRun nat_eq nat_eq (λ m call. AsksCounted key m call) run.pairs) }
{
    let mut run = CallSequence::new(alloc);
    begin(key, answers, numbers, &mut run)?;
    if !ask(key, &mut run, 0, first)? {
        return Err(AllocError);
    }
    let bound = bound_at(key, first);
    end(key, bound, answers, numbers, &mut run)?;
    Ok(run)
}
