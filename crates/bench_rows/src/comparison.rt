//! Random steps, each done by a cache and by another machine, whose replies must be the same.
ghost use Rattle.std.specs.Prelude.{◌≡◌, ◌≤◌, IfSome};
ghost use Rattle.comemo.specs.Steps.{IsStep};

use crate::list::PlainList;
use crate::random::Numbers;
use crate::steps::{Anything, look};
use comemo::CacheData;
use comemo::internal::{Found, Meant, Step, StepReply};
use std::alloc::{AllocError, Global};

/// What does the steps of a cache, to be compared with one.
pub trait Machine: Drop {
    /// Does a step, and returns its reply.
    fn take(
        &mut self,
        alloc: Global,
        step: &Step<Anything>,
    ) -> Result<StepReply<Anything>, AllocError>;
}

/// Whether two found entries are the same.
fn are_alike(found: &Found<Anything>, wanted: &Found<Anything>) -> bool {
    found.pairs.as_slice() == wanted.pairs.as_slice()
        && found.output == wanted.output
        && found.writes.as_slice() == wanted.writes.as_slice()
        && found.age == wanted.age
}

/// Whether two replies are the same.
fn is_same(reply: &StepReply<Anything>, wanted: &StepReply<Anything>) -> bool {
    match (reply, wanted) {
        (StepReply::Found(found), StepReply::Found(wanted)) => are_alike(found, wanted),
        (StepReply::NotFound, StepReply::NotFound) => true,
        (StepReply::Stored, StepReply::Stored) => true,
        (StepReply::AlreadyExists, StepReply::AlreadyExists) => true,
        (StepReply::MissingCall, StepReply::MissingCall) => true,
        (StepReply::Done, StepReply::Done) => true,
        _ => false,
    }
}

/// Whether the only reply is this.
fn is_answered(replies: &[StepReply<Anything>], wanted: &StepReply<Anything>) -> bool {
    match replies {
        [reply] => is_same(reply, wanted),
        _ => false,
    }
}

/// A cache, and a machine with which it is compared.
#[derive(Drop)]
struct Pair<M: Machine> {
    alloc: Global,
    cache: CacheData<Anything>,
    machine: M,
}

impl<M: Machine> Pair<M> {
    /// Whether both reply the same to a step. Running out of memory counts as a difference.
    fn agree(&mut self, step: Step<Anything>) -> bool
        requires { IsStep ⟦<Anything as Meant>⟧.meaning step }
    {
        let Ok(wanted) = self.machine.take(self.alloc, &step) else {
            return false;
        };
        let Ok(steps) = vec![in self.alloc; step] else {
            return false;
        };
        match self.cache.replay(self.alloc, steps) {
            Ok(replies) => is_answered(replies.as_slice(), &wanted),
            Err(_) => false,
        }
    }

    /// Whether both reply the same to a look-up with one read, and one answer to all others.
    fn agree_on_look(&mut self, key: u8, number: u8, answer: u8, other: u8) -> bool {
        match look(self.alloc, key, &[(number, answer)], other) {
            Ok(look) => self.agree(look),
            Err(_) => false,
        }
    }

    /// Whether both reply the same to each look-up with at most one read, and one answer to all others.
    fn agree_on_looks(&mut self) -> bool {
        for key in 0..4 {
            for number in 0..8 {
                for answer in 0..4 {
                    for other in 0..4 {
                        if !self.agree_on_look(key, number, answer, other) {
                            return false;
                        }
                    }
                }
            }
        }
        true
    }
}

/// After how many steps everything is looked up.
const PERIOD: u32 = 1_000;

/// The first of these random steps to which a new cache and a new machine reply differently.
///
/// After each thousandth step, and the last, everything is looked up in both, as part of that step. Running out of
/// memory counts as a difference.
pub fn compare<M: Machine>(alloc: Global, machine: M, seed: u64, steps: u32) -> Option<u32>
    ensures { IfSome result (λ step. (1 ≤ step) × (step ≤ steps)) }
{
    let mut numbers = Numbers::new(seed);
    let mut pair = Pair {
        alloc,
        cache: CacheData::new(alloc),
        machine,
    };
    for before in 0..steps {
        let step = before + 1;
        let is_last = step == steps || step % PERIOD == 0;
        if !take_next(&mut pair, &mut numbers, step, is_last) {
            return Some(step);
        }
    }
    None
}

/// Whether both reply the same to the next step and, if asked for, to all look-ups after it.
fn take_next<M: Machine>(
    pair: &mut Pair<M>,
    numbers: &mut Numbers,
    output: u32,
    is_last: bool,
) -> bool {
    let Ok(step) = numbers.step(pair.alloc, output) else {
        return false;
    };
    pair.agree(step) && (!is_last || pair.agree_on_looks())
}

/// The first of these random steps to which a cache and a plain list reply differently.
pub fn fuzz(alloc: Global, seed: u64, steps: u32) -> Option<u32>
    ensures { IfSome result (λ step. (1 ≤ step) × (step ≤ steps)) }
{
    compare(alloc, PlainList::new(alloc), seed, steps)
}
