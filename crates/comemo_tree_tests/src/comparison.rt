//! Seeded steps, each done by a tree and by another machine. The results must be equal.
ghost use Rattle.std.specs.Prelude.{◌<◌, ◌≤◌};

use crate::counted::{Counted, Run, answer_to, run_under};
use crate::numbers::Numbers;
use crate::sets::{Machine, Pair};
use comemo_base::InsertError;
use comemo_tree::{Settled, TreeReply};
use std::alloc::{AllocError, Global};

/// The answer to the call 0, and those to the others as bits.
#[derive(Clone, Copy, Drop)]
struct Answers {
    first: u64,
    others: u64,
}

impl Answers {
    /// The answer to a call.
    fn to(self, call: u64) -> u64 {
        if call == 0 {
            self.first
        } else {
            answer_to(self.others, call)
        }
    }

    /// All calls that may be asked under one of the keys, with their answers.
    fn table(self, alloc: Global) -> Result<Vec<Pair>, AllocError> {
        let mut table = Vec::new(alloc);
        for call in 0..7_u64 {
            table.push((call, self.to(call)))?;
        }
        Ok(table)
    }
}

/// The pairs of a run, in its order.
fn pairs_of(alloc: Global, run: &Run) -> Result<Vec<Pair>, AllocError> {
    let mut pairs = Vec::new(alloc);
    for slot in run.slots() {
        if let Some(pair) = slot {
            pairs.push(*pair)?;
        }
    }
    Ok(pairs)
}

/// A tree, and the machine to compare it with.
#[derive(Drop)]
struct Both<M: Machine> {
    alloc: Global,
    tree: Settled<Counted, u32>,
    machine: M,
}

impl<M: Machine> Both<M> {
    /// The machine's reply to an insertion of a run.
    fn reply(&mut self, key: u64, run: &Run, value: u32) -> Result<TreeReply, AllocError> {
        let pairs = pairs_of(self.alloc, run)?;
        self.machine.insert(key, pairs.as_slice(), value)
    }

    /// Whether an insertion of a run, in one of its orders, has the same result in both.
    fn agree_on_insert(
        &mut self,
        key: u64,
        answers: Answers,
        numbers: &mut Numbers,
        value: u32,
    ) -> Result<bool, AllocError>
        requires above { 0 < key }
        requires below { key < 5 }
    {
        let run = run_under(self.alloc, key, answers.first, answers.others, numbers)?;
        let wanted = self.reply(key, &run, value)?;
        match self.tree.insert(key, run, value) {
            Ok(()) => Ok(wanted == TreeReply::Inserted),
            Err(InsertError::AlreadyExists) => Ok(wanted == TreeReply::AlreadyExists),
            Err(_) => Ok(false),
        }
    }

    /// Whether both find the same under a key by these answers.
    fn agree_on_get(&mut self, key: u64, answers: Answers) -> Result<bool, AllocError> {
        let table = answers.table(self.alloc)?;
        let found = self
            .tree
            .get(&key, &mut |call: &u64| Ok(answers.to(*call)))?;
        Ok(found.copied() == self.machine.get(key, table.as_slice()))
    }

    /// Whether both have the same number of values after a retention.
    fn agree_on_retain(&mut self, rest: u32) -> bool {
        self.tree.retain(|value: &mut u32| {
            let stays = *value % 4 != rest;
            *value = value.wrapping_add(1);
            stays
        });
        self.machine.retain(rest);
        self.tree.shape().1 == self.machine.len()
    }

    /// Whether both find the same under every key by all answers.
    fn agree_on_all_gets(&mut self) -> Result<bool, AllocError> {
        for number in 0..768_u64 {
            let answers = Answers {
                first: number / 4 % 3,
                others: number / 12 * 2,
            };
            if !self.agree_on_get(1 + number % 4, answers)? {
                return Ok(false);
            }
        }
        Ok(true)
    }

    /// Whether the next step has the same result in both.
    fn agree(&mut self, numbers: &mut Numbers, value: u32) -> Result<bool, AllocError> {
        let kind = numbers.below(64);
        let key = 1 + numbers.below(4);
        let answers = Answers {
            first: numbers.below(3),
            others: numbers.below(128),
        };
        match kind {
            0..31 => self.agree_on_insert(key, answers, numbers, value),
            31..63 => self.agree_on_get(key, answers),
            _ => Ok(self.agree_on_retain(value % 4)),
        }
    }
}

/// After this many steps everything is looked up.
const PERIOD: u32 = 1_000;

/// The first of this many seeded steps at which a new tree and a new machine differ.
///
/// After each thousandth step everything is looked up in both, as a part of that step. A step that is out of memory
/// counts as a difference.
pub(crate) fn compare<M: Machine>(alloc: Global, machine: M, seed: u64, steps: u32) -> Option<u32> {
    let mut numbers = Numbers::new(seed);
    let mut both = Both {
        alloc,
        tree: Settled::new(alloc),
        machine,
    };
    for step in 0..steps {
        let Ok(true) = both.agree(&mut numbers, step) else {
            return Some(step);
        };
        if step % PERIOD == 0 {
            let Ok(true) = both.agree_on_all_gets() else {
                return Some(step);
            };
        }
    }
    None
}
