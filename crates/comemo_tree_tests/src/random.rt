//! Many steps on a tree and on a plain map of sets.

use crate::comparison::compare;
use crate::sets::{Machine, Pair, PlainSets};
use comemo_tree::TreeReply;
use std::alloc::{AllocError, Global};

/// What a machine does wrong.
#[derive(Clone, Copy, Drop, Debug, PartialEq, Eq)]
enum Wrong {
    /// Nothing.
    Nothing,
    /// Stores a set again if its order differs.
    TellsOrdersApart,
    /// Finds a set if one has the same first pair.
    ComparesFirstPairs,
    /// Overwrites the value that is there.
    Overwrites,
    /// Finds a value under any key.
    FindsUnderAnyKey,
    /// Finds nothing.
    FindsNothing,
    /// Keeps what should be dropped.
    KeepsAll,
    /// Drops one value too many.
    DropsOneMore,
    /// Doesn't change the values that stay.
    LeavesValues,
}

/// A plain map of sets, except for one kind of step.
#[derive(Drop)]
struct Faulty {
    sets: PlainSets,
    wrong: Wrong,
}

impl Machine for Faulty {
    fn insert(&mut self, key: u64, pairs: &[Pair], value: u32) -> Result<TreeReply, AllocError> {
        for entry in &mut self.sets.entries {
            let is_there = entry.key == key;
            let first = entry.pairs.first() == pairs.first();
            let order = entry.pairs.as_slice() == pairs;
            match self.wrong {
                Wrong::ComparesFirstPairs if is_there && first => {
                    return Ok(TreeReply::AlreadyExists);
                }
                Wrong::TellsOrdersApart if is_there && order => {
                    return Ok(TreeReply::AlreadyExists);
                }
                Wrong::Overwrites if is_there && order => {
                    entry.value = value;
                    return Ok(TreeReply::AlreadyExists);
                }
                _ => {}
            }
        }
        if self.wrong == Wrong::TellsOrdersApart {
            self.sets.add(key, pairs, value)?;
            return Ok(TreeReply::Inserted);
        }
        self.sets.insert(key, pairs, value)
    }

    fn get(&self, key: u64, table: &[Pair]) -> Option<u32> {
        match self.wrong {
            Wrong::FindsNothing => None,
            Wrong::FindsUnderAnyKey => {
                let others: &[u64] = &[key, 1, 2, 3, 4];
                for other in others {
                    if let Some(value) = self.sets.get(*other, table) {
                        return Some(value);
                    }
                }
                None
            }
            _ => self.sets.get(key, table),
        }
    }

    fn retain(&mut self, rest: u32) {
        match self.wrong {
            Wrong::KeepsAll => self.sets.retain(4),
            Wrong::DropsOneMore => {
                self.sets.retain(rest);
                let _ = self.sets.entries.pop();
            }
            Wrong::LeavesValues => {
                self.sets.retain(rest);
                for entry in &mut self.sets.entries {
                    entry.value = entry.value.wrapping_sub(1);
                }
            }
            _ => self.sets.retain(rest),
        }
    }

    fn len(&self) -> usize {
        self.sets.len()
    }
}

#[test]
fn a_hundred_thousand_steps_are_those_of_a_map_of_sets(rt: HostRuntime) {
    let alloc = rt.alloc();
    for seed in 1..6_u64 {
        let first = compare(alloc, PlainSets::new(alloc), seed, 20_000);
        assert!(rt; first.is_none());
    }
}

#[test]
fn each_fault_of_a_machine_is_found(rt: HostRuntime) {
    let alloc = rt.alloc();
    let kinds: &[Wrong] = &[
        Wrong::Nothing,
        Wrong::TellsOrdersApart,
        Wrong::ComparesFirstPairs,
        Wrong::Overwrites,
        Wrong::FindsUnderAnyKey,
        Wrong::FindsNothing,
        Wrong::KeepsAll,
        Wrong::DropsOneMore,
        Wrong::LeavesValues,
    ];
    for kind in kinds {
        let wrong = *kind;
        let sets = PlainSets::new(alloc);
        let first = compare(alloc, Faulty { sets, wrong }, 1, 5_000);
        assert!(rt; first.is_none() == (wrong == Wrong::Nothing), "{wrong:?}");
    }
}
