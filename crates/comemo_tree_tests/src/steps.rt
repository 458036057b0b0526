//! Random steps, each done by the tree and by a plain list. The results must be equal.
use crate::plain::{Entry, Found, MOST, Plain, Prefix, answer_in, first_of, rest_of};
use comemo_base::{CallSequence, InsertError};
use comemo_tree::CallTree;
use std::alloc::Global;

pub type Tree = CallTree<u32, u32, u32, u32>;

/// Pseudorandom numbers from a seed.
#[derive(Drop)]
struct Numbers {
    state: u64,
}

impl Numbers {
    /// The next number below a bound.
    fn below(&mut self, bound: u64) -> u32 {
        self.state = self
            .state
            .wrapping_mul(6_364_136_223_846_793_005)
            .wrapping_add(1_442_695_040_888_963_407);
        u32::try_from((self.state >> 33) % bound.max(1)).unwrap_or(0)
    }

    /// Up to five of six calls, each once, each with one of three answers.
    fn pairs(&mut self) -> u32 {
        let mut prefix = Prefix::new();
        for _ in 0..self.below(6) {
            let call = self.below(6);
            let answer = self.below(3);
            if answer_in(prefix.pairs, call).is_none() {
                prefix = prefix.with(call, answer);
            }
        }
        prefix.pairs
    }

    /// An answer to each call.
    fn answers(&mut self) -> u32 {
        let mut prefix = Prefix::new();
        for call in 0..6 {
            prefix = prefix.with(call, self.below(3));
        }
        prefix.pairs
    }
}

/// Whether a sequence absorbs these pairs.
fn takes(sequence: &mut CallSequence<u32, u32>, pairs: u32) -> bool {
    let mut left = pairs;
    for _ in 0..MOST {
        let Some((call, answer)) = first_of(left) else {
            return true;
        };
        let Ok(true) = sequence.insert(call, answer) else {
            return false;
        };
        left = rest_of(left);
    }
    true
}

/// Stores a value under a key and the path of these pairs.
fn insert(
    alloc: Global,
    tree: &mut Tree,
    key: u32,
    pairs: u32,
    value: u32,
) -> Result<(), InsertError> {
    let mut sequence = CallSequence::new(alloc);
    let is_taken = takes(&mut sequence, pairs);
    let done = tree.insert(key, sequence, value);
    if is_taken {
        done
    } else {
        Err(InsertError::Memory)
    }
}

/// Whether a tree gets a value by answers, and asks the wanted calls.
fn gets(tree: &Tree, key: u32, answers: u32, wanted: Found) -> bool {
    let mut asked = Prefix::new();
    let found = tree.get(
        &key,
        &mut |call: &u32| {
            asked = asked.with(*call, 0);
            Ok(answer_in(answers, *call).unwrap_or(0))
        },
    );
    let is_wanted = match found {
        Ok(value) => value.copied() == wanted.value,
        Err(_) => false,
    };
    is_wanted && asked.pairs == wanted.asked
}

/// The number of a path.
fn number_of(path: &[(u32, u32)]) -> u32 {
    let mut prefix = Prefix::new();
    for (call, answer) in path {
        prefix = prefix.with(*call, *answer);
    }
    prefix.pairs
}

/// Whether a tree finds a path with its value by answers, and asks the wanted calls.
fn finds(tree: &Tree, key: u32, answers: u32, wanted: Found) -> bool {
    let mut asked = Prefix::new();
    let found = tree.find(
        &key,
        &mut |call: &u32| {
            asked = asked.with(*call, 0);
            Ok(answer_in(answers, *call).unwrap_or(0))
        },
    );
    let is_wanted = match found {
        Ok(Some((path, value))) => {
            let is_path = number_of(path.as_slice()) == wanted.path;
            is_path && wanted.value == Some(*value)
        }
        Ok(None) => wanted.value.is_none(),
        Err(_) => false,
    };
    is_wanted && asked.pairs == wanted.asked
}

/// A tree, the plain list to compare it with, and how many values were stored, found and changed.
#[derive(Drop)]
struct Both {
    alloc: Global,
    tree: Tree,
    plain: Plain,
    stored: u32,
    found: u32,
    changed: u32,
}

impl Both {
    fn new(alloc: Global) -> Both {
        Both {
            alloc,
            tree: CallTree::new(alloc),
            plain: Plain::new(alloc),
            stored: 0,
            found: 0,
            changed: 0,
        }
    }

    /// Whether an insertion has the same result in both.
    fn agree_on_insert(&mut self, key: u32, pairs: u32, value: u32) -> bool {
        let wanted = self.plain.insert(key, pairs, value);
        let done = insert(self.alloc, &mut self.tree, key, pairs, value);
        self.stored = self.stored.saturating_add(u32::from(done.is_ok()));
        done == wanted && done != Err(InsertError::Memory)
    }

    /// Whether both find the same.
    fn agree_on_look_up(&mut self, key: u32, answers: u32) -> bool {
        let wanted = self.plain.look_up(key, answers);
        self.found = self.found.saturating_add(u32::from(wanted.value.is_some()));
        let is_got = gets(&self.tree, key, answers, wanted);
        is_got && finds(&self.tree, key, answers, wanted)
    }

    /// Whether both change the same.
    fn agree_on_change(&mut self, key: u32, answers: &[u32], value: u32) -> bool {
        let wanted = self.plain.change(key, answers, value);
        self.changed = self.changed.saturating_add(u32::from(wanted));
        let is_changed = self
            .tree
            .change(&key, answers, |old: &mut u32| *old = value);
        is_changed == wanted
    }

    /// Drops the same values from both.
    fn retain(&mut self, rest: u32) {
        self.tree.retain(|value: &mut u32| *value % 3 != rest);
        self.plain
            .entries
            .retain(|entry: &Entry| entry.value % 3 != rest);
    }

    /// Whether the next step has the same result in both.
    fn agree(&mut self, numbers: &mut Numbers, step: u32) -> bool {
        let key = numbers.below(3);
        let is_same = match numbers.below(16) {
            0..7 => self.agree_on_insert(key, numbers.pairs(), step),
            7..14 => self.agree_on_look_up(key, numbers.answers()),
            14 => {
                let answers = [numbers.below(3), numbers.below(3), numbers.below(3)];
                let count = numbers.below(4) as usize;
                match answers.as_slice().split_at_checked(count) {
                    Some((prefix, _)) => self.agree_on_change(key, prefix, step),
                    None => false,
                }
            }
            _ => {
                self.retain(numbers.below(3));
                true
            }
        };
        is_same && self.tree.len() == self.plain.entries.len()
    }
}

#[test]
fn the_tree_does_what_the_plain_list_does(rt: HostRuntime) {
    let mut numbers = Numbers { state: 17 };
    let mut both = Both::new(rt.alloc());
    for step in 0..100_000 {
        assert!(rt; both.agree(&mut numbers, step), "step {step}");
    }
    assert!(rt; both.stored > 10_000);
    assert!(rt; both.found > 1_000);
    assert!(rt; both.changed > 100);
}
