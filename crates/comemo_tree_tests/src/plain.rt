//! A tree as a plain list of entries, searched linearly. It is written independently of the tree that it is compared
//! with.
//!
//! Calls are below 6 and answers below 3. A list of pairs is a number to the base 32, with a digit for each pair, the
//! first pair's lowest. A digit is 1 more than three times the call plus the answer.
use comemo_base::InsertError;
use std::alloc::Global;

const BASE: u32 = 32;

/// The most pairs that a list has.
pub const MOST: u32 = 6;

/// The digit of a pair.
fn digit_of(call: u32, answer: u32) -> u32 {
    call.wrapping_mul(3).wrapping_add(answer).wrapping_add(1)
}

/// The first pair of a list; `None` if it is empty.
pub fn first_of(pairs: u32) -> Option<(u32, u32)> {
    let digit = pairs % BASE;
    if digit == 0 {
        return None;
    }
    Some(((digit - 1) / 3, (digit - 1) % 3))
}

/// A list without its first pair.
pub fn rest_of(pairs: u32) -> u32 {
    pairs / BASE
}

/// The answer to a call in these pairs.
pub fn answer_in(pairs: u32, call: u32) -> Option<u32> {
    let mut left = pairs;
    for _ in 0..MOST {
        let (known, answer) = first_of(left)?;
        if known == call {
            return Some(answer);
        }
        left = rest_of(left);
    }
    None
}

/// A prefix of a list, and the place of the digit after it.
#[derive(Clone, Copy, Drop)]
pub struct Prefix {
    pub pairs: u32,
    place: u32,
}

impl Prefix {
    /// The empty prefix.
    pub fn new() -> Prefix {
        Prefix { pairs: 0, place: 1 }
    }

    /// This prefix and one more pair.
    pub fn with(self, call: u32, answer: u32) -> Prefix {
        let digit = digit_of(call, answer).wrapping_mul(self.place);
        Prefix {
            pairs: self.pairs.wrapping_add(digit),
            place: self.place.wrapping_mul(BASE),
        }
    }
}

/// A value under a key and a path.
#[derive(Clone, Copy, Drop)]
pub struct Entry {
    pub key: u32,
    pub path: u32,
    pub value: u32,
}

impl Entry {
    /// Whether its path begins with a prefix.
    fn begins(self, key: u32, prefix: Prefix) -> bool {
        self.key == key && self.path % prefix.place.max(1) == prefix.pairs
    }

    /// The pair of its path after a prefix.
    fn after(self, prefix: Prefix) -> Option<(u32, u32)> {
        first_of(self.path / prefix.place.max(1))
    }
}

/// The result of a look-up: the path that was found and its value, and the calls that were asked, as pairs with the
/// answer 0.
#[derive(Clone, Copy, Drop)]
pub struct Found {
    pub value: Option<u32>,
    pub path: u32,
    pub asked: u32,
}

/// All entries, in the order of insertion.
#[derive(Drop)]
pub struct Plain {
    pub entries: Vec<Entry>,
}

impl Plain {
    /// A list without entries.
    pub fn new(alloc: Global) -> Plain {
        Plain {
            entries: Vec::new(alloc),
        }
    }

    /// The first entry under a key whose path begins with a prefix.
    fn first_from(&self, key: u32, prefix: Prefix) -> Option<Entry> {
        for entry in &self.entries {
            if entry.begins(key, prefix) {
                return Some(*entry);
            }
        }
        None
    }

    /// The path under which these pairs are stored, for a key.
    fn path_of(&self, key: u32, pairs: u32) -> Result<u32, InsertError> {
        let mut prefix = Prefix::new();
        for _ in 0..=MOST {
            let Some(entry) = self.first_from(key, prefix) else {
                break;
            };
            let Some((call, _)) = entry.after(prefix) else {
                return Err(InsertError::AlreadyExists);
            };
            let Some(answer) = answer_in(pairs, call) else {
                return Err(InsertError::MissingCall);
            };
            prefix = prefix.with(call, answer);
        }
        let mut left = pairs;
        for _ in 0..MOST {
            let Some((call, answer)) = first_of(left) else {
                break;
            };
            if answer_in(prefix.pairs, call).is_none() {
                prefix = prefix.with(call, answer);
            }
            left = rest_of(left);
        }
        Ok(prefix.pairs)
    }

    /// Stores a value under a key and the path of these pairs.
    pub fn insert(&mut self, key: u32, pairs: u32, value: u32) -> Result<(), InsertError> {
        let path = self.path_of(key, pairs)?;
        self.entries.push(Entry { key, path, value })?;
        Ok(())
    }

    /// Looks up by answers, one for each call.
    pub fn look_up(&self, key: u32, answers: u32) -> Found {
        let mut prefix = Prefix::new();
        let mut asked = Prefix::new();
        for _ in 0..=MOST {
            let Some(entry) = self.first_from(key, prefix) else {
                break;
            };
            let Some((call, _)) = entry.after(prefix) else {
                let (value, path) = (Some(entry.value), entry.path);
                return Found {
                    value,
                    path,
                    asked: asked.pairs,
                };
            };
            asked = asked.with(call, 0);
            prefix = prefix.with(call, answer_in(answers, call).unwrap_or(0));
        }
        Found {
            value: None,
            path: 0,
            asked: asked.pairs,
        }
    }

    /// Changes the value under a key at the path with these answers. Returns whether there is one.
    pub fn change(&mut self, key: u32, answers: &[u32], value: u32) -> bool {
        for entry in &mut self.entries {
            if entry.key == key && has_answers(entry.path, answers) {
                entry.value = value;
                return true;
            }
        }
        false
    }
}

/// Whether the answers of a path are these.
fn has_answers(path: u32, answers: &[u32]) -> bool {
    let mut left = path;
    for wanted in answers {
        let Some((_, answer)) = first_of(left) else {
            return false;
        };
        if answer != *wanted {
            return false;
        }
        left = rest_of(left);
    }
    left == 0
}
