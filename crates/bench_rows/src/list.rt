//! A cache as a plain list of entries, which is searched whole. It shares no code with the call tree.

use crate::comparison::Machine;
use crate::steps::{Anything, Numbered};
use comemo::internal::{Found, InsertError, Step, StepReply};
use std::alloc::{AllocError, Global};

/// What is stored under a key and a path.
#[derive(Drop)]
struct Entry {
    key: u8,
    path: Vec<(Numbered, u8)>,
    output: u32,
    writes: Vec<Numbered>,
    age: usize,
}

/// The first answer that pairs have to a call.
fn answer_in(pairs: &[(Numbered, u8)], call: Numbered) -> Option<u8> {
    for (known, answer) in pairs {
        if *known == call {
            return Some(*answer);
        }
    }
    None
}

impl Entry {
    /// Whether the path has the answers of these pairs, and this other one to all else.
    fn agrees(&self, answers: &[(Numbered, u8)], other: u8) -> bool {
        for (call, answer) in &self.path {
            if answer_in(answers, *call).unwrap_or(other) != *answer {
                return false;
            }
        }
        true
    }

    /// Whether the path has exactly these answers, in order.
    fn has_answers(&self, answers: &[u8]) -> bool {
        if self.path.len() != answers.len() {
            return false;
        }
        for (pair, answer) in self.path.iter().zip(answers) {
            if pair.1 != *answer {
                return false;
            }
        }
        true
    }

    /// The result of a look-up that finds this entry.
    fn found(&self) -> Result<Found<Anything>, AllocError> {
        Ok(Found {
            pairs: self.path.clone()?,
            output: self.output,
            writes: self.writes.clone()?,
            age: self.age,
        })
    }
}

/// A cache as a list of its entries, oldest first. Each step scans the whole list.
#[derive(Drop)]
pub struct PlainList {
    entries: Vec<Entry>,
}

impl PlainList {
    /// An empty list. Does not allocate.
    pub fn new(alloc: Global) -> Self {
        PlainList {
            entries: Vec::new(alloc),
        }
    }

    /// The entry under a key that agrees with these answers.
    fn look(
        &self,
        key: u8,
        answers: &[(Numbered, u8)],
        other: u8,
    ) -> Result<StepReply<Anything>, AllocError> {
        for entry in &self.entries {
            if entry.key == key && entry.agrees(answers, other) {
                return Ok(StepReply::Found(entry.found()?));
            }
        }
        Ok(StepReply::NotFound)
    }

    /// Sets the age of the entry under a key whose path has these answers to 0.
    fn touch(&mut self, key: u8, answers: &[u8]) {
        for entry in &mut self.entries {
            if entry.key == key && entry.has_answers(answers) {
                entry.age = 0;
            }
        }
    }

    /// An entry under a key whose path begins with a prefix.
    fn first_from(&self, key: u8, prefix: &[(Numbered, u8)]) -> Option<&Entry> {
        for entry in &self.entries {
            if entry.key == key && entry.path.as_slice().starts_with(prefix) {
                return Some(entry);
            }
        }
        None
    }

    /// The path of these pairs under a key: along stored paths, in any order, and then in their own order.
    fn path_of(
        &self,
        alloc: Global,
        key: u8,
        pairs: &[(Numbered, u8)],
    ) -> Result<Vec<(Numbered, u8)>, InsertError> {
        let mut path: Vec<(Numbered, u8)> = Vec::new(alloc);
        for _ in 0..=pairs.len() {
            let Some(entry) = self.first_from(key, path.as_slice()) else {
                break;
            };
            let Some(next) = entry.path.get(path.len()) else {
                return Err(InsertError::AlreadyExists);
            };
            let Some(answer) = answer_in(pairs, next.0) else {
                return Err(InsertError::MissingCall);
            };
            path.push((next.0, answer))?;
        }
        for pair in pairs {
            if answer_in(path.as_slice(), pair.0).is_none() {
                path.push(*pair)?;
            }
        }
        Ok(path)
    }

    /// Adds an entry under a key and the path of these pairs.
    fn store(
        &mut self,
        alloc: Global,
        key: u8,
        pairs: &[(Numbered, u8)],
        output: u32,
        writes: Vec<Numbered>,
    ) -> Result<(), InsertError> {
        let path = self.path_of(alloc, key, pairs)?;
        self.entries.push(Entry {
            key,
            path,
            output,
            writes,
            age: 0,
        })?;
        Ok(())
    }

    /// Drops the entries whose age is at least the bound; the others' ages grow by one.
    fn evict(&mut self, max_age: usize) {
        self.entries.retain(|entry| entry.age < max_age);
        for entry in &mut self.entries {
            entry.age = entry.age.saturating_add(1);
        }
    }
}

impl Machine for PlainList {
    fn take(
        &mut self,
        alloc: Global,
        step: &Step<Anything>,
    ) -> Result<StepReply<Anything>, AllocError> {
        match step {
            Step::Look {
                key,
                answers,
                other,
            } => self.look(*key, answers.as_slice(), *other),
            Step::Touch { key, answers } => {
                self.touch(*key, answers.as_slice());
                Ok(StepReply::Done)
            }
            Step::Store {
                key,
                pairs,
                output,
                writes,
            } => match self.store(alloc, *key, pairs.as_slice(), *output, writes.clone()?) {
                Ok(()) => Ok(StepReply::Stored),
                Err(InsertError::AlreadyExists) => Ok(StepReply::AlreadyExists),
                Err(InsertError::MissingCall) => Ok(StepReply::MissingCall),
                Err(InsertError::Memory) => Err(AllocError),
            },
            Step::Evict { max_age } => {
                self.evict(*max_age);
                Ok(StepReply::Done)
            }
        }
    }
}
