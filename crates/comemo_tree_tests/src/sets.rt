//! A map from keys and sets of pairs to values, as a plain list, searched linearly. It is written independently of the
//! call tree.

use comemo_tree::TreeReply;
use std::alloc::{AllocError, Global};

/// A call with its answer.
pub(crate) type Pair = (u64, u64);

/// A machine that does the steps of a tree, to be compared with one.
pub(crate) trait Machine: Drop {
    /// Stores a value under a key and pairs.
    fn insert(&mut self, key: u64, pairs: &[Pair], value: u32) -> Result<TreeReply, AllocError>;

    /// The value under a key that agrees with the answers of a table.
    fn get(&self, key: u64, table: &[Pair]) -> Option<u32>;

    /// Drops the values with a remainder modulo 4, and adds 1 to the others.
    fn retain(&mut self, rest: u32);

    /// How many values there are.
    fn len(&self) -> usize;
}

/// Whether each of these pairs is among the others.
pub(crate) fn are_among(pairs: &[Pair], others: &[Pair]) -> bool {
    for pair in pairs {
        if !others.contains(pair) {
            return false;
        }
    }
    true
}

/// A value under a key and a set of pairs.
#[derive(Drop)]
pub(crate) struct Entry {
    pub(crate) key: u64,
    pub(crate) pairs: Vec<Pair>,
    pub(crate) value: u32,
}

impl Entry {
    /// Whether it has this key and these pairs, in any order.
    fn has_set(&self, key: u64, pairs: &[Pair]) -> bool {
        self.key == key && are_among(&self.pairs, pairs) && are_among(pairs, &self.pairs)
    }
}

/// A plain list of entries.
#[derive(Drop)]
pub(crate) struct PlainSets {
    pub(crate) alloc: Global,
    pub(crate) entries: Vec<Entry>,
}

impl PlainSets {
    /// A list without entries.
    pub(crate) fn new(alloc: Global) -> Self {
        PlainSets {
            alloc,
            entries: Vec::new(alloc),
        }
    }

    /// Adds an entry, whatever else there is.
    pub(crate) fn add(&mut self, key: u64, pairs: &[Pair], value: u32) -> Result<(), AllocError> {
        let mut own = Vec::new(self.alloc);
        own.extend_from_slice(pairs)?;
        self.entries.push(Entry {
            key,
            pairs: own,
            value,
        })?;
        Ok(())
    }
}

impl Machine for PlainSets {
    fn insert(&mut self, key: u64, pairs: &[Pair], value: u32) -> Result<TreeReply, AllocError> {
        for entry in &self.entries {
            if entry.has_set(key, pairs) {
                return Ok(TreeReply::AlreadyExists);
            }
        }
        self.add(key, pairs, value)?;
        Ok(TreeReply::Inserted)
    }

    fn get(&self, key: u64, table: &[Pair]) -> Option<u32> {
        for entry in &self.entries {
            if entry.key == key && are_among(&entry.pairs, table) {
                return Some(entry.value);
            }
        }
        None
    }

    fn retain(&mut self, rest: u32) {
        self.entries.retain(|entry: &Entry| entry.value % 4 != rest);
        for entry in &mut self.entries {
            entry.value = entry.value.wrapping_add(1);
        }
    }

    fn len(&self) -> usize {
        self.entries.len()
    }
}
