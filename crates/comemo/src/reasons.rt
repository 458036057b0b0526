//! Why the calls of a round were hits or runs.
ghost use Rattle.std.specs.Prelude.{◌≡◌, [], OnOk, OnErr, option_copied};
ghost use Rattle.std.specs.Map.{lookup};
ghost use Rattle.comemo.specs.Rounds.{Learns, changed_output};

use crate::known::At;
use comemo_cache::explain::Explanation;
use comemo_track::multi::MultiCall;
use std::alloc::{AllocError, Global};
use std::collections::HashMap;
use std::hash::Hash;

/// Explanations of the calls of a round, by their keys, as `Turn::explain` returns them: `C` is a call of the value, and
/// `R` an answer of the value or an output. Contracts see them by key.
#[derive(Drop)]
pub struct Reasons<K: Eq + Hash, C, R> {
    by_key: HashMap<K, Explanation<MultiCall<C, At<K>>, R>>,
}

impl<K: Eq + Hash + Drop, C: Drop, R: Drop> Reasons<K, C, R> {
    /// None yet. Does not allocate.
    pub fn new(alloc: Global) -> Self
        ensures { result.by_key.entries ≡ [] }
    {
        Reasons {
            by_key: HashMap::new(alloc),
        }
    }

    /// Notes the explanation of the call at a key, in place of an earlier one. Fails if out of memory; then nothing
    /// changed.
    pub fn note(
        &mut self,
        key: K,
        reason: Explanation<MultiCall<C, At<K>>, R>,
    ) -> Result<(), AllocError>
        ensures notes { OnOk result (Learns K.eq
            self.old.by_key.entries key reason self.new.by_key.entries) }
        ensures err { OnErr result (self.new.by_key.entries ≡ self.old.by_key.entries) }
    {
        self.by_key.insert(key, reason)?;
        Ok(())
    }

    /// The explanation of the call at a key, if one was noted.
    pub fn get(&self, key: &K) -> Option<&Explanation<MultiCall<C, At<K>>, R>>
        ensures { option_copied result ≡ lookup (K.eq key.now) self.now.by_key.entries }
    {
        self.by_key.get(key)
    }

    /// The key whose output changed, if that is why the call at a key is no hit.
    pub fn cause(&self, key: &K) -> Option<&K>
        ensures { option_copied result
            ≡ changed_output (lookup (K.eq key.now) self.now.by_key.entries) }
    {
        match self.get(key) {
            Some(
                Explanation::Changed {
                    asked: _,
                    call: MultiCall::B(at),
                    answer: _,
                },
            ) => { Some(&at.key) }
            _ => None,
        }
    }
}
