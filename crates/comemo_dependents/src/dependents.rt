//! The index: keys with the calls that they rest on, and calls with the keys that rest on them.
ghost use Rattle.std.specs.Prelude.{◌≡◌, false, if◌then◌else◌, IsTrue, IfOk, OnOk, OnErr};
ghost use Rattle.std.specs.HashSet.{contains_by};
ghost use Rattle.comemo_base.specs.Sequence.{held};
ghost use Rattle.comemo_dependents.specs.Dependents.{Forgets, KeepsAnswers, rests_on, rests_on_one};

use crate::lists::{Lists, calls_of, link_all, take_in, unlink_all};
use comemo_base::CallSequence;
use comemo_track::Call;
use std::alloc::{AllocError, Global};
use std::collections::{HashMap, HashSet};
use std::hash::Hash;
use std::marker::Model;

/// An index of results: of each key, the calls that its result rests on.
///
/// Its owner notes what a result was made with, whether or not a cache keeps the result. A change of answers then
/// reaches the keys that rest on the calls that changed. Contracts see the keys of each call. A key is cloned for each
/// call that it rests on, so its clones should be cheap.
#[derive(Drop)]
pub struct Dependents<K: Eq + Hash, C: Eq + Hash> {
    alloc: Global,
    // The keys that rest on each call; no set is empty.
    lists: Lists<K, C>,
    // The calls that were noted of each key, by which it is taken out again.
    calls: HashMap<K, Vec<C>>,
}

impl<K: Eq + Hash, C: Eq + Hash> Model for Dependents<K, C> {
    ghost use Rattle.std.specs.Prelude.{List};
    ghost use Rattle.std.specs.Coded.{coded×, coded_list};
    ghost use Rattle.comemo_dependents.specs.Lists.{AreNoted, index_of};

    ghost Value = { List (C × List K) };

    ghost coded = { coded_list (coded× C.code (coded_list K.code)) };

    ghost view = { λ s. index_of s.lists };

    ghost invariant = { λ s. AreNoted K.eq C.eq s.lists s.calls };
}

impl<K: Clone + Eq + Hash + Drop, C: Call + Drop> Dependents<K, C> {
    /// An index of no keys. Does not allocate.
    pub fn new(alloc: Global) -> Self
        ensures { (key : K) (call : C) → rests_on K.eq C.eq result key call ≡ false }
    {
        Dependents {
            alloc,
            lists: HashMap::new(alloc),
            calls: HashMap::new(alloc),
        }
    }

    /// Notes the reads that the result of a key rests on, in place of what was noted of the key before.
    ///
    /// Fails if out of memory; then nothing is noted of the key, so its owner has to take it for reached.
    pub fn note<R>(&mut self, key: K, reads: &CallSequence<C, R>) -> Result<(), AllocError>
        requires clones_equal { (x y : K) → K.is_clone x y → IsTrue (K.eq x y) }
        ensures ok { OnOk result ((other : K) (call : C) → rests_on K.eq C.eq self.new other call
            ≡ (if K.eq other key then held C.eq reads.now.pairs call
            else rests_on K.eq C.eq self.old other call)) }
        ensures err { OnErr result (Forgets K.eq C.eq key self.old self.new) }
    {
        self.remove(&key);
        let calls = calls_of(self.alloc, reads)?;
        self.calls.insert(key.clone()?, calls)?;
        if let Err(error) = link_all(self.alloc, &mut self.lists, &key, reads) {
            self.remove(&key);
            return Err(error);
        }
        Ok(())
    }

    /// Forgets what was noted of a key. Takes time by the calls that were noted of it.
    pub fn remove(&mut self, key: &K)
        ensures { Forgets K.eq C.eq key.now self.old self.new }
    {
        if let Some(calls) = self.calls.remove(key) {
            unlink_all(&mut self.lists, calls.as_slice(), key);
        }
    }

    /// The keys that rest on one of these calls. Takes time by the keys of each call. Fails if out of memory.
    pub fn reached(&self, calls: &[C]) -> Result<HashSet<&K>, AllocError>
        ensures exact { IfOk result (λ keys. (key : K) → contains_by (λ k. K.eq key k.now) keys
            ≡ rests_on_one K.eq C.eq self.now key calls.now) }
        // what was right by the reads of a key that isn't reached is right with the new answers
        ensures stays { IfOk result (λ keys. (key : K)
            → contains_by (λ k. K.eq key k.now) keys ≡ false
            → KeepsAnswers C.eq calls.now (rests_on K.eq C.eq self.now key)) }
    {
        let mut reached = HashSet::new(self.alloc);
        for call in calls {
            let Some(keys) = self.lists.get(call) else {
                continue;
            };
            take_in(&mut reached, keys)?;
        }
        Ok(reached)
    }
}
