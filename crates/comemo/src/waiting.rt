//! The keys of a round whose outputs wait for others.
ghost use Rattle.std.specs.Prelude.{◌≡◌, IfErr};
ghost use Rattle.comemo.specs.Rounds.{FailsBy};
ghost use Rattle.comemo.specs.Trail.{IsTrail};

use crate::known::{Query, Unknown};
use crate::round::RoundError;
use comemo_track::track::Track;
use std::alloc::{AllocError, Global};
use std::marker::Model;

/// What look-ups asked of a value, with the answers. Contracts see the value.
#[derive(Drop)]
pub struct Trail<V: Track> {
    at: V,
    pairs: Vec<(V::Call, V::Answer)>,
}

impl<V: Track> Model for Trail<V> {
    ghost use Rattle.comemo.specs.Trail.{IsTrail};

    ghost Value = { V };

    ghost coded = { V.code };

    ghost view = { λ s. s.at };

    ghost invariant = { λ s. IsTrail V.Answer.eq (V.answers s.at) s.pairs.items };
}

impl<V: Track + Drop> Trail<V> {
    /// This was asked.
    pub(crate) fn new(at: V, pairs: Vec<(V::Call, V::Answer)>) -> Self
        requires { IsTrail V.Answer.eq (V.answers at) pairs.items }
        ensures { result ≡ at }
    {
        Trail { at, pairs }
    }

    /// How many calls were asked.
    pub(crate) fn len(&self) -> usize {
        self.pairs.len()
    }

    /// Forgets all but the first calls.
    pub(crate) fn truncate(&mut self, len: usize)
        ensures { self.new ≡ self.old }
    {
        self.pairs.truncate(len);
    }

    /// What was asked, with the answers.
    pub(crate) fn into_pairs(self) -> Vec<(V::Call, V::Answer)>
        ensures { IsTrail V.Answer.eq (V.answers self) result.items }
    {
        let Trail { at: _, pairs } = self;
        pairs
    }
}

impl<'a, T: Track, Q: Query<T>> Trail<Unknown<'a, T, Q>> {
    /// Nothing was asked yet of a value, or of outputs at it. Does not allocate.
    pub fn empty(alloc: Global, of: &'a T) -> Self
        ensures { result ≡ of.now }
    {
        Trail {
            at: Unknown::new(of),
            pairs: Vec::new(alloc),
        }
    }
}

/// A key whose output isn't known yet.
#[derive(Drop)]
pub(crate) struct Waiting<K> {
    pub(crate) key: K,
    // where the trail of its look-up begins
    pub(crate) start: usize,
}

/// The keys whose outputs wait for others: each needs the one after it.
#[derive(Drop)]
pub(crate) struct Queue<K> {
    waiting: Vec<Waiting<K>>,
}

impl<K: Eq + Drop> Queue<K> {
    /// No key waits. Does not allocate.
    pub(crate) fn new(alloc: Global) -> Self {
        Queue {
            waiting: Vec::new(alloc),
        }
    }

    /// Has a key wait. Fails if out of memory.
    ///
    /// Fails also if the key waits already, since its output then needs itself: a search at each power of two finds such
    /// a circle before the keys that wait are twice as many.
    pub(crate) fn add(&mut self, key: K, start: usize) -> Result<(), RoundError<K>>
        ensures { IfErr result (FailsBy (λ _ _. ⊥)) }
    {
        if self.waiting.len().is_power_of_two() && self.waits(&key) {
            return Err(RoundError::Circle(key));
        }
        self.again(Waiting { key, start })?;
        Ok(())
    }

    /// Whether a key waits.
    fn waits(&self, key: &K) -> bool {
        self.waiting.iter().any(|waiting| waiting.key == *key)
    }

    /// Has a key wait that waited before. Fails if out of memory.
    pub(crate) fn again(&mut self, waiting: Waiting<K>) -> Result<(), AllocError> {
        self.waiting.push(waiting)?;
        Ok(())
    }

    /// Takes out the key that waited last, if there is one.
    pub(crate) fn pop(&mut self) -> Option<Waiting<K>> {
        self.waiting.pop()
    }
}
