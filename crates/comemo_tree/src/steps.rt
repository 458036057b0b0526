//! Lists of steps on a tree.
ghost use Rattle.std.specs.Prelude.{Bool};

use comemo_base::CallSequence;
use std::hash::Hash;

/// Which values of a tree stay, and what they become: the test of a `Retain` step.
pub trait Keep<T> {
    /// A value, whether it stays, and what it becomes.
    ghost keeps: { Self → T → Bool → T → Type 0 };

    /// Whether a value stays. It may change the value.
    fn keep(&self, value: &mut T) -> bool
        ensures { keeps self.now value.old result value.new };
}

/// A step on a tree.
#[derive(Drop)]
pub enum TreeOp<K, C: Eq + Hash, R, T, P> {
    /// Stores a value under a key and a sequence, as `Settled::insert`.
    Insert(K, CallSequence<C, R>, T),
    /// Drops the entries for which the test returns false, as `Settled::retain`.
    Retain(P),
}

/// The result of a step.
#[derive(Clone, Copy, Debug, PartialEq, Eq)]
pub enum TreeReply {
    /// The value was stored.
    Inserted,
    /// The pairs of the sequence are stored under the key already, in any order. Nothing changed.
    AlreadyExists,
    /// Out of memory. Nothing changed.
    Memory,
    /// The test was applied to each value.
    Retained,
}
