//! Why an insertion into a tree stored nothing.
use std::alloc::{AllocError, AllocFailed};

/// Why an insertion stored nothing. The tree is unchanged after each of these.
#[derive(Clone, Copy, Debug, PartialEq, Eq)]
pub enum InsertError {
    /// A stored path under the key has all its pairs in the sequence.
    AlreadyExists,
    /// A stored path under the key has a prefix whose pairs are all in the sequence, and then a call that the sequence
    /// lacks: the function that was run isn't determined by its key and answers.
    MissingCall,
    /// Out of memory, or the path would be longer than a `usize` can hold.
    Memory,
}

/// For `?` on a failed allocation.
impl From<AllocError> for InsertError {
    ghost use Rattle.std.specs.Prelude.{◌≡◌};
    ghost use Rattle.comemo_base.specs.declared.insertion.InsertError.TheVariants.{Memory};

    ghost from_gives = { λ _ e. e ≡ Memory };

    fn from(_: AllocError) -> Self {
        InsertError::Memory
    }
}

/// For `?` on a value that found no memory. The value is dropped.
impl<T: Drop> From<AllocFailed<T>> for InsertError {
    ghost use Rattle.std.specs.Prelude.{◌≡◌};
    ghost use Rattle.comemo_base.specs.declared.insertion.InsertError.TheVariants.{Memory};

    ghost from_gives = { λ _ e. e ≡ Memory };

    fn from(_refused: AllocFailed<T>) -> Self {
        InsertError::Memory
    }
}
