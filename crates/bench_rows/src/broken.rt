//! Why a row didn't reach its end.

use std::alloc::AllocError;

/// A row ran out of memory.
///
/// A row of `run_scarce_rows` goes on after that, and returns this if all else was right. Any other row has failed.
#[derive(Clone, Copy, PartialEq, Eq)]
pub struct Broken;

impl From<AllocError> for Broken {
    fn from(_error: AllocError) -> Broken {
        Broken
    }
}
