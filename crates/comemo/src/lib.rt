//! Constrained memoization: the output of a memoized function is stored with what its run asked of its tracked
//! arguments, and is returned again while they would answer the same.
//!
//! `Warmth` is a function of a `Town`. Its run asks only for the degrees. The second call is a hit, although more people
//! live there now, and the third is not:
//!
//! ```rust
//! use comemo::{CacheData, How, memoized};
//! use comemo_examples::Town;
//! use std::test::Fail;
//!
//! fn a_town_that_grows_is_as_warm(rt: HostRuntime) -> Result<(), Fail> {
//!     let alloc = rt.alloc();
//!     let mut cache: CacheData<Warmth> = CacheData::new(alloc);
//!     let calls = [
//!         (900, 21, How::Stored),
//!         (1000, 21, How::Hit),
//!         (1000, 4, How::Stored),
//!     ];
//!     for (people, degrees, how) in calls {
//!         let town = Town { people, degrees };
//!         let reply = memoized(alloc, &mut cache, (), &town)?;
//!         assert_eq!(rt; reply.output, degrees);
//!         assert_eq!(rt; reply.how, how);
//!     }
//!     Ok(())
//! }
//! ```
//!
//! `Town` is in the crate `comemo_examples`. These lines run as a test in the crate `comemo_tests`, in
//! `src/examples.rt`, where `Warmth` is too. `docs/GUIDE.md` explains how to write such a function.
#![tactic(auto)]

mod branch;
mod closure;
mod explanation;
mod function;
mod function_mut;
pub mod internal;
mod known;
mod parts;
mod parts_mut;
mod pending;
mod reasons;
mod recursive;
mod recursive_mut;
mod resumed;
mod round;
mod turn;
mod waiting;

pub use branch::Branch;
pub use closure::memoize;
pub use comemo_base::{Prehashed, hash};
pub use comemo_cache::{Cache, CacheData, Caches, Contents, Explanation, Function, Hold};
pub use comemo_track::{
    Answer, Both, BothMut, Call, Constraint, First, LendPart, MultiAnswer, MultiCall, Part,
    ReadAndWrite, Second, Sink, Top, Track, Tracked, View,
};
pub use explanation::explain;
pub use function::{Recorder, Run, memoized, memoized_with};
pub use function_mut::{RecorderMut, RunMut, memoized_mut, memoized_mut_with};
pub use known::{At, Known, Outputs, Query};
pub use pending::{Begun, Fault, How, Reply, begin};
pub use reasons::Reasons;
pub use round::{Provider, Round, RoundError};
pub use turn::Turn;
