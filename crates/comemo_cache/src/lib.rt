//! Caches: what is stored of memoized functions, and the steps of a call.
//!
//! A `CacheData` holds entries: an output under a key, with the calls of its run and their answers. A call looks for an
//! entry that agrees with its tracked arguments, touches it on a hit, and otherwise stores its run. An eviction drops
//! what wasn't hit for long. Threads share a `Cache`. `Hold` gives a call access to either. The crate `comemo` has the
//! calls, and passes on all of this one.
#![tactic(auto)]

pub mod cache;
pub mod contents;
pub mod eviction;
pub mod evictors;
pub mod explain;
pub mod hold;
pub mod reached;
pub mod shared;
pub mod steps;

pub use cache::{CacheData, Found, Function, Meant, Peeked};
pub use contents::Contents;
pub use eviction::{Caches, Evict, Evictor};
pub use evictors::register_evictor;
pub use explain::Explanation;
pub use hold::{Hold, Reads};
pub use shared::{Cache, Shared};
pub use steps::{Step, StepReply};
