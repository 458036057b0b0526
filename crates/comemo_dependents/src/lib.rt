//! Which keys rest on which calls: an index by which the owner of many results finds those that a change may reach.
//!
//! A cache knows of the results that it keeps what they rest on (`CacheData::reached` of `comemo_cache`). An index knows
//! it of all results that their owner notes: also of those that no cache keeps, and of those in a cache that threads
//! share.
#![tactic(auto)]

mod dependents;
mod lists;

pub use dependents::Dependents;
