//! Threads in a run and in a round. Whichever ends first, the result is the same.
//!
//! A run can have branches: a list of items, or two closures, each done by a branch with a recorder of its own, in threads or
//! in turn. The recordings are joined in the order of the items.
//!
//! A round can have its turns taken by threads, in waves: a wave is the keys that wait for none.
#![tactic(auto)]

mod ended;
mod join;
mod lanes;
mod spread;
mod takes;
mod waits;
mod waves;

pub use comemo::Branch;
pub use join::join_in_threads;
pub use spread::{map_in_threads, map_in_turn};
pub use waves::outputs_in_threads;
