//! Tracked values that keep the answers they gave, so that the value behind them is asked each call once.
//!
//! `with_kept` does a `Job` on such a value. `Kept` and `KeptShared` are the values themselves, for one thread and for
//! several.
#![tactic(auto)]

mod answers;
mod job;
mod kept;
mod shared;

pub use answers::Says;
pub use job::{Job, with_kept};
pub use kept::Kept;
pub use shared::KeptShared;
