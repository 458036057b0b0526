//! Workers that share caches, with gates in their runs.

mod branches;
mod crowd;
mod doubling;
mod empties;
mod gate;
mod nulls;
mod orders;

pub use branches::branches_are_absorbed_in_order;
pub use crowd::{threads, workers_beside_evictions};
pub use doubling::{doubled, evictions_reach_all_keys, two_runs_of_one_key};
pub use empties::two_runs_that_ask_other_questions;
pub use gate::{Gate, Meeting, Open, TURNS};
pub use nulls::{Null, evictions_reach_a_cache};
pub use orders::two_runs_that_ask_in_turned_order;
