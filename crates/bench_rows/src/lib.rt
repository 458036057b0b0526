//! Worked rows of the library and of the program `calc`, by their numbers, workers that share caches, and the program
//! `bench` without its streams.
//!
//! A row makes calls in turn, and knows the result of each. `run_rows` has the table of the rows.
//!
//! ```rust
//! use bench_rows::{Outcome, start};
//!
//! let words = vec![in alloc; String::from_str(alloc, "rows")?]?;
//! let mut printed: Vec<u8> = Vec::new(alloc);
//! let mut errors: Vec<u8> = Vec::new(alloc);
//! let status = start(&rt, alloc, words.as_slice(), &mut printed, &mut errors);
//! assert_eq!(rt; (status, printed.as_slice()), (0, b"rows ok\n".as_slice()));
//!
//! let mut rows = Outcome::new();
//! rows.row("1", Ok(true));
//! rows.row("2", Ok(false));
//! let mut printed: Vec<u8> = Vec::new(alloc);
//! assert_eq!(rt; rows.report(&mut printed), 1);
//! assert_eq!(rt; printed.as_slice(), b"row 2 failed\n".as_slice());
//! ```
#![tactic(auto)]

mod ages;
mod broken;
mod calls;
mod chains;
mod comparison;
mod exact;
mod hashes;
mod late;
mod limits;
mod list;
mod numbers;
mod orders;
mod outcome;
mod place;
mod places;
mod program;
mod random;
mod recordings;
mod refusals;
mod sessions;
mod settled;
mod sharing;
mod steps;
mod streams;
mod table;
mod tally;
mod texts;
mod trees;
mod views;
pub mod workers;
mod writes;

pub use broken::Broken;
pub use comparison::{Machine, compare, fuzz};
pub use list::PlainList;
pub use outcome::Outcome;
pub use program::start;
pub use steps::{Anything, Numbered};
pub use table::{run_rows, run_scarce_rows};
pub use tally::Tally;
