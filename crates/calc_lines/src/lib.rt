//! The loop of a program that answers lines: it reads a line, asks the session, writes the answer, and returns how it
//! ended. Proved once, for every session, reader and writer.
//!
//! A line ends at a line feed, and doesn't include a carriage return right before it. Text after the last line feed is
//! a line too, with any carriage return in it. Nothing here flushes.
//!
//! If a reader's `remaining` is `None` the contracts don't say which lines were read; if a writer's `contents` is
//! `None`, not what was written.
//!
//! `Echo` answers each line with itself:
//!
//! ```rust
//! use calc_lines::{Session, run};
//! use std::alloc::{AllocError, Global};
//!
//! #[derive(Drop)]
//! struct Echo { alloc: Global }
//!
//! impl Session for Echo {
//!     ghost answers = { λ _ _ _ _. Unit {0} };
//!
//!     ghost refuses = { λ _ _ _. Unit {0} };
//!
//!     fn answer(&mut self, line: &str) -> Result<String, AllocError> {
//!         format!(in self.alloc; "{line}\n")
//!     }
//! }
//!
//! let mut printed: Vec<u8> = Vec::new(alloc);
//! run(alloc, &mut "a\n\nb".as_bytes(), &mut printed, &mut Echo { alloc })?;
//! assert_eq!(rt; printed.as_slice(), b"a\nb\n".as_slice());
//! ```
#![tactic(auto)]

mod fault;
mod input;
mod output;
mod program;
mod rounds;
mod session;

pub use fault::RunFault;
pub use output::put_message;
pub use program::start;
pub use rounds::run;
pub use session::Session;
