//! The commands of the program `calc`: what a line asks for, and what an answer prints.
//!
//! ```rust
//! use calc_core::commands::{Answer, Command};
//!
//! let path = String::from_str(alloc, "a")?;
//! let text = String::from_str(alloc, "1 + 2")?;
//! let found = Command::parse(alloc, "write a 1 + 2")?;
//! assert_eq!(rt; found, Some(Command::Write(path, text)));
//! assert_eq!(rt; Command::parse(alloc, "help"), Ok(None));
//!
//! let answer = Answer::Size { hit: true, bytes: 5 };
//! let printed = answer.text(alloc)?;
//! assert_eq!(rt; printed.as_str(), "hit 5\n");
//! ```

pub mod answer;
pub mod command;

pub use answer::Answer;
pub use command::{Command, CommandRef};
