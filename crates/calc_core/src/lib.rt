//! What the program `calc` does, without its streams and its loop over lines.
//!
//! | Module | Has |
//! |---|---|
//! | `scripts` | what scripts mean |
//! | `commands` | what lines ask for and answers print |
//! | `files` | files in memory, and the memoized size of one |
//! | `evaluation` | the memoized value of a script |
//! | `sessions` | a session, and the program |
#![tactic(auto)]

pub mod commands;
pub mod evaluation;
pub mod files;
pub mod scripts;
pub mod sessions;
