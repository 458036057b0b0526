//! The front end of a small language: what a module declares, what it exports, and what is wrong with it.
//!
//! Each of the three is a memoized function, and asks outputs of the others. So an edit of a module checks it again, and
//! its importers only if its exports change.
#![tactic(auto)]

pub mod check;
pub mod declaration;
pub mod diagnostic;
pub mod frontend;
pub mod functions;
pub mod names;
pub mod parse;
pub mod project;
pub mod question;
