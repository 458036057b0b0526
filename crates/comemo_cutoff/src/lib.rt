//! A function that asks its own outputs, and runs again only if one of these or a number that it asked changes.
#![tactic(auto)]

pub mod cells;
pub mod rounds;

pub use cells::{Cells, Get};
