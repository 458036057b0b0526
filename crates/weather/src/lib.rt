//! The weather, as a tracked value, and a memoized function of it.
#![tactic(auto)]

pub mod coat;
#[cfg(test)]
mod coats;
pub mod weather;
