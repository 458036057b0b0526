//! A spreadsheet as a tracked value, and memoized functions of it. Numbers wrap at 64 bits.
#![tactic(auto)]

pub mod fibonacci;
pub mod plain;
pub mod range;
pub mod row;
pub mod sheet;
pub mod value;
