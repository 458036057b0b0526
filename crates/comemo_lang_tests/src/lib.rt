//! Tests of the small language: which functions run again after an edit.
#![tactic(auto)]

#[cfg(test)]
mod edits;
