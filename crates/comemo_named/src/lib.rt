//! Functions that name the calls that they ask, in a crate of their own, since a wrong body of one is tried at each gate.
#![tactic(auto)]

pub mod named;
