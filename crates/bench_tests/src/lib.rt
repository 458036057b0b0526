//! Tests of the program of the rows, and of the comparison of a cache with other machines.
#![tactic(auto)]

#[cfg(test)]
mod dead;
#[cfg(test)]
mod faults;
#[cfg(test)]
mod overtaken;
#[cfg(test)]
mod program;
#[cfg(test)]
mod shares;
#[cfg(test)]
mod threads;
