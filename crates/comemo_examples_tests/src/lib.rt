//! Tests of the examples: values, and functions of them.
#![tactic(auto)]

#[cfg(test)]
mod cells;
#[cfg(test)]
mod examples;
#[cfg(test)]
mod explained;
#[cfg(test)]
mod guide;
#[cfg(test)]
mod named;
#[cfg(test)]
mod numbers;
#[cfg(test)]
mod recursion;
#[cfg(test)]
mod writing;
