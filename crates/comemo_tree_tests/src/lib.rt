//! Tests of `comemo_base`, `comemo_plain` and `comemo_tree` from outside, through their public contracts alone: proved
//! callers, laws of their definitions, worked examples, hashes from another program, random steps compared with a plain
//! list, and the shapes of wide nodes and of a long chain. The rows of `bench rows` have more examples.
#![tactic(auto)]

#[cfg(test)]
mod callers;
#[cfg(test)]
mod comparison;
#[cfg(test)]
mod counted;
#[cfg(test)]
mod examples;
#[cfg(test)]
mod laws;
#[cfg(test)]
mod numbers;
#[cfg(test)]
mod pieces;
#[cfg(test)]
mod plain;
#[cfg(test)]
mod prehashed;
#[cfg(test)]
mod printed;
#[cfg(test)]
mod random;
#[cfg(test)]
mod reached;
#[cfg(test)]
mod refusals;
#[cfg(test)]
mod rows;
#[cfg(test)]
mod sequences;
#[cfg(test)]
mod sets;
#[cfg(test)]
mod steps;
#[cfg(test)]
mod tagged;
#[cfg(test)]
mod texts;
#[cfg(test)]
mod vectors;
#[cfg(test)]
mod wide;
