//! Tests of the program `calc` and of the crates that it is made of.
#![tactic(auto)]

#[cfg(test)]
mod commands;
#[cfg(test)]
mod evaluation;
#[cfg(test)]
mod examples;
#[cfg(test)]
mod files;
#[cfg(test)]
mod hostile;
#[cfg(test)]
mod lines;
#[cfg(test)]
mod scripts;
#[cfg(test)]
mod starts;
#[cfg(test)]
mod texts;
