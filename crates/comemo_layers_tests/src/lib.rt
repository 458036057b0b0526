//! Tests of the crates over `comemo`: branches of runs, in threads and in turn, values that keep their answers, functions
//! that ask outputs of others, an index of keys by their calls, and the requests that the theorems are about.
#![tactic(auto)]

#[cfg(test)]
mod counted;
#[cfg(test)]
mod cutoff;
#[cfg(test)]
mod goes_on;
#[cfg(test)]
mod indexed;
#[cfg(test)]
mod kinds;
#[cfg(test)]
mod pairs;
#[cfg(test)]
mod rolls;
#[cfg(test)]
mod rounds;
#[cfg(test)]
mod schedules;
#[cfg(test)]
mod sessions;
#[cfg(test)]
mod turns;
#[cfg(test)]
mod waves;
