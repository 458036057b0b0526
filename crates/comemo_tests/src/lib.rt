//! Memoized functions as a caller writes them, some with contracts that are proved from those of `comemo` alone, and
//! tests of `comemo` from outside.
#![tactic(auto)]

#[cfg(test)]
mod again;
#[cfg(test)]
mod closures;
#[cfg(test)]
mod contents;
#[cfg(test)]
mod counted;
#[cfg(test)]
mod examples;
#[cfg(test)]
mod faults;
#[cfg(test)]
mod handed_on;
#[cfg(test)]
mod inputs;
#[cfg(test)]
mod joined;
#[cfg(test)]
mod notes;
#[cfg(test)]
mod reached;
#[cfg(test)]
mod runs;
#[cfg(test)]
mod scarce;
#[cfg(test)]
mod touching;
#[cfg(test)]
mod tracked;
#[cfg(test)]
mod views;
#[cfg(test)]
mod writing;
