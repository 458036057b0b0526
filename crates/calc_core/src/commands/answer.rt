//! The answer to a command, and how it is printed.
ghost use Rattle.std.specs.Prelude.{◌≡◌, ◌≢◌, ◌++◌, ◌∷◌, [], IfOk, OnErr, string_bytes};
ghost use Rattle.calc_core.specs.Printed.{printed, found as found_text, value_text as text_of_value, fault_text as text_of_fault};

use crate::scripts::CalcFault;
use std::alloc::{AllocError, Global};

/// A session's answer to a command.
#[derive(Clone, Copy, Debug, PartialEq, Eq)]
pub enum Answer {
    /// The text was written.
    Written,
    /// The eviction was done.
    Evicted,
    /// The script's value, from the cache (`hit`) or a run. `kept` says whether the run is in the cache afterwards.
    Value {
        /// Whether the value comes from the cache.
        hit: bool,
        /// Whether the run is in the cache afterwards, as after every hit. Not printed.
        kept: bool,
        /// The script's number, or why it has none.
        value: Result<i32, CalcFault>,
    },
    /// The size of a file, from the cache (`hit`) or a run.
    Size {
        /// Whether the size comes from the cache.
        hit: bool,
        /// The length of the file's text in bytes.
        bytes: u64,
    },
    /// The script goes deeper than the session's limit, or never ends.
    TooDeep,
    /// Out of memory; no file has changed.
    Memory,
}

/// The word before a value: whether it comes from the cache.
fn found(hit: bool) -> &'static str
    ensures { result.now ≡ found_text hit }
{
    if hit { "hit " } else { "miss " }
}

impl Answer {
    /// The line that the answer prints, at most 26 bytes; empty for `Written` and `Evicted`, which do not allocate.
    pub fn text(&self, alloc: Global) -> Result<String, AllocError>
        ensures ok { IfOk result (λ text. string_bytes text ≡ printed self.now) }
        ensures err { OnErr result ((self.now ≢ Answer.Written) × (self.now ≢ Answer.Evicted)) }
    {
        match *self {
            Answer::Written | Answer::Evicted => Ok(String::new(alloc)),
            Answer::Value { hit, value, .. } => value_text(alloc, found(hit), value),
            Answer::Size { hit, bytes } => {
                let found = found(hit);
                format!(in alloc; "{found}{bytes}\n")
            }
            Answer::TooDeep => String::from_str(alloc, "too deep\n"),
            Answer::Memory => String::from_str(alloc, "out of memory\n"),
        }
    }
}

/// The text for a script without a number.
fn fault_text(fault: CalcFault) -> &'static str
    ensures { result.now ≡ text_of_fault fault }
{
    match fault {
        CalcFault::NotANumber => "not a number",
        CalcFault::Overflow => "overflow",
    }
}

/// The bytes of the longest line of a value: `miss not a number` and a line feed.
const VALUE_ROOM: usize = 18;

/// The line of a script's value.
fn value_text(
    alloc: Global,
    found: &str,
    value: Result<i32, CalcFault>,
) -> Result<String, AllocError>
    ensures { IfOk result (λ text. string_bytes text
        ≡ found.now ++ text_of_value value ++ 10 ∷ []) }
{
    let mut text = String::with_capacity(alloc, VALUE_ROOM)?;
    match value {
        Ok(number) => write!(text, "{found}{number}\n")?,
        Err(fault) => {
            let fault = fault_text(fault);
            write!(text, "{found}{fault}\n")?;
        }
    }
    Ok(text)
}
