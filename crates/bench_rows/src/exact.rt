//! Rows which show that keys and answers are stored themselves, not by their hashes.

use crate::calls::comes_to;
use calc_core::commands::{Answer, Command};
use calc_core::sessions::session;
use comemo::{CacheData, How};
use comemo_examples::numbers::{DoubleFlat, Flat};
use std::alloc::{AllocError, Global};

/// Whether keys with one hash are kept apart.
pub(crate) fn keys_of_one_hash_are_kept_apart(alloc: Global) -> bool {
    let mut cache: CacheData<DoubleFlat> = CacheData::new(alloc);
    let two = comes_to(alloc, &mut cache, Flat(2), &(), 4, How::Stored);
    two && comes_to(alloc, &mut cache, Flat(3), &(), 6, How::Stored)
}

/// The commands of these lines, up to the first that has none.
fn commands(alloc: Global, lines: &[&str]) -> Result<Vec<Command>, AllocError> {
    let mut commands = Vec::new(alloc);
    for line in lines {
        let Some(command) = Command::parse(alloc, *line)? else {
            return Ok(commands);
        };
        commands.push(command)?;
    }
    Ok(commands)
}

/// Whether a new session answers these lines like this.
fn answers(alloc: Global, lines: &[&str], wanted: &[Answer]) -> bool {
    let Ok(commands) = commands(alloc, lines) else {
        return false;
    };
    match session(alloc, commands.as_slice()) {
        Ok(answered) => answered.as_slice() == wanted,
        Err(_) => false,
    }
}

/// The answer for a script with this number whose run is in the cache afterwards.
fn kept(hit: bool, number: i32) -> Answer {
    Answer::Value {
        hit,
        kept: true,
        value: Ok(number),
    }
}

/// Whether a value reported as `kept` is found again while the files that it read are unchanged.
pub(crate) fn what_is_said_to_be_kept_is_found(alloc: Global) -> bool {
    let lines: &[&str] = &[
        "write a 1 + eval b",
        "write b 2",
        "eval eval a",
        "write c 9",
        "eval eval a",
        "write b 5",
        "eval eval a",
        "write b 2",
        "eval eval a",
        "evict 0",
        "eval eval a",
    ];
    let wanted: &[Answer] = &[
        Answer::Written,
        Answer::Written,
        kept(false, 3),
        Answer::Written,
        kept(true, 3),
        Answer::Written,
        kept(false, 6),
        Answer::Written,
        kept(true, 3),
        Answer::Evicted,
        kept(false, 3),
    ];
    answers(alloc, lines, wanted)
}
