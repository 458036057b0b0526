//! The command of a line.
ghost use Rattle.std.specs.Prelude.{◌≡◌, ℕ, IfOk, MatchOption};
ghost use Rattle.calc_core.specs.Requests.{IsNumber, IsLineOf, IsNoCommand, request_of, asked_by};

use std::alloc::{AllocError, Global};

/// A command to a session, with its own texts. A clone copies them.
#[derive(Clone, Drop, Debug, PartialEq, Eq)]
pub enum Command {
    /// Writes a text to the file at a path: the path, then the text.
    Write(String, String),
    /// Asks for a script's value.
    Eval(String),
    /// Asks for the size of the file at a path.
    Size(String),
    /// Drops the cached values and sizes whose age is at least the bound; the others' ages grow by one.
    Evict(usize),
}

/// A command whose texts are borrowed from a line or a `Command`.
#[derive(Clone, Copy, Debug, PartialEq, Eq)]
pub enum CommandRef<'a> {
    /// Writes a text to the file at a path: the path, then the text.
    Write(&'a str, &'a str),
    /// Asks for a script's value.
    Eval(&'a str),
    /// Asks for the size of the file at a path.
    Size(&'a str),
    /// Drops the cached values and sizes whose age is at least the bound; the others' ages grow by one.
    Evict(usize),
}

/// Parses a number of digits only, if it fits in a `usize`.
fn number_of(digits: &str) -> Option<usize>
    ensures { MatchOption result ((n : ℕ) → ¬ IsNumber digits.now n) (IsNumber digits.now) }
{
    if digits.starts_with('+') {
        return None;
    }
    digits.parse().ok()
}

impl<'a> CommandRef<'a> {
    /// Parses a line, without its line end.
    ///
    /// PATH of `write PATH TEXT` is not empty, and ends at the next blank; TEXT may be empty. `eval SCRIPT` and `size
    /// PATH` take all after the first blank. N of `evict N` is digits only, and may have leading zeros.
    pub fn parse(line: &'a str) -> Option<Self>
        ensures { MatchOption result (IsNoCommand line.now)
            (λ command. IsLineOf line.now (asked_by command)) }
    {
        if let Some(rest) = line.strip_prefix("write ") {
            let (path, text) = rest.split_once(' ').unwrap_or((rest, ""));
            if path.is_empty() {
                return None;
            }
            return Some(CommandRef::Write(path, text));
        }
        if let Some(script) = line.strip_prefix("eval ") {
            return Some(CommandRef::Eval(script));
        }
        if let Some(digits) = line.strip_prefix("evict ") {
            let max_age = number_of(digits)?;
            return Some(CommandRef::Evict(max_age));
        }
        let path = line.strip_prefix("size ")?;
        Some(CommandRef::Size(path))
    }

    /// The command with copies of its texts.
    pub fn to_owned(self, alloc: Global) -> Result<Command, AllocError>
        ensures { IfOk result (λ command. request_of command ≡ asked_by self.entry) }
    {
        match self {
            CommandRef::Write(path, text) => {
                let path = String::from_str(alloc, path)?;
                let text = String::from_str(alloc, text)?;
                Ok(Command::Write(path, text))
            }
            CommandRef::Eval(script) => {
                let script = String::from_str(alloc, script)?;
                Ok(Command::Eval(script))
            }
            CommandRef::Size(path) => {
                let path = String::from_str(alloc, path)?;
                Ok(Command::Size(path))
            }
            CommandRef::Evict(max_age) => Ok(Command::Evict(max_age)),
        }
    }
}

impl Command {
    /// As `CommandRef::parse`, with copies of the texts.
    pub fn parse(alloc: Global, line: &str) -> Result<Option<Command>, AllocError>
        ensures { IfOk result (λ found. MatchOption found (IsNoCommand line.now)
            (λ command. IsLineOf line.now (request_of command))) }
    {
        match CommandRef::parse(line) {
            Some(command) => {
                let own = command.to_owned(alloc)?;
                Ok(Some(own))
            }
            None => Ok(None),
        }
    }

    /// The command with its texts borrowed.
    pub fn as_ref(&self) -> CommandRef<'_>
        ensures { asked_by result ≡ request_of self.now }
    {
        match self {
            Command::Write(path, text) => CommandRef::Write(path.as_str(), text.as_str()),
            Command::Eval(script) => CommandRef::Eval(script.as_str()),
            Command::Size(path) => CommandRef::Size(path.as_str()),
            Command::Evict(max_age) => CommandRef::Evict(*max_age),
        }
    }
}
