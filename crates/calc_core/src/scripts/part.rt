//! The parts of a script. Nothing here allocates.
ghost use Rattle.std.specs.Prelude.{◌≡◌, ℕ, List, [], ◌∷◌, MatchOption};
ghost use Rattle.std.specs.Str.{trim};
ghost use Rattle.calc_core.specs.Kinds.{IsPart};
ghost use Rattle.calc_core.specs.Parts.{parts, left};

use std::marker::Model;

/// A part of a script, without white space at its ends. It borrows the script.
#[derive(Clone, Copy, Debug, PartialEq, Eq)]
pub enum Part<'a> {
    /// The value of the script in the file at this path: all after `eval` and one blank.
    Eval(&'a str),
    /// A 32-bit number, as Rust parses one.
    Number(i32),
    /// Neither, such as an empty part or a number that doesn't fit in 32 bits.
    Bad,
}

impl<'a> Part<'a> {
    /// Parses a text as a part.
    fn of(text: &'a str) -> Self
        ensures { IsPart (trim text.now) result }
    {
        let text = text.trim();
        if let Some(path) = text.strip_prefix("eval ") {
            return Part::Eval(path);
        }
        match text.parse::<i32>() {
            Ok(number) => Part::Number(number),
            Err(_) => Part::Bad,
        }
    }
}

/// The remaining parts of a script, in order. Contracts see the list of their bytes.
#[derive(Drop)]
pub struct Parts<'a> {
    rest: Option<&'a str>,
}

impl<'a> Model for Parts<'a> {
    ghost Value = { List (List ℕ) };

    ghost view = { λ s. left s.rest };
}

impl<'a> Parts<'a> {
    /// Cuts a script at each `+`. An empty script has one part, which is empty.
    pub fn new(script: &'a str) -> Self
        ensures { result ≡ parts script.now }
    {
        Parts { rest: Some(script) }
    }

    /// The next part, without white space at its ends. What is no part of a script is `Part::Bad`.
    pub fn next(&mut self) -> Option<Part<'a>>
        ensures { MatchOption result
            ((self.old ≡ []) × (self.new ≡ []))
            (λ part. (bytes : List ℕ) × (self.old ≡ bytes ∷ self.new) × IsPart bytes part) }
    {
        let text = self.rest?;
        match text.split_once('+') {
            Some((part, rest)) => {
                self.rest = Some(rest);
                Some(Part::of(part))
            }
            None => {
                self.rest = None;
                Some(Part::of(text))
            }
        }
    }
}
