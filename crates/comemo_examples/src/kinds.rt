//! A tracked text with two kinds of questions, of which one has an argument, and a function for each.
ghost use Rattle.std.specs.Prelude.{◌≡◌, codes, cond, false, nat_lt, string_bytes};
ghost use Rattle.std.proofs.Common.{rules};
ghost use Rattle.comemo_examples.specs.Kinds.{text_in, length_in};
ghost use Rattle.comemo_examples.specs.declared.kinds.TextCall.TheVariants.{Itself, LengthPlus};

use comemo::{Answer, Call, Fault, Function, Recorder, Run, Track};
use std::alloc::{AllocError, Global};

/// What can be asked of a text.
#[derive(Clone, Copy, Drop, Debug, PartialEq, Eq, Hash)]
pub enum TextCall {
    /// The text itself.
    Itself,
    /// The sum of its length in bytes and a number, which wraps at 64 bits.
    LengthPlus(u64),
}

impl Call for TextCall {
    ghost is_write = { λ _. false };

    ghost touches = { λ _ _. false };

    ghost laws = { Prim.search rules };

    fn is_mutable(&self) -> bool {
        false
    }

    fn touches(&self, _read: &TextCall) -> bool {
        false
    }
}

/// What a text answers: one variant for each kind of question.
#[derive(Clone, Drop, Debug, PartialEq, Eq, PartialOrd, Ord)]
pub enum TextAnswer {
    /// The text itself: the answer to `TextCall::Itself`.
    Text(String),
    /// The sum of the length in bytes and the number: the answer to `TextCall::LengthPlus`.
    Length(u64),
}

impl Answer for TextAnswer {
    ghost clones = { λ x y h. Prim.search rules };
}

/// A text. The answer to `TextCall::Itself` is a copy, and fails if out of memory.
#[derive(Drop)]
pub struct Text {
    /// The text.
    pub text: String,
}

impl Track for Text {
    type Call = TextCall;

    type Answer = TextAnswer;

    ghost use Rattle.comemo_examples.specs.Kinds.{text_answer};
    ghost use Rattle.comemo_examples.specs.KindLaws.{answers_alike};

    ghost answers = { λ s call. text_answer s.text call };

    ghost alike = { λ s. answers_alike s.text };

    fn ask(&self, call: &TextCall) -> Result<TextAnswer, AllocError> {
        match call {
            TextCall::Itself => Ok(TextAnswer::Text(self.text.clone()?)),
            TextCall::LengthPlus(n) => {
                let length = self.text.len() as u64;
                Ok(TextAnswer::Length(length.wrapping_add(*n)))
            }
        }
    }
}

/// A text itself. Asks for the text, so another text is another answer.
pub struct Selfie;

impl Function for Selfie {
    type Key = ();

    type Call = TextCall;

    type Answer = TextAnswer;

    type Out = String;

    ghost means = { λ _ m out. string_bytes out ≡ text_in (m Itself) };

    ghost laws = { Prim.search rules };
}

impl Run<Text, ()> for Selfie {
    fn run(_: &(), text: &mut Recorder<'_, Text>, _: &mut ()) -> Result<String, Fault> {
        // The answer to this question is a text, so the other branch does not occur.
        let TextAnswer::Text(itself) = text.ask(TextCall::Itself)? else {
            unreachable!();
        };
        Ok(itself)
    }
}

/// `Long` if a text's length in bytes plus 5 exceeds 10, otherwise `Short`. Asks for that sum alone, and needs an
/// allocator.
pub struct LongOrShort;

impl Function for LongOrShort {
    type Key = ();

    type Call = TextCall;

    type Answer = TextAnswer;

    type Out = String;

    ghost means = { λ _ m out. string_bytes out
        ≡ cond (nat_lt 10 (length_in (m (LengthPlus 5)))) (codes "Long") (codes "Short") };

    ghost laws = { Prim.search rules };
}

impl Run<Text, Global> for LongOrShort {
    fn run(_: &(), text: &mut Recorder<'_, Text>, alloc: &mut Global) -> Result<String, Fault> {
        // The answer to this question is a length, so the other branch does not occur.
        let TextAnswer::Length(length) = text.ask(TextCall::LengthPlus(5))? else {
            unreachable!();
        };
        let word = if length > 10 { "Long" } else { "Short" };
        Ok(String::from_str(*alloc, word)?)
    }
}
