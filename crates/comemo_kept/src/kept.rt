//! A tracked value that keeps the answers it gave, for one thread.
ghost use Rattle.std.specs.Prelude.{◌≡◌, IsTrue, IfSome};
ghost use Rattle.comemo_kept.specs.Saying.{SaysJust};

use crate::answers::{Answers, Says};
use comemo::{Call, Track};
use std::alloc::{AllocError, Global};
use std::cell::RefCell;
use std::marker::Model;

/// A tracked value that keeps the answers it gave. The value behind it is asked each call once, while there is memory
/// for what is kept. Contracts see that value.
///
/// `B` names the answers, since no clause knows what a cell holds. `with_kept` needs no such name.
#[derive(Drop)]
pub struct Kept<'a, T: Track, B: Says<T::Call, T::Answer>> {
    value: &'a T,
    answers: RefCell<Answers<T::Call, T::Answer, B>>,
}

impl<'a, T: Track, B: Says<T::Call, T::Answer>> Model for Kept<'a, T, B> {
    ghost use Rattle.comemo_kept.specs.Saying.{SaysJust};

    ghost Value = { T };

    ghost coded = { T.code };

    ghost view = { λ s. s.value.now };

    ghost invariant = { λ s. SaysJust B.says T.Answer.eq (T.answers s.value.now) };
}

impl<'a, T: Track, B: Says<T::Call, T::Answer>> Kept<'a, T, B> {
    /// A value that has kept no answer yet. Does not allocate.
    pub fn new(alloc: Global, value: &'a T) -> Self
        requires { SaysJust B.says T.Answer.eq (T.answers value.now) }
        ensures { result ≡ value.now }
    {
        Kept {
            value,
            answers: RefCell::new(Answers::new(alloc)),
        }
    }

    /// The kept answer to a call, if there is one.
    fn known(&self, call: &T::Call) -> Option<T::Answer>
        ensures { IfSome result (λ answer. IsTrue (B.says call.now answer)) }
    {
        match self.answers.try_borrow() {
            Ok(answers) => answers.known(call),
            Err(_) => None,
        }
    }
}

/// The kept answer, or else the value's, which is then kept; it fails if that does.
impl<'a, T: Track, B: Says<T::Call, T::Answer>> Track for Kept<'a, T, B> {
    type Call = T::Call;

    type Answer = T::Answer;

    ghost answers = { λ s. T.answers s };

    ghost alike = { λ s. T.alike s };

    fn ask(&self, call: &T::Call) -> Result<T::Answer, AllocError> {
        if call.is_mutable() {
            return self.value.ask(call);
        }
        if let Some(answer) = self.known(call) {
            return Ok(answer);
        }
        let answer = self.value.ask(call)?;
        if let Ok(mut answers) = self.answers.try_borrow_mut() {
            // If it can't be kept, the value is asked again next time.
            let _ = answers.keep(call, &answer);
        }
        Ok(answer)
    }
}
