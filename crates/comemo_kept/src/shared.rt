//! A tracked value that keeps the answers it gave, for threads that share it.
ghost use Rattle.std.specs.Prelude.{◌≡◌, IsTrue, IfSome};
ghost use Rattle.comemo_kept.specs.Saying.{SaysJust};

use crate::answers::{Answers, Says};
use comemo::{Call, Track};
use std::alloc::{AllocError, Global};
use std::marker::Model;
use std::sync::{RwLock, Wait};

/// As `Kept`, for threads that share it. It holds the right to wait for the lock of what is kept.
///
/// The value is asked under no lock of this type. So threads that ask a call at once, before its answer is kept, each
/// ask the value; one answer is kept.
#[derive(Drop)]
pub struct KeptShared<'a, T: Track, R: Wait, B: Says<T::Call, T::Answer>> {
    value: &'a T,
    rt: &'a R,
    answers: RwLock<Answers<T::Call, T::Answer, B>>,
}

impl<'a, T: Track, R: Wait, B: Says<T::Call, T::Answer>> Model for KeptShared<'a, T, R, B> {
    ghost use Rattle.comemo_kept.specs.Saying.{SaysJust};

    ghost Value = { T };

    ghost coded = { T.code };

    ghost view = { λ s. s.value.now };

    ghost invariant = { λ s. SaysJust B.says T.Answer.eq (T.answers s.value.now) };
}

impl<'a, T: Track, R: Wait, B: Says<T::Call, T::Answer>> KeptShared<'a, T, R, B> {
    /// A value that has kept no answer yet. Does not allocate.
    pub fn new(alloc: Global, rt: &'a R, value: &'a T) -> Self
        requires { SaysJust B.says T.Answer.eq (T.answers value.now) }
        ensures { result ≡ value.now }
    {
        KeptShared {
            value,
            rt,
            answers: RwLock::new(Answers::new(alloc)),
        }
    }

    /// The kept answer to a call, if there is one.
    fn known(&self, call: &T::Call) -> Option<T::Answer>
        ensures { IfSome result (λ answer. IsTrue (B.says call.now answer)) }
    {
        let answers = self.answers.read(self.rt);
        answers.known(call)
    }
}

/// The kept answer, or else the value's, which is then kept; it fails if that does.
impl<'a, T: Track, R: Wait, B: Says<T::Call, T::Answer>> Track for KeptShared<'a, T, R, B> {
    type Call = T::Call;

    type Answer = T::Answer;

    ghost answers = { λ s. T.answers s };

    ghost alike = { λ s. T.alike s };

    fn ask(&self, call: &T::Call) -> Result<T::Answer, AllocError> {
        if call.is_mutable() {
            return self.value.ask(call);
        }
        if let Some(answer) = self.known(call) {
            return Ok(answer);
        }
        let answer = self.value.ask(call)?;
        let mut answers = self.answers.write(self.rt);
        // If it can't be kept, the value is asked again next time.
        let _ = answers.keep(call, &answer);
        Ok(answer)
    }
}
