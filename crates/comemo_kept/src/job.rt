//! What is done on a value that keeps its answers, without their name in types.
ghost use Rattle.comemo_kept.specs.Saying.{SaysJust};

use crate::answers::Says;
use crate::kept::Kept;
use comemo::{Answer, Call, Track};
use std::alloc::Global;
use std::marker::Brand;

/// What is done on a tracked value, whatever its type is, with these calls and answers.
pub trait Job<C: Call, R: Answer> {
    /// What it returns.
    type Output;

    // what it may return, on a value with these answers
    ghost gives: { Self → (C → R) → Self.Output → Type 0 };

    /// Does it on a value.
    fn run_on<T: Track<Call = C, Answer = R>>(self, value: &T) -> Self::Output
        ensures { gives self (T.answers value.now) result };
}

/// Does a job on a value that keeps the answers it gave, so that this value is asked each call once.
pub fn with_kept<T: Track, J: Job<T::Call, T::Answer>>(
    alloc: Global,
    value: &T,
    job: J,
) -> J::Output
    ensures { J.gives job (T.answers value.now) result }
{
    run_on_kept::<T, J, Brand>(alloc, value, job)
}

/// Does a job on a value that keeps its answers, which have this name.
fn run_on_kept<T: Track, J: Job<T::Call, T::Answer>, B: Says<T::Call, T::Answer>>(
    alloc: Global,
    value: &T,
    job: J,
) -> J::Output
    requires { SaysJust B.says T.Answer.eq (T.answers value.now) }
    ensures { J.gives job (T.answers value.now) result }
{
    let kept: Kept<'_, T, B> = Kept::new(alloc, value);
    job.run_on(&kept)
}
