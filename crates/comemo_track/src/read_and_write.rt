//! A tracked value that is read, joined with one that is written.
ghost use Rattle.std.specs.Prelude.{◌≡◌};
ghost use Rattle.std.proofs.Common.{rules};

use crate::multi::{MultiAnswer, MultiCall};
use crate::track::{Track, View};
use std::alloc::AllocError;

/// Two tracked values as one: a `View` of the first, and a second that is borrowed to be read and written.
///
/// Each call belongs to one part, as with `BothMut`. The first value may be borrowed elsewhere too.
#[derive(Drop)]
pub struct ReadAndWrite<'a, A, B> {
    /// The view of the first value.
    pub first: View<'a, A>,
    /// The second value.
    pub second: &'a mut B,
}

/// The call's part answers or is written, and fails if that does. A write to the first part fails.
impl<'a, A: Track, B: Track> Track for ReadAndWrite<'a, A, B> {
    type Call = MultiCall<A::Call, B::Call>;

    type Answer = MultiAnswer<A::Answer, B::Answer>;

    ghost use Rattle.comemo_track.specs.Multi.{part_answers, OnCall};
    ghost use Rattle.comemo_track.specs.Writing.{WroteAt};
    ghost use Rattle.comemo_track.specs.MultiLaws.{by_parts};

    ghost answers = { λ s. part_answers (A.answers s.first) (B.answers s.second.now) };

    ghost alike = { λ s. by_parts _ (A.alike s.first) (B.alike s.second.now)
        (λ c d h. Prim.search rules) (λ c d h. Prim.search rules) };

    // a write changes the second value only, and a write to the first always fails
    ghost wrote = { λ s call t. OnCall
        (λ _. ⊥)
        (λ c. WroteAt B.wrote s.second c t.second × (t.first ≡ s.first))
        call };

    fn ask(
        &self,
        call: &MultiCall<A::Call, B::Call>,
    ) -> Result<MultiAnswer<A::Answer, B::Answer>, AllocError> {
        match call {
            MultiCall::A(call) => Ok(MultiAnswer::A(self.first.read(call)?)),
            MultiCall::B(call) => Ok(MultiAnswer::B(self.second.ask(call)?)),
        }
    }

    fn call_mut(&mut self, call: &MultiCall<A::Call, B::Call>) -> Result<(), AllocError> {
        match call {
            MultiCall::A(_) => Err(AllocError),
            MultiCall::B(call) => {
                self.second.call_mut(call)?;
                Ok(())
            }
        }
    }
}
