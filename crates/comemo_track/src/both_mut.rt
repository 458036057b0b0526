//! Two tracked values joined as one that is read and written.
ghost use Rattle.std.specs.Prelude.{◌≡◌};
ghost use Rattle.std.proofs.Common.{rules};

use crate::multi::{MultiAnswer, MultiCall};
use crate::track::Track;
use std::alloc::AllocError;

/// Two tracked values, borrowed as one that is read and written.
///
/// Each call belongs to one part, as with `Both`; a write changes its part only.
#[derive(Drop)]
pub struct BothMut<'a, A, B> {
    /// The first value.
    pub first: &'a mut A,
    /// The second value.
    pub second: &'a mut B,
}

/// The call's part answers or is written; it fails if that does.
impl<'a, A: Track, B: Track> Track for BothMut<'a, A, B> {
    type Call = MultiCall<A::Call, B::Call>;

    type Answer = MultiAnswer<A::Answer, B::Answer>;

    ghost use Rattle.comemo_track.specs.Multi.{part_answers, OnCall};
    ghost use Rattle.comemo_track.specs.Writing.{WroteAt};
    ghost use Rattle.comemo_track.specs.MultiLaws.{by_parts};

    ghost answers = { λ s. part_answers (A.answers s.first.now) (B.answers s.second.now) };

    ghost alike = { λ s. by_parts _ (A.alike s.first.now) (B.alike s.second.now)
        (λ c d h. Prim.search rules) (λ c d h. Prim.search rules) };

    // a write changes its own part only
    ghost wrote = { λ s call t. OnCall
        (λ c. WroteAt A.wrote s.first c t.first × (t.second ≡ s.second))
        (λ c. WroteAt B.wrote s.second c t.second × (t.first ≡ s.first))
        call };

    fn ask(
        &self,
        call: &MultiCall<A::Call, B::Call>,
    ) -> Result<MultiAnswer<A::Answer, B::Answer>, AllocError> {
        match call {
            MultiCall::A(call) => Ok(MultiAnswer::A(self.first.ask(call)?)),
            MultiCall::B(call) => Ok(MultiAnswer::B(self.second.ask(call)?)),
        }
    }

    fn call_mut(&mut self, call: &MultiCall<A::Call, B::Call>) -> Result<(), AllocError> {
        match call {
            MultiCall::A(call) => {
                self.first.call_mut(call)?;
                Ok(())
            }
            MultiCall::B(call) => {
                self.second.call_mut(call)?;
                Ok(())
            }
        }
    }
}
