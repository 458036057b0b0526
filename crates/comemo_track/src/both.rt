//! Two tracked values joined as one.
ghost use Rattle.std.proofs.Common.{rules};

use crate::multi::{MultiAnswer, MultiCall};
use crate::track::{Track, View};
use std::alloc::AllocError;

/// Two tracked values as one, which is tracked itself, so that a run can get both: a `View` of each.
///
/// Each call and its answer belong to one part, as with `Multi`. For more than two values write a struct with its own
/// calls, `Track` and `Part`: the checker doesn't cover runs of functions whose parts are joined values themselves.
#[derive(Drop)]
pub struct Both<'a, A, B> {
    /// A view of the first value.
    pub first: View<'a, A>,
    /// A view of the second value.
    pub second: View<'a, B>,
}

/// The call's part answers; it fails if that does.
impl<'a, A: Track, B: Track> Track for Both<'a, A, B> {
    type Call = MultiCall<A::Call, B::Call>;

    type Answer = MultiAnswer<A::Answer, B::Answer>;

    ghost use Rattle.comemo_track.specs.Multi.{part_answers};
    ghost use Rattle.comemo_track.specs.MultiLaws.{by_parts};

    ghost answers = { λ s. part_answers (A.answers s.first) (B.answers s.second) };

    ghost alike = { λ s. by_parts _ (A.alike s.first) (B.alike s.second)
        (λ c d h. Prim.search rules) (λ c d h. Prim.search rules) };

    fn ask(
        &self,
        call: &MultiCall<A::Call, B::Call>,
    ) -> Result<MultiAnswer<A::Answer, B::Answer>, AllocError> {
        match call {
            MultiCall::A(call) => Ok(MultiAnswer::A(self.first.read(call)?)),
            MultiCall::B(call) => Ok(MultiAnswer::B(self.second.read(call)?)),
        }
    }
}
