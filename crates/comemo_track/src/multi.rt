//! Inputs joined: several arguments of a memoized function as one input.
ghost use Rattle.std.specs.Prelude.{◌≡◌, refl};
ghost use Rattle.std.proofs.Common.{ap, ◌∙◌, sym, rules};

use crate::answer::Answer;
use crate::input::Input;
use crate::mapped::CallMap;
use crate::track::Call;
use std::alloc::AllocError;
use std::marker::PhantomData;

/// A call of one of two joined inputs.
#[derive(Clone, Drop, Debug, PartialEq, Eq, Hash)]
pub enum MultiCall<A, B> {
    /// A call of the first part.
    A(A),
    /// A call of the second part.
    B(B),
}

impl<A: Call, B: Call> Call for MultiCall<A, B> {
    ghost use Rattle.comemo_track.specs.Multi.{by_part, part_touches};
    ghost use Rattle.comemo_track.specs.MultiLaws.{by_parts};

    ghost is_write = { by_part A.is_write B.is_write };

    ghost touches = { part_touches A.touches B.touches };

    ghost laws = { record {
      same_kind = by_parts _ A.Call.laws.same_kind B.Call.laws.same_kind
          (λ c d h. Prim.search rules) (λ c d h. Prim.search rules);
      clones = by_parts _ A.Call.laws.clones B.Call.laws.clones
          (λ c d h. Prim.search rules) (λ c d h. Prim.search rules);
    } };

    fn is_mutable(&self) -> bool {
        match self {
            MultiCall::A(call) => call.is_mutable(),
            MultiCall::B(call) => call.is_mutable(),
        }
    }

    /// Calls of different parts don't touch each other.
    fn touches(&self, read: &MultiCall<A, B>) -> bool {
        match (self, read) {
            (MultiCall::A(call), MultiCall::A(read)) => call.touches(read),
            (MultiCall::B(call), MultiCall::B(read)) => call.touches(read),
            _ => false,
        }
    }
}

/// An answer of one of two joined inputs.
#[derive(Clone, Drop, Debug, PartialEq, Eq, PartialOrd, Ord)]
pub enum MultiAnswer<A, B> {
    /// An answer of the first part.
    A(A),
    /// An answer of the second part.
    B(B),
}

impl<A: Answer, B: Answer> Answer for MultiAnswer<A, B> {
    ghost use Rattle.comemo_track.specs.MultiLaws.{by_answers};

    ghost clones = { by_answers _ A.clones B.clones
        (λ a b h. Prim.search rules) (λ a b h. Prim.search rules) };
}

/// Joined inputs: `()`, or a pair whose parts may be joined inputs themselves.
///
/// The key of a pair is the pair of the keys; each call and its answer belong to one part. Three inputs are
/// `Multi((first, Multi((second, third))))`.
#[derive(Drop)]
pub struct Multi<T>(pub T);

/// No arguments: an input whose only call is `()`. It never fails.
impl Input for Multi<()> {
    type Call = ();

    type Key = ();

    type Answer = ();

    ghost key_of = { λ _. tt };

    ghost answers = { λ _ _. tt };

    ghost did = { λ s t _. t ≡ s };

    ghost alike = { λ _ _ _ _. refl };

    ghost starts = { λ _. refl };

    ghost joins = { λ s t u V W a b. b ∙ a };

    ghost keeps = { λ _ _ _ _ _ _ _. refl };

    ghost keeps_key = { λ _ _ _ _. refl };

    fn key(&self) -> Result<(), AllocError> {
        Ok(())
    }

    fn call(&mut self, _call: &()) -> Result<(), AllocError> {
        Ok(())
    }

    fn call_mut(&mut self, _call: &()) -> Result<(), AllocError> {
        // Never called: `()` is a read.
        Ok(())
    }
}

/// Two inputs as one. It fails if a part does.
impl<A: Input, B: Input> Input for Multi<(A, B)> {
    type Call = MultiCall<A::Call, B::Call>;

    type Key = (A::Key, B::Key);

    type Answer = MultiAnswer<A::Answer, B::Answer>;

    ghost use Rattle.comemo_track.specs.Multi.{part_answers, firsts, seconds};
    ghost use Rattle.comemo_track.specs.MultiLaws.{by_each, by_parts, both_did, touched_firsts, touched_seconds};

    ghost key_of = { λ s. (A.key_of s.0.0, B.key_of s.0.1) };

    ghost answers = { λ s. part_answers (A.answers s.0.0) (B.answers s.0.1) };

    ghost did = { λ s t W. A.did s.0.0 t.0.0 (firsts W) × B.did s.0.1 t.0.1 (seconds W) };

    ghost alike = { λ s. by_parts _ (A.alike s.0.0) (B.alike s.0.1)
        (λ c d h. Prim.search rules) (λ c d h. Prim.search rules) };

    ghost starts = { λ s. (A.starts s.0.0, B.starts s.0.1) };

    ghost joins = { λ s t u. both_did A.joins B.joins s.0 t.0 u.0 };

    ghost keeps = { λ s t W a. by_each _
        (λ c read un. A.keeps s.0.0 t.0.0 (firsts W) a.0 c read
        (sym (touched_firsts A.Call.touches B.Call.touches W c) ∙ un))
        (λ c read un. B.keeps s.0.1 t.0.1 (seconds W) a.1 c read
        (sym (touched_seconds A.Call.touches B.Call.touches W c) ∙ un)) };

    ghost keeps_key = { λ s t W a.
        let first = A.keeps_key s.0.0 t.0.0 (firsts W) a.0 in
        let second = B.keeps_key s.0.1 t.0.1 (seconds W) a.1 in
        Prim.search rules };

    fn key(&self) -> Result<(A::Key, B::Key), AllocError> {
        let first = self.0.0.key()?;
        let second = self.0.1.key()?;
        Ok((first, second))
    }

    fn call(
        &mut self,
        call: &MultiCall<A::Call, B::Call>,
    ) -> Result<MultiAnswer<A::Answer, B::Answer>, AllocError> {
        match call {
            MultiCall::A(call) => Ok(MultiAnswer::A(self.0.0.call(call)?)),
            MultiCall::B(call) => Ok(MultiAnswer::B(self.0.1.call(call)?)),
        }
    }

    fn call_mut(&mut self, call: &MultiCall<A::Call, B::Call>) -> Result<(), AllocError> {
        match call {
            MultiCall::A(call) => self.0.0.call_mut(call),
            MultiCall::B(call) => self.0.1.call_mut(call),
        }
    }
}

/// Maps the calls and answers of the first part to those of the pair.
#[derive(Drop)]
pub struct First<A, B, RA, RB> {
    calls: PhantomData<(A, B)>,
    answers: PhantomData<(RA, RB)>,
}

impl<A, B, RA, RB> First<A, B, RA, RB> {
    /// A map for the first part.
    pub fn new() -> Self {
        First {
            calls: PhantomData,
            answers: PhantomData,
        }
    }
}

impl<A: Call, B: Call, RA: Clone + Ord, RB: Clone + Ord> CallMap for First<A, B, RA, RB> {
    type From = A;

    type To = MultiCall<A, B>;

    type FromAnswer = RA;

    type ToAnswer = MultiAnswer<RA, RB>;

    ghost use Rattle.comemo_track.specs.Multi.{first_call, first_answer};

    ghost maps = { λ _. first_call };

    ghost maps_answer = { λ _. first_answer };

    ghost same_kind = { λ _ _. refl };

    ghost same_touch = { λ _ _ _. refl };

    ghost apart = { λ _ _ _. refl };

    ghost answers_apart = { λ _ _ _. refl };

    fn map(&self, call: A) -> MultiCall<A, B> {
        MultiCall::A(call)
    }

    fn map_answer(&self, answer: RA) -> MultiAnswer<RA, RB> {
        MultiAnswer::A(answer)
    }
}

/// Maps the calls and answers of the second part to those of the pair.
#[derive(Drop)]
pub struct Second<A, B, RA, RB> {
    calls: PhantomData<(A, B)>,
    answers: PhantomData<(RA, RB)>,
}

impl<A, B, RA, RB> Second<A, B, RA, RB> {
    /// A map for the second part.
    pub fn new() -> Self {
        Second {
            calls: PhantomData,
            answers: PhantomData,
        }
    }
}

impl<A: Call, B: Call, RA: Clone + Ord, RB: Clone + Ord> CallMap for Second<A, B, RA, RB> {
    type From = B;

    type To = MultiCall<A, B>;

    type FromAnswer = RB;

    type ToAnswer = MultiAnswer<RA, RB>;

    ghost use Rattle.comemo_track.specs.Multi.{second_call, second_answer};

    ghost maps = { λ _. second_call };

    ghost maps_answer = { λ _. second_answer };

    ghost same_kind = { λ _ _. refl };

    ghost same_touch = { λ _ _ _. refl };

    ghost apart = { λ _ _ _. refl };

    ghost answers_apart = { λ _ _ _. refl };

    fn map(&self, call: B) -> MultiCall<A, B> {
        MultiCall::B(call)
    }

    fn map_answer(&self, answer: RB) -> MultiAnswer<RA, RB> {
        MultiAnswer::B(answer)
    }
}
