//! Early cutoff: functions that ask outputs of memoized functions in place of what these rest on.
ghost use Rattle.std.specs.Prelude.{◌≡◌, IsTrue, IfOk, IfSome, false, refl};
ghost use Rattle.std.proofs.Common.{rules};
ghost use Rattle.comemo_base.specs.Answers.{Respects};
ghost use Rattle.comemo_track.specs.Answered.{IsAnswered};

use comemo_track::answer::Answer;
use comemo_track::multi::{First, MultiAnswer, MultiCall, Second};
use comemo_track::part::Part;
use comemo_track::track::{Call, Track, View};
use std::alloc::{AllocError, Global};
use std::cell::RefCell;
use std::collections::HashMap;
use std::hash::Hash;
use std::marker::{Model, PhantomData};

/// The question for the output at a key.
#[derive(Clone, Drop, Debug, PartialEq, Eq, Hash)]
pub struct At<K> {
    /// The key.
    pub key: K,
}

impl<K: Answer + Hash> Call for At<K> {
    ghost is_write = { λ _. false };

    ghost touches = { λ _ _. false };

    ghost laws = { Prim.search rules };

    fn is_mutable(&self) -> bool {
        false
    }

    fn touches(&self, _read: &At<K>) -> bool {
        false
    }
}

/// A query of a tracked value: it has one output at a key, by what the value answers.
///
/// Functions that only read may ask its output in place of what it rests on. The checker finds the law if keys and
/// outputs are plain values.
pub trait Query<T: Track> {
    /// The key.
    type At: Answer + Hash;

    /// The output.
    type Output: Answer;

    // the output at a key, for these answers of the value
    ghost gives: { Self.At → (T.Call → T.Answer) → Self.Output };

    // equal keys have equal outputs
    ghost alike: { (j k : Self.At) (m : T.Call → T.Answer)
        → Respects T.Call.eq T.Answer.eq m → IsTrue (Self.At.eq j k)
        → IsTrue (Self.Output.eq (gives j m) (gives k m)) };
}

/// The outputs of a query that are known in a round, as a tracked value whose one question is `At` a key. Contracts see
/// the value that they are of.
///
/// A question for an output that isn't known fails, and its key is kept.
#[derive(Drop)]
pub struct Outputs<'r, T: Track, Q: Query<T>> {
    of: &'r T,
    known: &'r HashMap<Q::At, Q::Output>,
    missing: RefCell<Option<Q::At>>,
    query: PhantomData<Q>,
}

impl<'r, T: Track, Q: Query<T>> Model for Outputs<'r, T, Q> {
    ghost use Rattle.comemo_track.specs.Answered.{IsAnswered};
    ghost use Rattle.std.specs.Prelude.{false};

    ghost Value = { T };

    ghost coded = { T.code };

    ghost view = { λ s. s.of.now };

    ghost invariant = { λ s. IsAnswered Q.At.eq (λ _. false) Q.Output.eq
        (λ at. Q.gives at (T.answers s.of.now)) s.known.now.entries };
}

impl<'r, T: Track, Q: Query<T>> Track for Outputs<'r, T, Q> {
    type Call = At<Q::At>;

    type Answer = Q::Output;

    ghost answers = { λ s at. Q.gives at.key (T.answers s) };

    ghost alike = { λ s x y h. Q.alike x.key y.key (T.answers s) (T.alike s) h };

    fn ask(&self, call: &At<Q::At>) -> Result<Q::Output, AllocError> {
        if let Some(output) = self.known.get(&call.key) {
            return Ok(output.clone()?);
        }
        let key = call.key.clone()?;
        let _ = self.missing.try_replace(Some(key));
        Err(AllocError)
    }
}

/// A tracked value joined with the outputs of a query that are known at it, as a run sees it. Contracts see the value.
///
/// Its calls are those of the value, and `At` a key.
#[derive(Drop)]
pub struct Known<'r, T: Track, Q: Query<T>> {
    outputs: Outputs<'r, T, Q>,
}

impl<'r, T: Track, Q: Query<T>> Model for Known<'r, T, Q> {
    ghost Value = { T };

    ghost coded = { T.code };

    ghost view = { λ s. s.outputs };
}

impl<'r, T: Track, Q: Query<T>> Known<'r, T, Q> {
    /// A value, and the outputs that are known at it. Does not allocate.
    pub(crate) fn new(of: &'r T, known: &'r HashMap<Q::At, Q::Output>) -> Self
        requires { IsAnswered Q.At.eq (λ _. false) Q.Output.eq
            (λ at. Q.gives at (T.answers of.now)) known.now.entries }
        ensures { result ≡ of.now }
    {
        Known {
            outputs: Outputs {
                of,
                known,
                missing: RefCell::new(None),
                query: PhantomData,
            },
        }
    }

    /// The value itself, for a function that asks no outputs.
    pub fn value(&self) -> &'r T
        ensures { result.now ≡ self.now }
    {
        self.outputs.of
    }

    /// The key of the last output that was asked and not known, if there is one.
    pub(crate) fn into_missing(self) -> Option<Q::At> {
        self.outputs.missing.into_inner()
    }
}

/// The value answers, or the known outputs do.
impl<'r, T: Track, Q: Query<T>> Track for Known<'r, T, Q> {
    type Call = MultiCall<T::Call, At<Q::At>>;

    type Answer = MultiAnswer<T::Answer, Q::Output>;

    ghost use Rattle.comemo_track.specs.Multi.{part_answers};
    ghost use Rattle.comemo_track.specs.MultiLaws.{by_parts};

    ghost answers = { λ s. part_answers (T.answers s) (λ at. Q.gives at.key (T.answers s)) };

    ghost alike = { λ s. by_parts _ (T.alike s)
        (λ x y h. Q.alike x.key y.key (T.answers s) (T.alike s) h)
        (λ c d h. Prim.search rules) (λ c d h. Prim.search rules) };

    fn ask(
        &self,
        call: &MultiCall<T::Call, At<Q::At>>,
    ) -> Result<MultiAnswer<T::Answer, Q::Output>, AllocError> {
        match call {
            MultiCall::A(call) => Ok(MultiAnswer::A(self.outputs.of.ask(call)?)),
            MultiCall::B(at) => Ok(MultiAnswer::B(self.outputs.ask(at)?)),
        }
    }
}

/// A tracked value joined with the outputs of a query, of which none is known. Contracts see the value.
///
/// It stands for a `Known` where no outputs are borrowed.
#[derive(Drop)]
pub struct Unknown<'a, T: Track, Q: Query<T>> {
    of: &'a T,
    query: PhantomData<Q>,
}

impl<'a, T: Track, Q: Query<T>> Model for Unknown<'a, T, Q> {
    ghost Value = { T };

    ghost coded = { T.code };

    ghost view = { λ s. s.of.now };
}

impl<'a, T: Track, Q: Query<T>> Unknown<'a, T, Q> {
    /// A value whose outputs aren't known. Does not allocate.
    pub(crate) fn new(of: &'a T) -> Self
        ensures { result ≡ of.now }
    {
        Unknown {
            of,
            query: PhantomData,
        }
    }
}

impl<'a, T: Track, Q: Query<T>> Track for Unknown<'a, T, Q> {
    type Call = MultiCall<T::Call, At<Q::At>>;

    type Answer = MultiAnswer<T::Answer, Q::Output>;

    ghost use Rattle.comemo_track.specs.Multi.{part_answers};
    ghost use Rattle.comemo_track.specs.MultiLaws.{by_parts};

    ghost answers = { λ s. part_answers (T.answers s) (λ at. Q.gives at.key (T.answers s)) };

    ghost alike = { λ s. by_parts _ (T.alike s)
        (λ x y h. Q.alike x.key y.key (T.answers s) (T.alike s) h)
        (λ c d h. Prim.search rules) (λ c d h. Prim.search rules) };

    fn ask(
        &self,
        call: &MultiCall<T::Call, At<Q::At>>,
    ) -> Result<MultiAnswer<T::Answer, Q::Output>, AllocError> {
        match call {
            MultiCall::A(call) => Ok(MultiAnswer::A(self.of.ask(call)?)),
            MultiCall::B(_) => Err(AllocError),
        }
    }
}

impl<'b, T: Track, Q: Query<T>> Part<Known<'b, T, Q>, T>
    for First<T::Call, At<Q::At>, T::Answer, Q::Output> {
    ghost part = { λ _ whole. whole };

    ghost agrees = { λ _ _ _. refl };

    fn view<'a>(&self, whole: &'a Known<'b, T, Q>, alloc: Global) -> View<'a, T> {
        whole.outputs.of.view(alloc)
    }
}

impl<'b, T: Track, Q: Query<T>> Part<Known<'b, T, Q>, Outputs<'b, T, Q>>
    for Second<T::Call, At<Q::At>, T::Answer, Q::Output> {
    ghost part = { λ _ whole. whole };

    ghost agrees = { λ _ _ _. refl };

    fn view<'a>(&self, whole: &'a Known<'b, T, Q>, alloc: Global) -> View<'a, Outputs<'b, T, Q>> {
        (&whole.outputs).view(alloc)
    }
}
