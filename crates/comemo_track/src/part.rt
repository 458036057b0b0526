//! Parts of tracked values.
//!
//! A part is a tracked value within another: one of two joined values, or a field of a user's struct. A recorder of the
//! whole asks, writes and calls functions of a part through the map that renames the part's calls and answers to those
//! of the whole. `First` and `Second` are the parts of two joined values.
ghost use Rattle.std.specs.Prelude.{◌≡◌, refl};
ghost use Rattle.std.specs.Borrow.{sem, Lends};
ghost use Rattle.comemo_track.specs.Writing.{Writes};

use crate::both::Both;
use crate::both_mut::BothMut;
use crate::mapped::CallMap;
use crate::multi::{First, Second};
use crate::read_and_write::ReadAndWrite;
use crate::track::{Call, Track, View};
use std::alloc::Global;

/// A part of a tracked value: which value it is. What its calls and answers are in the whole is its `CallMap`.
pub trait Part<W: Track, A: Track>: CallMap<
    From = A::Call,
    FromAnswer = A::Answer,
    To = W::Call,
    ToAnswer = W::Answer,
> {
    // the part of a value
    ghost part: { Self → W → A };

    /// A view of the part.
    fn view<'a>(&self, whole: &'a W, alloc: Global) -> View<'a, A>
        ensures { result ≡ part self.now whole.now };

    // the whole answers the part's calls as the part does
    ghost agrees: { (s : Self) (whole : W) (call : A.Call)
        → W.answers whole (Self.maps s call) ≡ Self.maps_answer s (A.answers (part s whole) call) };
}

/// A tracked value that lends a part to be written.
pub trait LendPart<P, A: Track>: Track
where
    P: Part<Self, A>,
{
    // the value with another part in the place of its own
    ghost put: { P → Self → A → Self };

    /// Lends the part. When the loan ends, the value has what the part became.
    fn lend(&mut self, part: &P) -> &mut A
        ensures* lends { sem 𝓛 (Lends Self.row A.row self.entry result (put part.now self.old)) }
        ensures part { result.now ≡ P.part part.now self.old };

    // with its own part a value is itself
    ghost same: { (part : P) (whole : Self) → put part whole (P.part part whole) ≡ whole };

    // a write of the part is one of the whole
    ghost written: { (part : P) (whole : Self) (before after : A) (call : A.Call)
        → Writes A.wrote A.Call.is_write A.Call.touches A.Answer.eq A.answers before call after
        → Writes Self.wrote Self.Call.is_write Self.Call.touches Self.Answer.eq Self.answers
        (put part whole before) (P.maps part call) (put part whole after) };
}

impl<'a, W: Track> View<'a, W> {
    /// A view of a part of the value.
    pub fn part<A: Track, P: Part<W, A>>(&self, part: &P, alloc: Global) -> View<'a, A>
        ensures { result ≡ P.part part.now self.now }
    {
        part.view(self.value, alloc)
    }
}

impl<'b, A: Track, B: Track> Part<Both<'b, A, B>, A>
    for First<A::Call, B::Call, A::Answer, B::Answer> {
    ghost part = { λ _ whole. whole.first };

    ghost agrees = { λ _ _ _. refl };

    fn view<'a>(&self, whole: &'a Both<'b, A, B>, alloc: Global) -> View<'a, A> {
        whole.first.fork(alloc)
    }
}

impl<'b, A: Track, B: Track> Part<Both<'b, A, B>, B>
    for Second<A::Call, B::Call, A::Answer, B::Answer> {
    ghost part = { λ _ whole. whole.second };

    ghost agrees = { λ _ _ _. refl };

    fn view<'a>(&self, whole: &'a Both<'b, A, B>, alloc: Global) -> View<'a, B> {
        whole.second.fork(alloc)
    }
}

impl<'b, A: Track, B: Track> Part<BothMut<'b, A, B>, A>
    for First<A::Call, B::Call, A::Answer, B::Answer> {
    ghost part = { λ _ whole. whole.first.now };

    ghost agrees = { λ _ _ _. refl };

    fn view<'a>(&self, whole: &'a BothMut<'b, A, B>, alloc: Global) -> View<'a, A> {
        (&*whole.first).view(alloc)
    }
}

impl<'b, A: Track, B: Track> Part<BothMut<'b, A, B>, B>
    for Second<A::Call, B::Call, A::Answer, B::Answer> {
    ghost part = { λ _ whole. whole.second.now };

    ghost agrees = { λ _ _ _. refl };

    fn view<'a>(&self, whole: &'a BothMut<'b, A, B>, alloc: Global) -> View<'a, B> {
        (&*whole.second).view(alloc)
    }
}

impl<'b, A: Track, B: Track> Part<ReadAndWrite<'b, A, B>, A>
    for First<A::Call, B::Call, A::Answer, B::Answer> {
    ghost part = { λ _ whole. whole.first };

    ghost agrees = { λ _ _ _. refl };

    fn view<'a>(&self, whole: &'a ReadAndWrite<'b, A, B>, alloc: Global) -> View<'a, A> {
        whole.first.fork(alloc)
    }
}

impl<'b, A: Track, B: Track> Part<ReadAndWrite<'b, A, B>, B>
    for Second<A::Call, B::Call, A::Answer, B::Answer> {
    ghost part = { λ _ whole. whole.second.now };

    ghost agrees = { λ _ _ _. refl };

    fn view<'a>(&self, whole: &'a ReadAndWrite<'b, A, B>, alloc: Global) -> View<'a, B> {
        (&*whole.second).view(alloc)
    }
}

impl<'b, A: Track, B: Track> LendPart<First<A::Call, B::Call, A::Answer, B::Answer>, A>
    for BothMut<'b, A, B> {
    ghost use Rattle.comemo_track.specs.MultiLaws.{by_each};

    ghost put = { λ _ whole part. record whole { first = record whole.first { now = part } } };

    ghost same = { λ _ _. refl };

    ghost written = { λ _ whole before after call w. record {
      did = ((w.did, refl), refl);
      reads = by_each _ w.reads
          (λ read _ _. B.Answer.Eq.laws.refl (B.answers whole.second.now read));
    } };

    fn lend(&mut self, _part: &First<A::Call, B::Call, A::Answer, B::Answer>) -> &mut A {
        &mut *self.first
    }
}

impl<'b, A: Track, B: Track> LendPart<Second<A::Call, B::Call, A::Answer, B::Answer>, B>
    for BothMut<'b, A, B> {
    ghost use Rattle.comemo_track.specs.MultiLaws.{by_each};

    ghost put = { λ _ whole part. record whole { second = record whole.second { now = part } } };

    ghost same = { λ _ _. refl };

    ghost written = { λ _ whole before after call w. record {
      did = ((w.did, refl), refl);
      reads = by_each _ (λ read _ _. A.Answer.Eq.laws.refl (A.answers whole.first.now read))
          w.reads;
    } };

    fn lend(&mut self, _part: &Second<A::Call, B::Call, A::Answer, B::Answer>) -> &mut B {
        &mut *self.second
    }
}

impl<'b, A: Track, B: Track> LendPart<Second<A::Call, B::Call, A::Answer, B::Answer>, B>
    for ReadAndWrite<'b, A, B> {
    ghost use Rattle.comemo_track.specs.MultiLaws.{by_each};

    ghost put = { λ _ whole part. record whole { second = record whole.second { now = part } } };

    ghost same = { λ _ _. refl };

    ghost written = { λ _ whole before after call w. record {
      did = ((w.did, refl), refl);
      reads = by_each _ (λ read _ _. A.Answer.Eq.laws.refl (A.answers whole.first read))
          w.reads;
    } };

    fn lend(&mut self, _part: &Second<A::Call, B::Call, A::Answer, B::Answer>) -> &mut B {
        &mut *self.second
    }
}
