//! Look-ups that go on where they stopped.
ghost use Rattle.std.specs.Prelude.{◌≡◌, IsTrue, IfSome, refl};
ghost use Rattle.std.proofs.Common.{◌∙◌, ap};
ghost use Rattle.comemo.specs.Trail.{IsTrail};
ghost use Rattle.comemo_track.specs.InputLaws.{equal_if_one};

use comemo_track::answer::Answer;
use comemo_track::input::Input;
use comemo_track::track::{Call, Track};
use std::alloc::AllocError;
use std::hash::Hash;
use std::marker::Model;

/// A lent key joined with a lent value, as an input that asks nothing again that earlier look-ups asked in the same
/// order. Contracts see the key and the value.
#[derive(Drop)]
pub(crate) struct Resumed<'a, 'b, K: Clone + Eq + Hash, T: Track> {
    key: &'b K,
    of: &'a T,
    // what was asked, with the answers: by this look-up from the start on
    trail: Vec<(T::Call, T::Answer)>,
    start: usize,
    // the place of the next call
    next: usize,
}

impl<'a, 'b, K: Clone + Eq + Hash, T: Track> Model for Resumed<'a, 'b, K, T> {
    ghost use Rattle.std.specs.Coded.{coded×};
    ghost use Rattle.std.specs.Prelude.{IsTrue};
    ghost use Rattle.comemo.specs.Trail.{IsTrail};

    ghost Value = { K × T };

    ghost coded = { coded× K.code T.code };

    ghost view = { λ s. (s.key.now, s.of.now) };

    ghost invariant = { λ s. IsTrail T.Answer.eq (T.answers s.of.now) s.trail.items
        × ((x y : K) → K.is_clone x y → IsTrue (K.eq x y)) };
}

impl<'a, 'b, K: Clone + Eq + Hash, T: Track> Resumed<'a, 'b, K, T> {
    /// The key and the value, and what earlier look-ups asked, of this call from the start on.
    pub(crate) fn new(key: &'b K, of: &'a T, trail: Vec<(T::Call, T::Answer)>, start: usize) -> Self
        requires trail { IsTrail T.Answer.eq (T.answers of.now) trail.items }
        requires clones { (x y : K) → K.is_clone x y → IsTrue (K.eq x y) }
        ensures { result ≡ (key.now, of.now) }
    {
        Resumed {
            key,
            of,
            trail,
            start,
            next: start,
        }
    }

    /// Where on the trail a look-up stands that asks this call: at the start, if it asks the first.
    fn place_of(&self, call: &T::Call) -> usize {
        match self.trail.get(self.start) {
            Some((first, _)) if first == call => self.start,
            _ => self.next,
        }
    }

    /// The answer on the trail, if the call at a place is this one.
    fn known(&self, place: usize, call: &T::Call) -> Option<&T::Answer>
        ensures { IfSome result (λ answer.
            IsTrue (T.Answer.eq (T.answers self.now.1 call.now) answer.now)) }
    {
        match self.trail.get(place) {
            Some((asked, answer)) if asked == call => Some(answer),
            _ => None,
        }
    }

    /// Cuts the trail at a place, and adds a call with its answer. On error the trail ends there.
    fn keep(&mut self, place: usize, call: &T::Call, answer: &T::Answer) -> Result<(), AllocError>
        requires { IsTrue (T.Answer.eq (T.answers self.old.1 call.now) answer.now) }
        ensures { self.new ≡ self.old }
    {
        self.trail.truncate(place);
        let call = call.clone()?;
        let answer = answer.clone()?;
        self.trail.push((call, answer))?;
        Ok(())
    }

    /// What was asked, with the answers.
    pub(crate) fn into_trail(self) -> Vec<(T::Call, T::Answer)>
        ensures { IsTrail T.Answer.eq (T.answers self.entry.1) result.items }
    {
        let Resumed {
            key: _,
            of: _,
            trail,
            start: _,
            next: _,
        } = self;
        trail
    }
}

impl<'a, 'b, K: Clone + Eq + Hash, T: Track> Input for Resumed<'a, 'b, K, T> {
    type Call = T::Call;

    type Key = K;

    type Answer = T::Answer;

    ghost key_of = { λ s. s.0 };

    ghost answers = { λ s. T.answers s.1 };

    ghost did = { λ s t _. t ≡ s };

    ghost alike = { λ s. T.alike s.1 };

    ghost starts = { λ _. refl };

    ghost joins = { λ s t u V W a b. b ∙ a };

    ghost keeps = { λ s t W a call reads un. equal_if_one T.Answer.Eq.laws _ _
        (ap (λ (of : K × T). T.answers of.1 call) a) };

    ghost keeps_key = { λ s t W a. equal_if_one K.Eq.laws _ _ (ap (λ (of : K × T). of.0) a) };

    fn key(&self) -> Result<K, AllocError> {
        self.key.clone()
    }

    fn call(&mut self, call: &T::Call) -> Result<T::Answer, AllocError> {
        let place = self.place_of(call);
        self.next = place.saturating_add(1);
        if let Some(answer) = self.known(place, call) {
            return answer.clone();
        }
        let answer = self.of.ask(call)?;
        // What can't be kept is asked again in the next look-up.
        let _ = self.keep(place, call, &answer);
        Ok(answer)
    }

    fn call_mut(&mut self, _call: &T::Call) -> Result<(), AllocError> {
        // The value is only read, so a write has no effect.
        Ok(())
    }
}
