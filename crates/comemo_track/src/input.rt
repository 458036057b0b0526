//! Inputs of memoized functions: a key, which tells entries apart, and calls, by whose answers entries are found. An
//! input allocates, and fails, where its parts do.
ghost use Rattle.std.specs.Prelude.{◌≡◌, [], ◌∷◌, ◌++◌, List, true, false, IsTrue, IfOk, OnOk, OnErr, refl};
ghost use Rattle.std.proofs.Common.{◌∙◌, ap};
ghost use Rattle.comemo_base.specs.Answers.{Respects};
ghost use Rattle.comemo_track.specs.InputLaws.{equal_if_one};
ghost use Rattle.comemo_track.specs.WritingLaws.{done_both, done_keeps};
ghost use Rattle.comemo_track.specs.Views.{place_of};
ghost use Rattle.comemo_track.specs.Writing.{touched_by};

use crate::track::{Call, Track, View, Written};
use crate::writing::TrackedMut;
use std::alloc::AllocError;
use std::hash::Hash;
use std::marker::Model;

/// An input of a memoized function: a key, which isn't tracked, and tracked values, which answer calls.
///
/// Contracts describe what is done to an input by `did s t W`: t is s after the writes W. These change neither the key
/// nor the answer of a read that they don't touch.
pub trait Input {
    /// What the input can be asked.
    type Call: Call;

    /// What tells entries apart before any call is asked.
    type Key: Clone + Eq + Hash;

    /// The answer to a read: one type for all calls.
    type Answer: Clone + Ord;

    // the key
    ghost key_of: { Self → Self.Key };

    // what the input answers
    ghost answers: { Self → Self.Call → Self.Answer };

    // t is s after these writes, in order
    ghost did: { Self → Self → List Self.Call → Type 0 };

    /// A clone of the key. Fails if cloning does.
    fn key(&self) -> Result<Self::Key, AllocError>
        ensures { IfOk result (λ key. IsTrue (Self.Key.eq (key_of self.now) key)) };

    /// The answer to a read. Writes nothing, even on error.
    fn call(&mut self, call: &Self::Call) -> Result<Self::Answer, AllocError>
        requires { Self.Call.is_write call.now ≡ false }
        ensures answer { IfOk result
            (λ answer. IsTrue (Self.Answer.eq (answers self.old call.now) answer)) }
        ensures same { did self.old self.new [] };

    /// Does a write. On error nothing is written. An input that can't be written to ignores it. Never gets a read.
    fn call_mut(&mut self, call: &Self::Call) -> Result<(), AllocError>
        ensures ok { Self.Call.is_write call.now ≡ true
            → OnOk result (did self.old self.new (call.now ∷ [])) }
        ensures err { OnErr result (did self.old self.new []) };

    // equal calls have equal answers
    ghost alike: { (s : Self) → Respects Self.Call.eq Self.Answer.eq (answers s) };

    // no writes change nothing
    ghost starts: { (s : Self) → did s s [] };

    // writes in two parts are the writes joined
    ghost joins: { (s t u : Self) (V W : List Self.Call)
        → did s t V → did t u W → did s u (V ++ W) };

    // a read that no write touches keeps its answer
    ghost keeps: { (s t : Self) (W : List Self.Call)
        → did s t W → (call : Self.Call) → Self.Call.is_write call ≡ false
        → touched_by Self.Call.touches W call ≡ false
        → IsTrue (Self.Answer.eq (answers s call) (answers t call)) };

    // so does the key
    ghost keeps_key: { (s t : Self) (W : List Self.Call)
        → did s t W → IsTrue (Self.Key.eq (key_of s) (key_of t)) };
}

/// A borrowed key joined with a view: the input of a function with one untracked and one tracked argument.
///
/// Its calls are the view's, so unlike a call of `Multi` they don't say which part they are for.
#[derive(Drop)]
pub struct Keyed<'a, 'b, K: Clone + Eq + Hash, T> {
    /// The untracked argument.
    pub key: &'b K,
    /// A view of the tracked argument.
    pub view: View<'a, T>,
    // a clone of a key is equal
    pub ghost clones: { (x y : K) → K.is_clone x y → IsTrue (K.eq x y) },
}

impl<'a, 'b, K: Clone + Eq + Hash, T: Track> Input for Keyed<'a, 'b, K, T> {
    type Call = T::Call;

    type Key = K;

    type Answer = T::Answer;

    ghost key_of = { λ s. s.key.now };

    ghost answers = { λ s. T.answers s.view };

    ghost did = { λ s t _. (t.key.now ≡ s.key.now) × (t.view ≡ s.view) };

    ghost alike = { λ s. T.alike s.view };

    ghost starts = { λ s. (refl, refl) };

    ghost joins = { λ s t u V W a b. (b.0 ∙ a.0, b.1 ∙ a.1) };

    ghost keeps = { λ s t W a call reads un. equal_if_one T.Answer.Eq.laws _ _
        (ap (λ view. T.answers view call) a.1) };

    ghost keeps_key = { λ s t W a. equal_if_one K.Eq.laws _ _ a.0 };

    fn key(&self) -> Result<K, AllocError> {
        self.key.clone()
    }

    fn call(&mut self, call: &T::Call) -> Result<T::Answer, AllocError> {
        self.view.read(call)
    }

    fn call_mut(&mut self, _call: &T::Call) -> Result<(), AllocError> {
        // A view can't write, so a write has no effect.
        Ok(())
    }
}

/// A borrowed key joined with a borrowed tracked value: the input of a function of an untracked argument, and one that
/// it reads and writes. Its calls are the value's.
#[derive(Drop)]
pub struct KeyedMut<'a, 'b, K: Clone + Eq + Hash, T> {
    /// The untracked argument.
    pub key: &'b K,
    /// The tracked argument.
    pub value: &'a mut T,
    // a clone of a key is equal
    pub ghost clones: { (x y : K) → K.is_clone x y → IsTrue (K.eq x y) },
}

impl<'a, 'b, K: Clone + Eq + Hash, T: Track> Input for KeyedMut<'a, 'b, K, T> {
    type Call = T::Call;

    type Key = K;

    type Answer = T::Answer;

    ghost key_of = { λ s. s.key.now };

    ghost answers = { λ s. T.answers s.value.now };

    ghost did = { λ s t W. ⟦<T as Written>⟧.did s.value.now t.value.now W
        × (t.value.ghost_name ≡ s.value.ghost_name) × (t.key.now ≡ s.key.now) };

    ghost alike = { λ s. T.alike s.value.now };

    ghost starts = { λ s. (refl, refl, refl) };

    ghost joins = { λ s t u V W a b. (
      done_both T.wrote T.Call.is_write T.Call.touches T.Answer.eq T.answers
          s.value.now t.value.now u.value.now V W a.0 b.0,
      b.1 ∙ a.1,
      b.2 ∙ a.2,
    ) };

    ghost keeps = { λ s t W a. done_keeps T.wrote T.Call.is_write T.Call.touches
        T.Answer.eq T.answers T.Answer.Eq.laws s.value.now t.value.now W a.0 };

    ghost keeps_key = { λ s t W a. equal_if_one K.Eq.laws _ _ a.2 };

    fn key(&self) -> Result<K, AllocError> {
        self.key.clone()
    }

    fn call(&mut self, call: &T::Call) -> Result<T::Answer, AllocError> {
        self.value.ask(call)
    }

    fn call_mut(&mut self, call: &T::Call) -> Result<(), AllocError> {
        T::call_mut(self.value, call)
    }
}

/// A `View`: an input without a key, whose calls and answers are the view's. Passed by `&mut`, it can be used again
/// after a look-up.
impl<'a, T: Track> Input for View<'a, T> {
    type Call = T::Call;

    type Key = ();

    type Answer = T::Answer;

    ghost key_of = { λ _. tt };

    ghost answers = { λ s. T.answers s };

    ghost did = { λ s t _. t ≡ s };

    ghost alike = { λ s. T.alike s };

    ghost starts = { λ _. refl };

    ghost joins = { λ s t u V W a b. b ∙ a };

    ghost keeps = { λ s t W a call reads un. equal_if_one T.Answer.Eq.laws _ _
        (ap (λ view. T.answers view call) a) };

    ghost keeps_key = { λ _ _ _ _. refl };

    fn key(&self) -> Result<(), AllocError> {
        Ok(())
    }

    fn call(&mut self, call: &T::Call) -> Result<T::Answer, AllocError> {
        self.read(call)
    }

    fn call_mut(&mut self, _call: &T::Call) -> Result<(), AllocError> {
        // A view can't write, so a write has no effect.
        Ok(())
    }
}

/// A reference to a `View`: an input like the view, for a place to which the view can't be moved.
///
/// A proof that passes a reference to such a reference knows nothing of the view afterwards; one that lends the view
/// does.
impl<'a, T: Track> Input for &mut View<'a, T> {
    type Call = T::Call;

    type Key = ();

    type Answer = T::Answer;

    ghost key_of = { λ _. tt };

    ghost answers = { λ s. T.answers s.now };

    ghost did = { λ s t _. (t.now ≡ s.now) × (t.ghost_name ≡ s.ghost_name) };

    ghost alike = { λ s. T.alike s.now };

    ghost starts = { λ s. (refl, refl) };

    ghost joins = { λ s t u V W a b. (b.0 ∙ a.0, b.1 ∙ a.1) };

    ghost keeps = { λ s t W a call reads un. equal_if_one T.Answer.Eq.laws _ _
        (ap (λ view. T.answers view call) a.0) };

    ghost keeps_key = { λ s t W a. refl };

    fn key(&self) -> Result<(), AllocError> {
        Ok(())
    }

    fn call(&mut self, call: &T::Call) -> Result<T::Answer, AllocError> {
        (**self).read(call)
    }

    fn call_mut(&mut self, _call: &T::Call) -> Result<(), AllocError> {
        // A view can't write, so a write has no effect.
        Ok(())
    }
}

/// A writing view: an input without a key, whose calls and answers are the view's. Passed by `&mut`, it can be used
/// again after a call.
impl<'a, T: Track> Input for TrackedMut<'a, T> {
    type Call = T::Call;

    type Key = ();

    type Answer = T::Answer;

    ghost key_of = { λ _. tt };

    ghost answers = { λ s. T.answers (place_of s).now };

    ghost did = { λ s t W. ⟦<T as Written>⟧.did (place_of s).now (place_of t).now W
        × ((place_of t).ghost_name ≡ (place_of s).ghost_name) };

    ghost alike = { λ s. T.alike (place_of s).now };

    ghost starts = { λ s. (refl, refl) };

    ghost joins = { λ s t u V W a b. (
      done_both T.wrote T.Call.is_write T.Call.touches T.Answer.eq T.answers
          (place_of s).now (place_of t).now (place_of u).now V W a.0 b.0,
      b.1 ∙ a.1,
    ) };

    ghost keeps = { λ s t W a.
        done_keeps T.wrote T.Call.is_write T.Call.touches T.Answer.eq T.answers T.Answer.Eq.laws (place_of s).now (place_of t).now W a.0 };

    ghost keeps_key = { λ _ _ _ _. refl };

    fn key(&self) -> Result<(), AllocError> {
        Ok(())
    }

    fn call(&mut self, call: &T::Call) -> Result<T::Answer, AllocError> {
        self.read(call)
    }

    fn call_mut(&mut self, call: &T::Call) -> Result<(), AllocError> {
        self.value.call_mut(call)
    }
}

/// A reference to a writing view: an input like the view, for a place to which the view can't be moved.
impl<'a, T: Track> Input for &mut TrackedMut<'a, T> {
    type Call = T::Call;

    type Key = ();

    type Answer = T::Answer;

    ghost key_of = { λ _. tt };

    ghost answers = { λ s. T.answers (place_of s.now).now };

    ghost did = { λ s t W. ⟦<T as Written>⟧.did (place_of s.now).now (place_of t.now).now W
        × ((place_of t.now).ghost_name ≡ (place_of s.now).ghost_name)
        × (t.ghost_name ≡ s.ghost_name) };

    ghost alike = { λ s. T.alike (place_of s.now).now };

    ghost starts = { λ s. (refl, refl, refl) };

    ghost joins = { λ s t u V W a b. (
      done_both T.wrote T.Call.is_write T.Call.touches T.Answer.eq T.answers
          (place_of s.now).now (place_of t.now).now (place_of u.now).now V W a.0 b.0,
      b.1 ∙ a.1,
      b.2 ∙ a.2,
    ) };

    ghost keeps = { λ s t W a.
        done_keeps T.wrote T.Call.is_write T.Call.touches T.Answer.eq T.answers T.Answer.Eq.laws (place_of s.now).now (place_of t.now).now W a.0 };

    ghost keeps_key = { λ _ _ _ _. refl };

    fn key(&self) -> Result<(), AllocError> {
        Ok(())
    }

    fn call(&mut self, call: &T::Call) -> Result<T::Answer, AllocError> {
        (**self).read(call)
    }

    fn call_mut(&mut self, call: &T::Call) -> Result<(), AllocError> {
        (**self).value.call_mut(call)
    }
}

/// An untracked value: an input that is a key only, told apart by its `Eq`. Contracts see it as the value.
///
/// Its only call is `()`, whose answer carries nothing. A clone of the value must be equal to it.
#[derive(Drop)]
pub struct Hashed<T: Clone + Eq + Hash>(pub T);

impl<T: Clone + Eq + Hash> Model for Hashed<T> {
    ghost Value = { T };

    ghost coded = { T.code };

    ghost view = { λ s. s.0 };

    ghost invariant = { λ _. (x y : T) → T.is_clone x y → IsTrue (T.eq x y) };
}

impl<T: Clone + Eq + Hash> Input for Hashed<T> {
    type Call = ();

    type Key = T;

    type Answer = ();

    ghost key_of = { λ s. s };

    ghost answers = { λ _ _. tt };

    ghost did = { λ s t _. t ≡ s };

    ghost alike = { λ _ _ _ _. refl };

    ghost starts = { λ _. refl };

    ghost joins = { λ s t u V W a b. b ∙ a };

    ghost keeps = { λ _ _ _ _ _ _ _. refl };

    ghost keeps_key = { λ s t W a. equal_if_one T.Eq.laws _ _ a };

    fn key(&self) -> Result<T, AllocError> {
        self.0.clone()
    }

    fn call(&mut self, _call: &()) -> Result<(), AllocError> {
        Ok(())
    }

    fn call_mut(&mut self, _call: &()) -> Result<(), AllocError> {
        // Never called: `()` is a read.
        Ok(())
    }
}
