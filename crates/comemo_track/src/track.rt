//! Tracked values, their calls, and the sinks that record the calls. Making a view does not allocate today, though it
//! takes `alloc`. A call allocates what its value and its sink do.
ghost use Rattle.std.specs.Prelude.{◌≡◌, ◌≤◌, ◌+◌, ◌^◌, ◌||◌, ◌⊎◌, ℕ, [], ◌∷◌, ◌++◌, List, Bool, true, false, not, length, Some, is_none, IsTrue, IsOk, IfOk, OnOk, OnErr, ⊤, refl};
ghost use Rattle.std.proofs.Common.{◌∙◌, inl};
ghost use Rattle.comemo_base.specs.Answers.{Respects};
ghost use Rattle.comemo_base.specs.Sequence.{held};
ghost use Rattle.comemo_track.specs.Calls.{CallLaws};
ghost use Rattle.comemo_track.specs.Sending.{sent_pairs, sent_writes, Asks, BreaksOff, SpoiledAfter, TookAs};
ghost use Rattle.comemo_track.specs.Views.{value_of, sink_of, place_of, place_in, writing_sink_of};
ghost use Rattle.comemo_track.specs.Writing.{SameReads, Done};

use crate::answer::Answer;
use crate::tracked::Tracked;
use crate::writing::{TrackedMut, TrackedMutWith};
use std::alloc::{AllocError, Global};
use std::fmt;
use std::fmt::Debug;
use std::hash::Hash;
use std::marker::{Model, PhantomData};

/// A call to a tracked value: a read, which has an answer, or a write, which changes the value.
///
/// Calls are told apart by their `Eq`; a clone is equal to its original.
pub trait Call: Clone + Eq + Hash {
    // whether the call is a write
    ghost is_write: { Self → Bool };

    /// Whether the call is a write.
    fn is_mutable(&self) -> bool
        ensures { result ≡ is_write self.now };

    // whether a write touches a read, whose answer it may change
    ghost touches: { Self → Self → Bool };

    /// Whether a write may change the answer of a read. Matters for a write and a read only.
    fn touches(&self, read: &Self) -> bool
        ensures { result ≡ touches self.now read.now };

    // equal calls are both reads or both writes, and a clone is equal
    ghost laws: { CallLaws Self.eq Self.is_clone is_write };
}

/// The only call of a value that has nothing to ask: a read.
impl Call for () {
    ghost use Rattle.std.proofs.Common.{rules};

    ghost is_write = { λ _. false };

    ghost touches = { λ _ _. false };

    ghost laws = { Prim.search rules };

    fn is_mutable(&self) -> bool {
        false
    }

    fn touches(&self, _read: &()) -> bool {
        false
    }
}

/// What records calls, as a recording does.
///
/// Contracts describe a sink by what it took: `took s t P W` says that t is s after it took the pairs P, each a read
/// with its answer, and then the writes W.
pub trait Sink {
    /// The calls that are recorded.
    type Call: Call;

    /// The answer to a read: one type for all calls.
    type Answer: Clone + Ord;

    // t is s after it took these pairs and these writes
    ghost took: { Self → Self → List (Self.Call × Self.Answer) → List Self.Call → Type 0 };

    // t is s, marked incomplete
    ghost spoils: { Self → Self → Type 0 };

    // t is s, marked late
    ghost lates: { Self → Self → Type 0 };

    // whether a read is held, so that it is not taken again
    ghost holds: { Self → Self.Call → Bool };

    // how many writes it takes without failing
    ghost room: { Self → ℕ };

    /// Records a read with its answer, or a write with `None`.
    ///
    /// Returns false for a read that is held already, which isn't taken again, and otherwise true. On error nothing
    /// changes, and the call and its answer are dropped.
    fn emit(&mut self, call: Self::Call, answer: Option<Self::Answer>) -> Result<bool, AllocError>
        requires answered { is_none answer ≡ Self.Call.is_write call }
        ensures ok { OnOk result
            (took self.old self.new (sent_pairs call answer) (sent_writes call answer)) }
        ensures new { IfOk result (λ new. new ≡ (is_none answer || not (holds self.old call))) }
        ensures err { OnErr result (took self.old self.new [] []) }
        ensures succeeds { IsTrue (is_none answer) → 1 ≤ room self.old → IsOk result }
        ensures room { room self.old ≤ room self.new + length (sent_writes call answer) };

    /// Makes room for this many writes, so that emitting them succeeds. Changes nothing else.
    fn reserve(&mut self, writes: usize) -> Result<(), AllocError>
        ensures ok { OnOk result (writes ≤ room self.new) }
        ensures same { took self.old self.new [] [] };

    /// Marks the sink as incomplete: the recording is never stored.
    fn spoil(&mut self)
        ensures { spoils self.old self.new };

    /// Marks the sink as late: the recording is never stored.
    fn late(&mut self)
        ensures { lates self.old self.new };

    /// Whether the sink ignores all that it takes, so that a caller needn't clone for it. False is always right.
    fn keeps_nothing(&self) -> bool
        ensures { IsTrue result
            → (P : List (Self.Call × Self.Answer)) (W : List Self.Call)
            → took self.now self.now P W }
    {
        false
    }

    // taking nothing changes nothing
    ghost starts: { (s : Self) → took s s [] [] };

    // what is taken after reads only joins them
    ghost joins: { (s t u : Self)
        (P Q : List (Self.Call × Self.Answer)) (W : List Self.Call)
        → took s t P [] → took t u Q W → took s u (P ++ Q) W };

    // writes taken later join what was taken before
    ghost adds: { (s t u : Self)
        (P : List (Self.Call × Self.Answer)) (V W : List Self.Call)
        → took s t P V → took t u [] W → took s u P (V ++ W) };

    // what is held stays held
    ghost keeps: { (s t : Self)
        (P : List (Self.Call × Self.Answer)) (W : List Self.Call) (call : Self.Call)
        → took s t P W → IsTrue (holds s call) → IsTrue (holds t call) };

    // no answer is taken for a read that is held
    ghost held_again: { (s t : Self) (call : Self.Call) (answer other : Self.Answer)
        → IsTrue (holds s call) → took s t ((call, answer) ∷ []) []
        → took s t ((call, other) ∷ []) [] };

    // what is held was held before, or was taken
    ghost holds_taken: { (s t : Self)
        (P : List (Self.Call × Self.Answer)) (W : List Self.Call) (call : Self.Call)
        → took s t P W → IsTrue (holds t call)
        → IsTrue (holds s call) ⊎ IsTrue (held Self.Call.eq P call) };

    // an incomplete sink holds what it held
    ghost spoiled_holds: { (s t : Self) (call : Self.Call)
        → spoils s t → holds t call ≡ holds s call };

    // so does a late one
    ghost late_holds: { (s t : Self) (call : Self.Call)
        → lates s t → holds t call ≡ holds s call };
}

/// What a sink is after a failure, for contracts, as `⟦<S as Breaking>⟧.breaks_off`. There is nothing to implement.
pub trait Breaking: Sink {
    // t is s after it took a prefix of these pairs, and was then marked incomplete
    ghost breaks_off: { Self → Self → List (Self.Call × Self.Answer) → Type 0 };

    // t is s after it took these pairs and writes, and was then marked incomplete
    ghost spoiled_after: { Self → Self
        → List (Self.Call × Self.Answer) → List Self.Call → Type 0 };

    // t is s after it took these pairs and writes, and was marked late if they are
    ghost took_as: { Bool → Self → Self
        → List (Self.Call × Self.Answer) → List Self.Call → Type 0 };
}

impl<S: Sink> Breaking for S {
    ghost breaks_off = { BreaksOff S.took S.spoils };

    ghost spoiled_after = { SpoiledAfter S.took S.spoils };

    ghost took_as = { TookAs S.took S.lates };
}

/// A sink by reference.
impl<S: Sink> Sink for &mut S {
    type Call = S::Call;

    type Answer = S::Answer;

    ghost took = { λ s t P W. S.took s.now t.now P W × (t.ghost_name ≡ s.ghost_name) };

    ghost spoils = { λ s t. S.spoils s.now t.now × (t.ghost_name ≡ s.ghost_name) };

    ghost lates = { λ s t. S.lates s.now t.now × (t.ghost_name ≡ s.ghost_name) };

    ghost holds = { λ s call. S.holds s.now call };

    ghost starts = { λ s. (S.starts s.now, refl) };

    ghost joins = { λ s t u P Q W a b. (S.joins s.now t.now u.now P Q W a.0 b.0, b.1 ∙ a.1) };

    ghost adds = { λ s t u P V W a b. (S.adds s.now t.now u.now P V W a.0 b.0, b.1 ∙ a.1) };

    ghost keeps = { λ s t P W call a h. S.keeps s.now t.now P W call a.0 h };

    ghost held_again = { λ s t call answer other h a.
        (S.held_again s.now t.now call answer other h a.0, a.1) };

    ghost holds_taken = { λ s t P W call a h. S.holds_taken s.now t.now P W call a.0 h };

    ghost spoiled_holds = { λ s t call a. S.spoiled_holds s.now t.now call a.0 };

    ghost late_holds = { λ s t call a. S.late_holds s.now t.now call a.0 };

    ghost room = { λ s. S.room s.now };

    fn emit(&mut self, call: S::Call, answer: Option<S::Answer>) -> Result<bool, AllocError>
        requires answered { is_none answer ≡ S.Call.is_write call }
        ensures ok { OnOk result
            (S.took self.old.now self.new.now (sent_pairs call answer) (sent_writes call answer)
            × (self.new.ghost_name ≡ self.old.ghost_name)) }
        ensures new { IfOk result
            (λ new. new ≡ (is_none answer || not (S.holds self.old.now call))) }
        ensures err { OnErr result
            (S.took self.old.now self.new.now [] [] × (self.new.ghost_name ≡ self.old.ghost_name)) }
        ensures succeeds { IsTrue (is_none answer) → 1 ≤ S.room self.old.now → IsOk result }
        ensures room { S.room self.old.now
            ≤ S.room self.new.now + length (sent_writes call answer) }
    {
        (**self).emit(call, answer)
    }

    fn reserve(&mut self, writes: usize) -> Result<(), AllocError>
        ensures ok { OnOk result (writes ≤ S.room self.new.now) }
        ensures same { S.took self.old.now self.new.now [] []
            × (self.new.ghost_name ≡ self.old.ghost_name) }
    {
        (**self).reserve(writes)
    }

    fn spoil(&mut self) {
        (**self).spoil();
    }

    fn late(&mut self) {
        (**self).late();
    }

    fn keeps_nothing(&self) -> bool {
        (**self).keeps_nothing()
    }
}

/// A sink that ignores all that it takes, for calls outside of any memoized function. Never fails.
#[derive(Drop)]
pub struct Top<C, R> {
    calls: PhantomData<C>,
    answers: PhantomData<R>,
}

impl<C, R> Top<C, R> {
    /// A new such sink.
    pub fn new() -> Self {
        Top {
            calls: PhantomData,
            answers: PhantomData,
        }
    }
}

impl<C: Call, R: Clone + Ord> Sink for Top<C, R> {
    type Call = C;

    type Answer = R;

    ghost took = { λ _ _ _ _. ⊤ };

    ghost spoils = { λ _ _. ⊤ };

    ghost lates = { λ _ _. ⊤ };

    ghost holds = { λ _ _. false };

    ghost starts = { λ _. tt };

    ghost joins = { λ _ _ _ _ _ _ _ _. tt };

    ghost adds = { λ _ _ _ _ _ _ _ _. tt };

    ghost keeps = { λ _ _ _ _ _ _ h. h };

    ghost held_again = { λ _ _ _ _ _ _ _. tt };

    ghost holds_taken = { λ _ _ _ _ _ _ h. inl h };

    ghost spoiled_holds = { λ _ _ _ _. refl };

    ghost late_holds = { λ _ _ _ _. refl };

    // more than can be asked for
    ghost room = { λ _. 2 ^ 64 };

    fn emit(&mut self, call: C, answer: Option<R>) -> Result<bool, AllocError>
        requires answered { is_none answer ≡ C.is_write call }
        ensures { result ≡ Ok true }
    {
        let _ = (call, answer);
        Ok(true)
    }

    fn reserve(&mut self, writes: usize) -> Result<(), AllocError>
        ensures succeeds { result ≡ Ok tt }
        ensures ok { OnOk result (writes ≤ 2 ^ 64) }
    {
        let _ = writes;
        Ok(())
    }

    fn spoil(&mut self) {}

    fn late(&mut self) {}

    fn keeps_nothing(&self) -> bool
        ensures { result ≡ true }
    {
        true
    }
}

/// A value whose calls are tracked.
///
/// An implementation states by `answers` the answer to each read; its answers to writes don't matter. A type with
/// writes states by `wrote` what each does, and does it in `call_mut`; a type without writes has neither.
pub trait Track {
    /// What can be asked or written.
    type Call: Call;

    /// The answer to a read: one type for all calls.
    type Answer: Answer;

    // what the value answers
    ghost answers: { Self → Self.Call → Self.Answer };

    /// The answer to a read. Changes nothing, even on error. Never gets a write.
    fn ask(&self, call: &Self::Call) -> Result<Self::Answer, AllocError>
        ensures { Self.Call.is_write call.now ≡ false
            → IfOk result (λ answer. IsTrue (Self.Answer.eq (answers self.now call.now) answer)) };

    // what a write does: the value before it, the write, and the value after it
    ghost wrote: { Self → Self.Call → Self → Type 0 } = { λ _ _ _. ⊤ };

    /// Does a write, which may only change the answers of reads that it touches. On error nothing changes. Never gets a
    /// read.
    ///
    /// A type without writes omits this method.
    fn call_mut(&mut self, call: &Self::Call) -> Result<(), AllocError>
        ensures ok { Self.Call.is_write call.now ≡ true
            → OnOk result (wrote self.old call.now self.new) }
        ensures reads { OnOk result
            (SameReads Self.Call.is_write (Self.Call.touches call.now) Self.Answer.eq
            (answers self.old) (answers self.new)) }
        ensures err { OnErr result (self.new ≡ self.old) }
    {
        let _ = call;
        Err(AllocError)
    }

    /// A view of the value that keeps the answers it gets, for `begin` and `memoize`. Does not allocate.
    final fn track(&self, alloc: Global) -> Tracked<'_, Self>
    where
        Self: Sized,
        ensures value { result.value ≡ self.now }
        ensures none { result.known ≡ [] }
    {
        Tracked::new(alloc, self)
    }

    /// A view of the value that asks it each time, for all else.
    final fn view(&self, alloc: Global) -> View<'_, Self>
    where
        Self: Sized,
        ensures { result ≡ self.now }
    {
        let _ = alloc;
        View { value: self }
    }

    /// A view of the value that sends its reads to a sink, which it borrows. It keeps no answers.
    final fn track_with<'a, S: Sink<Call = Self::Call, Answer = Self::Answer>>(
        &'a self,
        alloc: Global,
        sink: &'a mut S,
    ) -> TrackedWith<'a, Self, S>
    where
        Self: Sized,
        ensures value { value_of result ≡ self.now }
        ensures sink { (sink_of result).now ≡ sink.old }
        ensures same { (sink_of result).ghost_name ≡ sink.entry.ghost_name }
    {
        let _ = alloc;
        TrackedWith { value: self, sink }
    }

    /// A view of the value that reads and writes.
    final fn track_mut(&mut self, alloc: Global) -> TrackedMut<'_, Self>
    where
        Self: Sized,
        ensures value { (place_of result).now ≡ self.old }
        ensures same { (place_of result).ghost_name ≡ self.entry.ghost_name }
    {
        let _ = alloc;
        TrackedMut { value: self }
    }

    /// A view of the value that reads and writes, and sends its calls to a sink, which it borrows.
    final fn track_mut_with<'a, S: Sink<Call = Self::Call, Answer = Self::Answer>>(
        &'a mut self,
        alloc: Global,
        sink: &'a mut S,
    ) -> TrackedMutWith<'a, Self, S>
    where
        Self: Sized,
        ensures value { (place_in result).now ≡ self.old }
        ensures same_value { (place_in result).ghost_name ≡ self.entry.ghost_name }
        ensures sink { (writing_sink_of result).now ≡ sink.old }
        ensures same_sink { (writing_sink_of result).ghost_name ≡ sink.entry.ghost_name }
    {
        let _ = alloc;
        TrackedMutWith { value: self, sink }
    }

    // equal calls have equal answers
    ghost alike: { (s : Self) → Respects Self.Call.eq Self.Answer.eq (answers s) };
}

/// What writes do to a tracked value, for contracts, as `⟦<T as Written>⟧.did`. There is nothing to implement.
pub trait Written: Track {
    // t is s after these writes, in order; a read that none touches keeps its answer
    ghost did: { Self → Self → List Self.Call → Type 0 };
}

impl<T: Track> Written for T {
    ghost did = { Done T.wrote T.Call.is_write T.Call.touches T.Answer.eq T.answers };
}

/// Nothing: the tracked value of a function that asks nothing. Never fails.
impl Track for () {
    type Call = ();

    type Answer = ();

    ghost use Rattle.std.proofs.Common.{rules};

    ghost answers = { λ _ _. tt };

    ghost alike = { λ _ _ _ _. refl };

    fn ask(&self, _call: &()) -> Result<(), AllocError> {
        Ok(())
    }
}

/// A read-only view of a tracked value, which is asked each time; a `Tracked` keeps answers. Contracts see it as the
/// value. It doesn't lend the value.
#[derive(Drop)]
pub struct View<'a, T> {
    pub(crate) value: &'a T,
}

impl<'a, T> Model for View<'a, T> {
    ghost Value = { T };

    ghost coded = { T.code };

    ghost view = { λ s. s.value.now };
}

impl<'a, T: Track> View<'a, T> {
    /// Asks the value a read, and sends the call with its answer to a sink.
    ///
    /// The value is asked once, even if the sink holds the read. Fails if the answer, its clone or the sink does; the
    /// sink is then unchanged.
    pub fn ask<S: Sink<Call = T::Call, Answer = T::Answer>>(
        &mut self,
        call: T::Call,
        sink: &mut S,
    ) -> Result<T::Answer, AllocError>
        requires { T.Call.is_write call ≡ false }
        ensures ok { IfOk result (λ answer. Asks T.Answer.eq (T.answers self.old) call answer
            (S.took sink.old sink.new)) }
        ensures err { OnErr result (S.took sink.old sink.new [] []) }
        ensures same { self.new ≡ self.old }
    {
        let answer = self.value.ask(&call)?;
        let noted = answer.clone()?;
        let _ = sink.emit(call, Some(noted))?;
        Ok(answer)
    }

    /// The answer to a read, which isn't recorded: for look-ups.
    pub(crate) fn read(&self, call: &T::Call) -> Result<T::Answer, AllocError>
        ensures { T.Call.is_write call.now ≡ false
            → IfOk result (λ answer. IsTrue (T.Answer.eq (T.answers self.now call.now) answer)) }
    {
        self.value.ask(call)
    }

    /// Another view of the same value, for instance for a branch.
    pub fn fork(&self, alloc: Global) -> View<'a, T>
        ensures { result ≡ self.now }
    {
        let _ = alloc;
        View { value: self.value }
    }
}

/// Prints `View(..)`, whatever the value is.
impl<'a, T> Debug for View<'a, T> {
    ghost use Rattle.comemo_track.specs.Views.{view_text};

    ghost debug_output = { λ _. Some view_text };

    fn fmt<W: fmt::Write>(&self, f: &mut fmt::Formatter<W>) -> fmt::Result {
        f.pad("View(..)")
    }
}

/// A `View` with the sink that its reads are sent to. Contracts see `value_of` and `sink_of`.
///
/// It lends neither; the sink is its caller's again when the view is gone.
#[derive(Drop)]
pub struct TrackedWith<'a, T, S> {
    pub(crate) value: &'a T,
    pub(crate) sink: &'a mut S,
}

impl<'a, T: Track, S: Sink<Call = T::Call, Answer = T::Answer>> TrackedWith<'a, T, S> {
    /// Asks the value a read, and sends the call with its answer to the view's sink, as `View::ask` does.
    pub fn ask(&mut self, call: T::Call) -> Result<T::Answer, AllocError>
        requires { T.Call.is_write call ≡ false }
        ensures ok { IfOk result (λ answer.
            Asks T.Answer.eq (T.answers (value_of self.old)) call answer
            (S.took (sink_of self.old).now (sink_of self.new).now)) }
        ensures err { OnErr result (S.took (sink_of self.old).now (sink_of self.new).now [] []) }
        ensures value { value_of self.new ≡ value_of self.old }
        ensures same { (sink_of self.new).ghost_name ≡ (sink_of self.old).ghost_name }
    {
        let mut view = View { value: self.value };
        view.ask(call, self.sink)
    }
}

/// Prints `Tracked(..)`, whatever the value is.
impl<'a, T, S> Debug for TrackedWith<'a, T, S> {
    ghost use Rattle.comemo_track.specs.Views.{tracked_text};

    ghost debug_output = { λ _. Some tracked_text };

    fn fmt<W: fmt::Write>(&self, f: &mut fmt::Formatter<W>) -> fmt::Result {
        f.pad("Tracked(..)")
    }
}
