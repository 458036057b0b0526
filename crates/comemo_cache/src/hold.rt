//! What gives a call access to a cache: the cache itself, or a share of one that threads share.
ghost use Rattle.std.specs.Prelude.{◌≡◌, [], Option, Some, true, false, IfOk, IfErr, OnOk, OnErr, IfSome, MatchOption, List};
ghost use Rattle.std.specs.List.{All};
ghost use Rattle.comemo_base.specs.Answers.{Agrees};
ghost use Rattle.comemo_base.specs.Lookup.{under, IsRefused};
ghost use Rattle.comemo_base.specs.Insertion.{IsReason};
ghost use Rattle.comemo_base.specs.Tree.{IsTree};
ghost use Rattle.comemo_base.specs.declared.insertion.InsertError.TheVariants.{MissingCall};
ghost use Rattle.comemo_cache.specs.Meaning.{IsNamed, IsNamedRun, exactly, invocation, run};
ghost use Rattle.comemo_cache.specs.Cache.{Entries, Stands, HasNone, HasAged, IsPeeked, TouchesAt};
ghost use Rattle.comemo_cache.specs.Explaining.{Explains};
ghost use Rattle.comemo_cache.specs.Storing.{Stores};
ghost use Rattle.comemo_cache.specs.Held.{Held, Leads, Stays};

use crate::cache::{CacheData, Found, Function, Meant, Peeked};
use crate::explain::Explanation;
use comemo_base::{CallSequence, InsertError};
use comemo_track::input::Input;
use comemo_track::track::Call;
use std::alloc::{AllocError, Global};

/// The reads of a run, which are a `CallSequence`.
///
/// A trait for this single type, since a method of `Hold` can't name it: the checker doesn't cover a trait's method
/// whose argument has a map in it.
pub trait Reads {
    /// What was asked.
    type Call: Call;

    /// The answers.
    type Answer: Clone + Ord;

    // the pairs, in the order in which they were asked
    ghost pairs: { Self → List (Self.Call × Self.Answer) };

    /// The sequence itself.
    fn into_sequence(self) -> CallSequence<Self::Call, Self::Answer>
        ensures { result.pairs ≡ pairs self };
}

impl<C: Call, R: Clone + Ord> Reads for CallSequence<C, R> {
    type Call = C;

    type Answer = R;

    ghost pairs = { λ s. s.pairs };

    fn into_sequence(self) -> CallSequence<C, R> {
        self
    }
}

/// Access to the cache of a call: a `CacheData`, owned by the caller, or a `Shared`, which takes a lock in each step.
///
/// A call only looks, peeks, touches and stores. If the entries are known, contracts state what each step does to them.
pub trait Hold<M: Function> {
    // the entries, if nothing else can change them
    ghost entries: { Self → Option (Entries M.Key M.Call M.Answer M.Out) };

    /// As `CacheData::look`.
    fn look<In: Input<Call = M::Call, Key = M::Key, Answer = M::Answer>>(
        &mut self,
        key: &M::Key,
        input: &mut In,
    ) -> Result<Option<Found<M>>, AllocError>
        ensures same { In.did input.old input.new [] }
        ensures stays { Stays (entries self.old) (entries self.new) }
        ensures tree { Held (entries self.old) (IsTree M.Call.eq M.Answer.eq M.Key.eq) }
        ensures found { IfOk result (λ found. Held (entries self.old) (λ es. MatchOption found
            (HasNone ⟦<M as Meant>⟧.meaning es (invocation key.now (In.answers input.old) true))
            (λ f. HasAged ⟦<M as Meant>⟧.meaning es
            (invocation key.now (In.answers input.old) true)
            (run key.now f.pairs.items f.output f.writes.items) f.age))) }
        ensures stands { IfOk result (λ found. IfSome found (λ f.
            Stands ⟦<M as Meant>⟧.meaning
            (run key.now f.pairs.items f.output f.writes.items))) }
        ensures reads { IfOk result (λ found. IfSome found (λ f.
            All (λ p. M.Call.is_write p.0 ≡ false) f.pairs.items)) }
        ensures written { IfOk result (λ found. IfSome found (λ f.
            All (λ c. M.Call.is_write c ≡ true) f.writes.items)) }
        ensures settled { IfOk result (λ found. IfSome found (λ f.
            IsNamedRun ⟦<M as Meant>⟧.meaning key.now f.pairs.items)) };

    /// As `CacheData::peek`.
    fn peek<In: Input<Call = M::Call, Key = M::Key, Answer = M::Answer>>(
        &mut self,
        key: &M::Key,
        input: &mut In,
    ) -> Result<Option<Peeked<M>>, AllocError>
        ensures same { In.did input.old input.new [] }
        ensures stays { Stays (entries self.old) (entries self.new) }
        ensures tree { Held (entries self.old) (IsTree M.Call.eq M.Answer.eq M.Key.eq) }
        ensures found { IfOk result (λ found. Held (entries self.old) (λ es. MatchOption found
            (HasNone ⟦<M as Meant>⟧.meaning es (invocation key.now (In.answers input.old) true))
            (λ f. IsPeeked ⟦<M as Meant>⟧.meaning es
            (invocation key.now (In.answers input.old) true)
            f.output f.writes.items f.age))) };

    /// As `CacheData::explain`.
    fn explain<In: Input<Call = M::Call, Key = M::Key, Answer = M::Answer>>(
        &mut self,
        alloc: Global,
        key: &M::Key,
        input: &mut In,
    ) -> Result<Explanation<M::Call, M::Answer>, AllocError>
        ensures same { In.did input.old input.new [] }
        ensures stays { Stays (entries self.old) (entries self.new) }
        ensures explains { IfOk result (λ said. Held (entries self.old) (λ es.
            Explains ⟦<M as Meant>⟧.meaning es
            (invocation key.now (In.answers input.old) true) said)) }
        ensures err { OnErr result (Held (entries self.old) (λ es.
            (asked : List (M.Call × M.Answer)) × (next : M.Call)
            × Agrees M.Answer.eq (In.answers input.old) asked
            × IsRefused M.Call.eq M.Answer.eq (under M.Key.eq es key.now) asked next)) };

    /// As `CacheData::touch`.
    fn touch(&mut self, key: &M::Key, answers: &[M::Answer])
        ensures { Leads (entries self.old) (entries self.new)
            (TouchesAt M.Answer.eq M.Key.eq key.now answers.now) };

    /// As `CacheData::store`.
    fn store<Q: Reads<Call = M::Call, Answer = M::Answer>>(
        &mut self,
        key: M::Key,
        reads: Q,
        output: M::Out,
        writes: Vec<M::Call>,
    ) -> Result<(), InsertError>
        requires reads { All (λ p. M.Call.is_write p.0 ≡ false) (Q.pairs reads) }
        requires written { All (λ c. M.Call.is_write c ≡ true) writes.items }
        requires stands { Stands ⟦<M as Meant>⟧.meaning
            (run key (Q.pairs reads) output writes.items) }
        requires settled { IsNamedRun ⟦<M as Meant>⟧.meaning key (Q.pairs reads) }
        ensures stored { OnOk result (Leads (entries self.old) (entries self.new) (λ es es'.
            Stores (exactly ⟦<M as Meant>⟧.meaning) es
            (run key (Q.pairs reads) output writes.items) es')) }
        ensures reason { IfErr result (λ error. Held (entries self.old) (λ es.
            IsReason M.Call.eq M.Answer.eq (under M.Key.eq es key) (Q.pairs reads) error)) }
        ensures named { IfErr result (λ error. error ≡ MissingCall
            → ¬ IsNamed ⟦<M as Meant>⟧.meaning) }
        ensures err { OnErr result (Stays (entries self.old) (entries self.new)) };
}

impl<M: Function> Hold<M> for CacheData<M> {
    ghost entries = { λ s. Some s };

    fn look<In: Input<Call = M::Call, Key = M::Key, Answer = M::Answer>>(
        &mut self,
        key: &M::Key,
        input: &mut In,
    ) -> Result<Option<Found<M>>, AllocError> {
        // For the proof: at most one stored path agrees.
        self.reveal_tree();
        CacheData::look(self, key, input)
    }

    fn peek<In: Input<Call = M::Call, Key = M::Key, Answer = M::Answer>>(
        &mut self,
        key: &M::Key,
        input: &mut In,
    ) -> Result<Option<Peeked<M>>, AllocError> {
        // For the proof: at most one stored path agrees.
        self.reveal_tree();
        CacheData::peek(self, key, input)
    }

    fn explain<In: Input<Call = M::Call, Key = M::Key, Answer = M::Answer>>(
        &mut self,
        alloc: Global,
        key: &M::Key,
        input: &mut In,
    ) -> Result<Explanation<M::Call, M::Answer>, AllocError> {
        CacheData::explain(self, alloc, key, input)
    }

    fn touch(&mut self, key: &M::Key, answers: &[M::Answer]) {
        CacheData::touch(self, key, answers);
    }

    fn store<Q: Reads<Call = M::Call, Answer = M::Answer>>(
        &mut self,
        key: M::Key,
        reads: Q,
        output: M::Out,
        writes: Vec<M::Call>,
    ) -> Result<(), InsertError>
        requires reads { All (λ p. M.Call.is_write p.0 ≡ false) (Q.pairs reads) }
        requires written { All (λ c. M.Call.is_write c ≡ true) writes.items }
        requires stands { Stands ⟦<M as Meant>⟧.meaning
            (run key (Q.pairs reads) output writes.items) }
        requires settled { IsNamedRun ⟦<M as Meant>⟧.meaning key (Q.pairs reads) }
        ensures stored { OnOk result (Stores (exactly ⟦<M as Meant>⟧.meaning) self.old
            (run key (Q.pairs reads) output writes.items) self.new) }
        ensures reason { IfErr result
            (IsReason M.Call.eq M.Answer.eq (under M.Key.eq self.old key) (Q.pairs reads)) }
        ensures named { IfErr result (λ error. error ≡ MissingCall
            → ¬ IsNamed ⟦<M as Meant>⟧.meaning) }
        ensures err { OnErr result (self.new ≡ self.old) }
    {
        CacheData::store(self, key, reads.into_sequence(), output, writes)
    }
}
