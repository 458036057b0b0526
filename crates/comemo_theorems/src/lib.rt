//! What holds in every history of a cache. Each function of this file does nothing when it runs, and what it ensures is
//! a theorem about every memoized function. The functions of the modules are witnesses: their calls are such histories.
#![tactic(auto)]

ghost use Rattle.std.specs.Prelude.{Bool, false};
ghost use Rattle.comemo_theorems.specs.Statements.{NeverStale, HitsAgain, HitsUntilOld, HitsExisting, NothingLost, AsPlainList, ByHand, HitsReplay, FaultsKeep, FaultsSpread, ThroughAnyHolder, FaultsThroughAnyHolder};
ghost use Rattle.comemo_theorems.specs.Coarse.{NeverStaleAtAll, IsPast};

pub mod fibonacci;
pub mod requests;
pub mod requests_mut;

use comemo::internal::{Breaking, Meant, Written};
use comemo::{Function, Sink, Track};

/// In a history from an empty cache, each output and its writes are right at the key and the answers of the call.
pub fn never_stale<M: Function>()
    ensures { NeverStale ⟦<M as Meant>⟧.meaning }
{}

/// As `never_stale`, with less said of a history.
pub fn never_stale_at_all<M: Function>()
    ensures { NeverStaleAtAll ⟦<M as Meant>⟧.meaning }
{}

/// Each history is one as in `never_stale_at_all`.
pub fn is_past<M: Function>()
    ensures { IsPast ⟦<M as Meant>⟧.meaning }
{}

/// After a run was stored, each call that it answers finds an entry, until an eviction whose bound the age reaches.
pub fn hits_again<M: Function>()
    ensures { HitsAgain ⟦<M as Meant>⟧.meaning }
{}

/// What was stored is found again, by its age since it was stored or last hit, in a history from an empty cache.
pub fn hits_until_old<M: Function>()
    ensures { HitsUntilOld ⟦<M as Meant>⟧.meaning }
{}

/// After a run was not stored because one exists, each call that it answers finds an entry, while its age permits.
pub fn hits_existing<M: Function>()
    ensures { HitsExisting ⟦<M as Meant>⟧.meaning }
{}

/// A function that names its calls loses no run: none ends as `MissingCall`.
pub fn nothing_lost<M: Function>()
    ensures { NothingLost ⟦<M as Meant>⟧.meaning }
{}

/// What a call of a function that reads did are steps of a plain list of entries. It was a hit exactly if an entry had
/// the key and agreed.
pub fn as_plain_list<M: Function, S: Sink<Call = M::Call, Answer = M::Answer>>()
    ensures { (s t : S) → AsPlainList ⟦<M as Meant>⟧.meaning M.Call.touches (λ _. S.took s t) }
{}

/// The same of a function that writes: the steps have the writes that were sent and done.
pub fn as_plain_list_mut<M: Function, T, S>()
where
    T: Track<Call = M::Call, Answer = M::Answer>,
    S: Sink<Call = M::Call, Answer = M::Answer>,
    ensures { (v w : T) → (s t : S) → AsPlainList ⟦<M as Meant>⟧.meaning M.Call.touches
        (λ late P W. ⟦<S as Breaking>⟧.took_as late s t P W × ⟦<T as Written>⟧.did v w W) }
{}

/// What `begin` and `finish` did by hand are steps of a plain list, whatever calls came in between.
pub fn by_hand<M: Function, S: Sink<Call = M::Call, Answer = M::Answer>>()
    ensures { (late : Bool) → (s t : S)
        → ByHand ⟦<M as Meant>⟧.meaning (⟦<S as Breaking>⟧.took_as late s t) }
{}

/// A hit returns a clone of the clone that was stored, and does writes that equal those of the stored run.
pub fn hits_replay<M: Function, T: Track<Call = M::Call, Answer = M::Answer>>()
    ensures { HitsReplay ⟦<M as Meant>⟧.meaning ⟦<T as Written>⟧.did }
{}

/// A call that failed did nothing to the entries, or is a hit that stopped at a refused write.
pub fn faults_keep<M: Function, T, S>()
where
    T: Track<Call = M::Call, Answer = M::Answer>,
    S: Sink<Call = M::Call, Answer = M::Answer>,
    ensures { (v w : T) → (s t : S) → FaultsKeep ⟦<M as Meant>⟧.meaning
        (⟦<T as Written>⟧.did v w) (S.spoils s t) (⟦<S as Breaking>⟧.spoiled_after s t) }
{}

/// The run around a call that failed is not finished, so it is not stored.
pub fn faults_spread<M: Function, S: Sink<Call = M::Call, Answer = M::Answer>>()
    ensures { (late : Bool) → (s t : S) → FaultsSpread ⟦<M as Meant>⟧.meaning M.Call.touches
        (⟦<S as Breaking>⟧.took_as late s t) }
{}

/// Through any holder, also a share, a reply but a late one is that of a run that answers the call, and right. So it is
/// under every schedule of threads.
pub fn through_any_holder<M: Function, T, S>()
where
    T: Track<Call = M::Call, Answer = M::Answer>,
    S: Sink<Call = M::Call, Answer = M::Answer>,
    ensures reads { (s t : S)
        → ThroughAnyHolder ⟦<M as Meant>⟧.meaning M.Call.touches (λ _. S.took s t) }
    ensures writes { (v w : T) → (s t : S) → ThroughAnyHolder ⟦<M as Meant>⟧.meaning M.Call.touches
        (λ late P W. ⟦<S as Breaking>⟧.took_as late s t P W × ⟦<T as Written>⟧.did v w W) }
{}

/// Through any holder, a call fails as `faults_keep` says, but for what that says of entries.
pub fn faults_through_any_holder<M: Function, T, S>()
where
    T: Track<Call = M::Call, Answer = M::Answer>,
    S: Sink<Call = M::Call, Answer = M::Answer>,
    ensures { (v w : T) → (s t : S) → FaultsThroughAnyHolder ⟦<M as Meant>⟧.meaning
        (⟦<T as Written>⟧.did v w) (S.spoils s t) (⟦<S as Breaking>⟧.spoiled_after s t) }
{}
