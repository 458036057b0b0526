//! Rounds: while a value stays as it is, each output that is asked of it is looked up or computed once.
ghost use Rattle.std.specs.Prelude.{◌≡◌, [], IsTrue, IfOk, IfErr, None, OnOk, OnErr, option_copied, IfSome, ⊤};
ghost use Rattle.std.specs.Map.{lookup};
ghost use Rattle.comemo.specs.Rounds.{Learns, OnOutput, OnNeeded, FailsBy};
ghost use Rattle.comemo_base.specs.Sequence.{held};
ghost use Rattle.comemo_track.specs.Answered.{StaysKnown};

use crate::known::{Known, Query, Unknown};
use crate::pending::Fault;
use crate::turn::Turn;
use crate::waiting::{Queue, Trail};
use comemo_track::answer::Answer;
use comemo_track::track::Track;
use std::alloc::{AllocError, Global};
use std::collections::HashMap;
use std::hash::Hash;
use std::marker::{Model, PhantomData};
use std::mem;

/// Why an output could not be made known.
#[derive(Clone, Copy, Drop, Debug, PartialEq, Eq)]
pub enum RoundError<K> {
    /// A function failed, or memory ran out.
    Fault(Fault),
    /// The output at this key needs itself.
    Circle(K),
}

/// Lets `?` pass on a fault.
impl<K> From<Fault> for RoundError<K> {
    ghost use Rattle.std.specs.Prelude.{◌≡◌};
    ghost use Rattle.comemo.specs.declared.round.RoundError.TheVariants as error;

    ghost from_gives = { λ fault e. e ≡ error.Fault fault };

    fn from(fault: Fault) -> RoundError<K> {
        RoundError::Fault(fault)
    }
}

/// Lets `?` pass on a failure to allocate.
impl<K> From<AllocError> for RoundError<K> {
    ghost use Rattle.std.specs.Prelude.{◌≡◌};
    ghost use Rattle.comemo.specs.declared.pending.Fault.TheVariants.{Memory};
    ghost use Rattle.comemo.specs.declared.round.RoundError.TheVariants as error;

    ghost from_gives = { λ _ e. e ≡ error.Fault Memory };

    fn from(_error: AllocError) -> RoundError<K> {
        RoundError::Fault(Fault::Memory)
    }
}

/// The functions of a query, with their caches and needs.
pub trait Provider<T: Track, Q: Query<T>> {
    ghost use Rattle.comemo.specs.declared.pending.Fault.{Fault};

    // the faults that the function of a key may have, besides want of memory
    ghost fails: { Q.At → Fault → Type 0 } = { λ _ _. ⊤ };

    /// Calls the function of a key by `Turn::call`. Fails if that does.
    fn provide(
        &mut self,
        key: &Q::At,
        turn: &mut Turn<'_, Known<'_, T, Q>>,
    ) -> Result<Q::Output, Fault>
        ensures same { turn.new ≡ turn.old }
        ensures gives { IfOk result (λ output.
            IsTrue (Q.Output.eq (Q.gives key.now (T.answers turn.old)) output)) }
        ensures fault { IfErr result (fails key.now) };
}

/// A round: a value, which can't change while the round lasts, and the outputs of a query that are known at it.
/// Contracts see the value, and the known outputs by their keys.
#[derive(Drop)]
pub struct Round<'a, T: Track, Q: Query<T>> {
    alloc: Global,
    of: &'a T,
    table: HashMap<Q::At, Q::Output>,
    query: PhantomData<Q>,
}

impl<'a, T: Track, Q: Query<T>> Model for Round<'a, T, Q> {
    ghost use Rattle.comemo_track.specs.Answered.{Answered, answered_code, IsAnswered};
    ghost use Rattle.std.specs.Prelude.{false};

    ghost Value = { Answered T Q.At Q.Output };

    ghost coded = { answered_code T.code Q.At.code Q.Output.code };

    ghost view = { λ s. record { value = s.of.now; known = s.table.entries } };

    ghost invariant = { λ s. IsAnswered Q.At.eq (λ _. false) Q.Output.eq
        (λ at. Q.gives at (T.answers s.of.now)) s.table.entries };
}

/// What became of a turn of a call.
#[derive(Drop, Debug)]
pub enum Turned<K, O> {
    /// It returned this output.
    Output(O),
    /// The output at this key has to be known first.
    Needs(K),
}

impl<'a, T: Track, Q: Query<T>> Round<'a, T, Q> {
    /// A round at a value, in which no output is known yet. Does not allocate.
    pub fn new(alloc: Global, of: &'a T) -> Self
        ensures value { result.value ≡ of.now }
        ensures known { result.known ≡ [] }
    {
        Round {
            alloc,
            of,
            table: HashMap::new(alloc),
            query: PhantomData,
        }
    }

    /// The value.
    pub fn value(&self) -> &'a T
        ensures { result.now ≡ self.now.value }
    {
        self.of
    }

    /// The allocator.
    pub fn alloc(&self) -> Global {
        self.alloc
    }

    /// The known output at a key, if there is one.
    pub fn get(&self, key: &Q::At) -> Option<&Q::Output>
        ensures known { option_copied result ≡ lookup (Q.At.eq key.now) self.now.known }
        ensures right { IfSome result (λ output.
            IsTrue (Q.Output.eq (Q.gives key.now (T.answers self.now.value)) output.now)) }
    {
        self.table.get(key)
    }

    /// Makes the output at a key known. Fails if out of memory; then nothing changed.
    pub fn learn(&mut self, key: Q::At, output: Q::Output) -> Result<(), AllocError>
        requires { IsTrue (Q.Output.eq (Q.gives key (T.answers self.old.value)) output) }
        ensures value { self.new.value ≡ self.old.value }
        ensures learns { OnOk result (Learns Q.At.eq self.old.known key output self.new.known) }
        ensures err { OnErr result (self.new ≡ self.old) }
    {
        self.table.insert(key, output)?;
        Ok(())
    }

    /// Calls the function of a key, or says which output it needs first. What its look-up asked is on the trail, from a
    /// place on. Fails if the function does.
    pub fn take_turn<P: Provider<T, Q>>(
        &self,
        provider: &mut P,
        key: &Q::At,
        trail: &mut Trail<Unknown<'a, T, Q>>,
        start: usize,
    ) -> Result<Turned<Q::At, Q::Output>, Fault>
        requires { trail.old ≡ self.now.value }
        ensures same { trail.new ≡ trail.old }
        ensures gives { IfOk result (λ turned. OnOutput turned (λ output.
            IsTrue (Q.Output.eq (Q.gives key.now (T.answers self.now.value)) output))) }
        ensures needs { IfOk result (λ turned. OnNeeded turned (λ needed.
            lookup (Q.At.eq needed) self.now.known ≡ None)) }
        ensures fault { IfErr result (P.fails key.now) }
    {
        let known = Known::new(self.of, &self.table);
        let pairs = mem::replace(trail, Trail::empty(self.alloc, self.of)).into_pairs();
        let mut turn = Turn::new(self.alloc, &known, pairs, start);
        let provided = provider.provide(key, &mut turn);
        *trail = Trail::new(Unknown::new(self.of), turn.into_trail());
        match provided {
            Ok(output) => Ok(Turned::Output(output)),
            Err(fault) => {
                let needed = self.needed_first(known.into_missing(), fault)?;
                Ok(Turned::Needs(needed))
            }
        }
    }

    /// The key whose output a turn missed, if that isn't known; else the turn's fault.
    fn needed_first(&self, missing: Option<Q::At>, fault: Fault) -> Result<Q::At, Fault>
        ensures needs { IfOk result (λ needed.
            lookup (Q.At.eq needed) self.now.known ≡ None) }
        ensures fault { IfErr result (λ f. f ≡ fault) }
    {
        match missing {
            // A clause knows nothing of the cell that the key comes from, so it is looked up once more.
            Some(needed) if self.get(&needed).is_none() => Ok(needed),
            _ => Err(fault),
        }
    }

    /// The output at a key: it is known, or it is looked up or computed now, after each output that it needs.
    ///
    /// Fails if a function does, if out of memory, or if an output needs itself; what became known stays known. The keys
    /// that wait are on the heap, so the stack doesn't grow with the depth of calls.
    pub fn output<P: Provider<T, Q>>(
        &mut self,
        provider: &mut P,
        key: Q::At,
    ) -> Result<Q::Output, RoundError<Q::At>>
        ensures value { self.new.value ≡ self.old.value }
        ensures gives { IfOk result (λ output.
            IsTrue (Q.Output.eq (Q.gives key (T.answers self.old.value)) output)) }
        ensures known { OnOk result (IsTrue (held Q.At.eq self.new.known key)) }
        ensures stays { StaysKnown Q.At.eq self.old.known self.new.known }
        ensures err { IfErr result (FailsBy P.fails) }
    {
        if let Some(output) = self.get(&key) {
            return Ok(output.clone()?);
        }
        // The keys wait one for the next, so their trails stand one after another.
        let mut trail = Trail::empty(self.alloc, self.of);
        let mut queue = Queue::new(self.alloc);
        queue.add(key.clone()?, 0)?;
        for _i in 0..u64::MAX {
            let Some(waiting) = queue.pop() else {
                break;
            };
            match self.take_turn(provider, &waiting.key, &mut trail, waiting.start)? {
                Turned::Output(output) => {
                    trail.truncate(waiting.start);
                    self.learn(waiting.key, output)?;
                }
                Turned::Needs(needed) => {
                    queue.again(waiting)?;
                    queue.add(needed, trail.len())?;
                }
            }
        }
        match self.get(&key) {
            Some(output) => Ok(output.clone()?),
            None => Err(RoundError::Fault(Fault::Memory)),
        }
    }
}
