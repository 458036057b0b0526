//! A call of a memoized function in a round.
ghost use Rattle.std.specs.Prelude.{◌≡◌, true, List, IfOk, IfErr, OnErr, ⊤};
ghost use Rattle.comemo_base.specs.Answers.{Agrees};
ghost use Rattle.comemo_base.specs.Lookup.{under, IsRefused};
ghost use Rattle.comemo.specs.Trail.{IsTrail};
ghost use Rattle.comemo_cache.specs.Meaning.{invocation};
ghost use Rattle.comemo_cache.specs.Explaining.{Explains};
ghost use Rattle.comemo_cache.specs.Held.{Held, Stays};
ghost use Rattle.comemo.specs.Called.{HeldReply, HeldFault, SparesNeeds};
ghost use Rattle.comemo.specs.Function.{WritesNone};

use crate::function::{Run, run_kept};
use crate::pending::{Begun, Fault, How, Reply, look_up};
use crate::resumed::Resumed;
use comemo_cache::cache::{Function, Meant};
use comemo_cache::explain::Explanation;
use comemo_cache::hold::Hold;
use comemo_track::track::{Top, Track};
use std::alloc::{AllocError, Global};
use std::marker::Model;
use std::mem;

/// A turn of a call at a value, which stops at an output that isn't known yet: once that is known, there is another
/// turn. Contracts see the value.
///
/// What its look-up asked, the next turn of the same call asks no more.
#[derive(Drop)]
pub struct Turn<'t, V: Track> {
    alloc: Global,
    at: &'t V,
    // what look-ups asked, with the answers: this one from the start on
    trail: Vec<(V::Call, V::Answer)>,
    start: usize,
}

impl<'t, V: Track> Model for Turn<'t, V> {
    ghost use Rattle.comemo.specs.Trail.{IsTrail};

    ghost Value = { V };

    ghost coded = { V.code };

    ghost view = { λ s. s.at.now };

    ghost invariant = { λ s. IsTrail V.Answer.eq (V.answers s.at.now) s.trail.items };
}

impl<'t, V: Track> Turn<'t, V> {
    /// A turn at a value, whose call asked this in earlier turns, from the start on.
    pub(crate) fn new(
        alloc: Global,
        at: &'t V,
        trail: Vec<(V::Call, V::Answer)>,
        start: usize,
    ) -> Self
        requires { IsTrail V.Answer.eq (V.answers at.now) trail.items }
        ensures { result ≡ at.now }
    {
        Turn {
            alloc,
            at,
            trail,
            start,
        }
    }

    /// What the call asked so far, with the answers.
    pub(crate) fn into_trail(self) -> Vec<(V::Call, V::Answer)>
        ensures { IsTrail V.Answer.eq (V.answers self.entry) result.items }
    {
        let Turn {
            alloc: _,
            at: _,
            trail,
            start: _,
        } = self;
        trail
    }

    /// The value.
    pub fn at(&self) -> &'t V
        ensures { result.now ≡ self.now }
    {
        self.at
    }

    /// The allocator.
    pub fn alloc(&self) -> Global {
        self.alloc
    }

    /// Calls a memoized function of the value: returns the output of an entry that agrees, or runs it and stores the
    /// run.
    ///
    /// Fails if the function does, if the value fails to answer, or if out of memory. The cache is then unchanged.
    pub fn call<M: Run<V, N>, H: Hold<M>, N>(
        &mut self,
        cache: &mut H,
        needs: &mut N,
        key: M::Key,
    ) -> Result<Reply<M::Out>, Fault>
        requires { WritesNone M.writes }
        ensures same { self.new ≡ self.old }
        ensures right { IfOk result (λ reply. M.means key (V.answers self.old) reply.output) }
        ensures reply { IfOk result (λ reply. HeldReply ⟦<M as Meant>⟧.meaning
            (invocation key (V.answers self.old) true) (H.entries cache.old)
            (λ _ _. ⊤) reply (H.entries cache.new)) }
        ensures fault { IfErr result (HeldFault ⟦<M as Meant>⟧.meaning
            (invocation key (V.answers self.old) true) (H.entries cache.old)) }
        ensures needs { SparesNeeds ⟦<M as Meant>⟧.meaning
            (invocation key (V.answers self.old) true) (H.entries cache.old)
            needs.old needs.new result }
        ensures err { OnErr result (Stays (H.entries cache.old) (H.entries cache.new)) }
    {
        let alloc = self.alloc;
        let at = self.at;
        let trail = mem::replace(&mut self.trail, Vec::new(alloc));
        let mut input = Resumed::new(&key, at, trail, self.start);
        let found = look_up(cache, &mut input, &mut Top::new(), true);
        self.trail = input.into_trail();
        match found {
            Ok(Begun::Hit(output)) => Ok(Reply {
                output,
                how: How::Hit,
            }),
            Ok(Begun::Run(own)) => {
                let view = at.view(alloc);
                run_kept(alloc, cache, needs, own, &view, &mut Top::new(), true)
            }
            Err(fault) => Err(fault),
        }
    }
    /// Why a call of a memoized function would be a hit or a run, before it is made. Nothing changes.
    ///
    /// Fails if the value fails to answer, or if out of memory.
    pub fn explain<M: Function<Call = V::Call, Answer = V::Answer>, H: Hold<M>>(
        &mut self,
        cache: &mut H,
        key: &M::Key,
    ) -> Result<Explanation<V::Call, V::Answer>, AllocError>
        ensures same { self.new ≡ self.old }
        ensures explains { IfOk result (λ said. Held (H.entries cache.old) (λ es.
            Explains ⟦<M as Meant>⟧.meaning es
            (invocation key.now (V.answers self.old) true) said)) }
        ensures stays { Stays (H.entries cache.old) (H.entries cache.new) }
        ensures err { OnErr result (Held (H.entries cache.old) (λ es.
            (asked : List (V.Call × V.Answer)) × (next : V.Call)
            × Agrees V.Answer.eq (V.answers self.old) asked
            × IsRefused V.Call.eq V.Answer.eq (under M.Key.eq es key.now) asked next)) }
    {
        let trail = mem::replace(&mut self.trail, Vec::new(self.alloc));
        let mut input = Resumed::new(key, self.at, trail, self.start);
        let said = cache.explain(self.alloc, key, &mut input);
        self.trail = input.into_trail();
        said
    }
}
