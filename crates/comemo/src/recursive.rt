//! Memoized functions that call themselves: nested calls, by a recorder's `begin` and `finish`.
ghost use Rattle.std.specs.Prelude.{◌≡◌, ◌↔◌, [], true, false, List, IsTrue, IfOk, IfErr, OnErr, ⊤};
ghost use Rattle.comemo.specs.Called.{HeldReply, HeldFault, HeldNeeds};
ghost use Rattle.comemo_cache.specs.Meaning.{IsNamedRun, invocation, run};
ghost use Rattle.comemo_cache.specs.Held.{Held, Leads, Stays};
ghost use Rattle.comemo.specs.Function.{WritesNone};
ghost use Rattle.comemo.specs.Recursive.{TellsOwn, TellsFrom, OnCallBegun, Starts, FinishedAs};

use crate::function::{Recorder, Run, Told};
use crate::pending::{Begun, Fault, How, Pending, Reply, look_up};
use comemo_cache::cache::{Function, Meant};
use comemo_cache::hold::Hold;
use comemo_track::input::Keyed;
use comemo_track::track::{Call, Track};
use std::hash::Hash;

/// A nested run, with a recorder of its own. If it is dropped, as by `?`, nothing is stored, and the recorder around it
/// takes nothing.
#[derive(Drop)]
pub struct Inner<'a, K, T: Track> {
    /// What the run asks through.
    pub recorder: Recorder<'a, T>,
    /// A clone of the key, for the cache.
    pub own: K,
}

impl<'a, T: Track> Recorder<'a, T> {
    /// Begins a nested call: returns the output of an entry that agrees, or a run with a recorder of its own. On a hit
    /// this recorder takes the entry's path.
    pub fn begin<G: Function<Call = T::Call, Answer = T::Answer>, H: Hold<G>>(
        &mut self,
        cache: &mut H,
        key: &G::Key,
    ) -> Result<Begun<G::Out, Inner<'a, G::Key, T>>, Fault>
        requires { WritesNone G.writes }
        ensures tells { OnCallBegun result (λ reply. TellsOwn ⟦<T as Told>⟧.fits
            self.old self.new reply (λ output m. G.means key.now m output))
            (λ _. TellsFrom ⟦<T as Told>⟧.fits
            self.old self.new (λ output m. G.means key.now m output)) }
        ensures hit { OnCallBegun result (λ told. IfOk told (λ output.
            (reply : Reply G.Out) × (reply.output ≡ output) × (reply.how ≡ How.Hit)
            × HeldReply ⟦<G as Meant>⟧.meaning
            (invocation key.now (T.answers self.old.value) true) (H.entries cache.old)
            (⟦<T as Told>⟧.took self.old self.new) reply (H.entries cache.new))) (λ _. ⊤) }
        ensures run { OnCallBegun result (λ _. ⊤)
            (λ inner. Held (H.entries cache.old) (λ es. Starts ⟦<G as Meant>⟧.meaning es
            (invocation key.now (T.answers self.old.value) true) self.old inner.own
            inner.recorder) × (self.new ≡ self.old)
            × Stays (H.entries cache.old) (H.entries cache.new)) }
        ensures err { IfErr result (λ fault. (fault ≡ Fault.Memory)
            × Stays (H.entries cache.old) (H.entries cache.new)
            × ⟦<T as Told>⟧.broke_off self.old self.new) }
    {
        let alloc = self.alloc;
        let mut input = Keyed {
            key,
            view: self.view.fork(alloc),
        };
        let own = match look_up(cache, &mut input, &mut self.recording, true) {
            Ok(Begun::Hit(output)) => return Ok(Begun::Hit(output)),
            Ok(Begun::Run(own)) => own,
            Err(fault) => return Err(fault),
        };
        Ok(Begun::Run(Inner {
            recorder: Recorder::new(alloc, self.view.fork(alloc)),
            own,
        }))
    }

    /// Finishes a nested run with its output, and stores it. This recorder takes what the run recorded.
    ///
    /// The output must be right for all answers that agree with the run's recording, which must be complete.
    pub fn finish<G: Function<Call = T::Call, Answer = T::Answer>, H: Hold<G>>(
        &mut self,
        cache: &mut H,
        key: &G::Key,
        inner: Inner<'_, G::Key, T>,
        output: G::Out,
    ) -> Result<G::Out, Fault>
        requires reads { WritesNone G.writes }
        requires own { IsTrue (G.Key.eq key.now inner.own) }
        requires value { inner.recorder.value ≡ self.now.value }
        requires complete { inner.recorder.recording.complete ≡ true }
        requires right { (m : T.Call → T.Answer)
            → ⟦<T as Told>⟧.fits inner.recorder.recording m → G.means key.now m output }
        requires settled { IsNamedRun ⟦<G as Meant>⟧.meaning key.now
            inner.recorder.recording.pairs }
        ensures tells { TellsOwn ⟦<T as Told>⟧.fits self.old self.new result
            (λ out m. G.means key.now m out) }
        ensures finished { IfOk result (λ out. (out ≡ output) × (became : How)
            × Leads (H.entries cache.old) (H.entries cache.new) (λ es es'.
            FinishedAs ⟦<G as Meant>⟧.meaning es false (⟦<T as Told>⟧.took self.old self.new)
            (run inner.entry.own inner.entry.recorder.recording.pairs output []) became es')) }
        ensures err { IfErr result (λ fault. (fault ≡ Fault.Memory)
            × Stays (H.entries cache.old) (H.entries cache.new)
            × ⟦<T as Told>⟧.broke_off self.old self.new) }
    {
        let reply = self.finish_reply(cache, key, inner, output)?;
        Ok(reply.output)
    }

    /// As `finish`, with the reply: whether the run was stored, or why not.
    pub fn finish_reply<G: Function<Call = T::Call, Answer = T::Answer>, H: Hold<G>>(
        &mut self,
        cache: &mut H,
        key: &G::Key,
        inner: Inner<'_, G::Key, T>,
        output: G::Out,
    ) -> Result<Reply<G::Out>, Fault>
        requires reads { WritesNone G.writes }
        requires own { IsTrue (G.Key.eq key.now inner.own) }
        requires value { inner.recorder.value ≡ self.now.value }
        requires complete { inner.recorder.recording.complete ≡ true }
        requires right { (m : T.Call → T.Answer)
            → ⟦<T as Told>⟧.fits inner.recorder.recording m → G.means key.now m output }
        requires settled { IsNamedRun ⟦<G as Meant>⟧.meaning key.now
            inner.recorder.recording.pairs }
        ensures tells { TellsOwn ⟦<T as Told>⟧.fits self.old self.new result
            (λ reply m. G.means key.now m reply.output) }
        ensures finished { IfOk result (λ reply. (reply.output ≡ output)
            × Leads (H.entries cache.old) (H.entries cache.new) (λ es es'.
            FinishedAs ⟦<G as Meant>⟧.meaning es false (⟦<T as Told>⟧.took self.old self.new)
            (run inner.entry.own inner.entry.recorder.recording.pairs output []) reply.how es')) }
        ensures err { IfErr result (λ fault. (fault ≡ Fault.Memory)
            × Stays (H.entries cache.old) (H.entries cache.new)
            × ⟦<T as Told>⟧.broke_off self.old self.new) }
    {
        let Inner { recorder, own } = inner;
        let Recorder {
            alloc,
            view: _,
            recording,
        } = recorder;
        let pending: Pending<G> = Pending {
            alloc,
            key: own,
            enabled: true,
            recording,
        };
        let reply = pending.finish(cache, &mut self.recording, output)?;
        Ok(reply)
    }

    /// As `call`, for a function that calls itself: `Incomplete` is returned as `Memory`, since the fault may end a run
    /// whose own recording is complete.
    pub fn call_other<G: Run<T, N>, H: Hold<G>, N>(
        &mut self,
        cache: &mut H,
        needs: &mut N,
        key: G::Key,
    ) -> Result<G::Out, Fault>
        requires { WritesNone G.writes }
        ensures tells { TellsOwn ⟦<T as Told>⟧.fits self.old self.new result
            (λ output m. G.means key m output) }
        ensures reply { IfOk result (λ output. (reply : Reply G.Out) × (reply.output ≡ output)
            × HeldReply ⟦<G as Meant>⟧.meaning (invocation key (T.answers self.old.value) true)
            (H.entries cache.old)
            (⟦<T as Told>⟧.took self.old self.new) reply (H.entries cache.new)) }
        ensures fault { IfErr result (HeldFault ⟦<G as Meant>⟧.meaning
            (invocation key (T.answers self.old.value) true) (H.entries cache.old)) }
        ensures needs { HeldNeeds ⟦<G as Meant>⟧.meaning
            (invocation key (T.answers self.old.value) true) (H.entries cache.old)
            needs.old needs.new }
        ensures err { OnErr result (Stays (H.entries cache.old) (H.entries cache.new)
            × ⟦<T as Told>⟧.broke_off self.old self.new) }
    {
        match self.call(cache, needs, key) {
            Ok(output) => Ok(output),
            Err(Fault::Incomplete) => Err(Fault::Memory),
            Err(fault) => Err(fault),
        }
    }
}
