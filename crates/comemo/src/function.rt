//! The run and the calls of a memoized function of a key and a tracked value that only reads. A hit costs what `begin`
//! costs; any other call costs what `begin`, the run and `Pending::finish` cost.
ghost use Rattle.std.specs.Prelude.{◌≡◌, ◌⊎◌, [], List, Bool, true, false, IsTrue, IfOk, IfErr, OnOk, OnErr, ⊤};
ghost use Rattle.comemo_cache.specs.Meaning.{invocation};
ghost use Rattle.comemo.specs.Called.{RanAs, IsOfRun, HeldReply, HeldFault, HeldNeeds, SparesNeeds};
ghost use Rattle.comemo_cache.specs.Held.{Held, Leads, Stays};
ghost use Rattle.comemo.specs.Finish.{BrokeOff};
ghost use Rattle.comemo_track.specs.Recording.{Recording, Took, Spoiled};
ghost use Rattle.comemo_track.specs.Sending.{Asks, BreaksOff};
ghost use Rattle.comemo.specs.Function.{Recorded, Fits, Tells, WritesNone, SettlesRun};

use crate::pending::{Begun, Fault, How, Pending, Reply, look_up};
use comemo_cache::cache::{Function, Meant};
use comemo_cache::hold::Hold;
use comemo_track::constraint::Constraint;
use comemo_track::input::Keyed;
use comemo_track::track::{Breaking, Call, Sink, Top, Track, View};
use std::alloc::Global;
use std::marker::Model;

/// What a recorder states of a tracked value's answers, for contracts, as `⟦<T as Told>⟧.fits`. There is nothing to
/// implement.
pub trait Told: Track {
    // the recording is complete and not late, and the answers agree with it
    ghost fits: { Recording Self.Call Self.Answer → (Self.Call → Self.Answer) → Type 0 };

    // the second's recording is the first's after it took these pairs and these writes
    ghost took: { Recorded Self Self.Call Self.Answer → Recorded Self Self.Call Self.Answer
        → List (Self.Call × Self.Answer) → List Self.Call → Type 0 };

    // it is the first's after it took a prefix of pairs that the value's answers agree with, and became incomplete
    ghost broke_off: { Recorded Self Self.Call Self.Answer → Recorded Self Self.Call Self.Answer
        → Type 0 };
}

impl<T: Track> Told for T {
    ghost fits = { Fits T.Call.eq T.Answer.eq };

    ghost took = { λ s t. Took T.Call.eq T.Call.touches s.recording t.recording };

    ghost broke_off = { λ s t. BrokeOff T.Answer.eq (T.answers s.value)
        (BreaksOff (Took T.Call.eq T.Call.touches) Spoiled s.recording t.recording) };
}

/// How a function that only reads is done, on a tracked value.
///
/// The value may borrow: several values as one, by `Both` or a struct of the user's. The meaning names no value, so the
/// cache outlives it. A function that calls itself has no `Run`.
///
/// `N` is what a run needs besides its arguments: the caches of the functions that it calls, or `()`. They can't hold
/// the function's own cache, which the checker refuses.
pub trait Run<T: Track, N>: Function<Call = T::Call, Answer = T::Answer> {
    /// Does the function, and asks the value through the recorder.
    ///
    /// The output must be right for all answers that agree with the recording. `Incomplete` may be returned only if the
    /// recording is incomplete.
    fn run(key: &Self::Key, of: &mut Recorder<'_, T>, needs: &mut N) -> Result<Self::Out, Fault>
        ensures same { of.new.value ≡ of.old.value }
        ensures right { IfOk result (λ output. (m : T.Call → T.Answer)
            → ⟦<T as Told>⟧.fits of.new.recording m → Self.means key.now m output) }
        ensures settled { SettlesRun Self.Key.eq T.Call.eq T.Answer.eq Self.naming key.now
            of.old.recording of.new.recording result }
        ensures fault { IfErr result
            (λ fault. fault ≡ Fault.Incomplete → of.new.recording.complete ≡ false) };
}

/// What asks a tracked value, each time, and records calls and answers. A run gets one.
#[derive(Drop)]
pub struct Recorder<'a, T: Track> {
    pub(crate) alloc: Global,
    pub(crate) view: View<'a, T>,
    pub(crate) recording: Constraint<T::Call, T::Answer>,
}

impl<'a, T: Track> Model for Recorder<'a, T> {
    ghost use Rattle.comemo.specs.Function.{Recorded, recorded_code, IsRecorded};

    ghost Value = { Recorded T T.Call T.Answer };

    ghost coded = { recorded_code T.code T.Call.code T.Answer.code };

    ghost view = { λ s. record { value = s.view; recording = s.recording } };

    ghost invariant = { λ s. IsRecorded T.Answer.eq (T.answers s.view) s.recording };
}

impl<'a, T: Track> Recorder<'a, T> {
    /// A recorder with an empty recording.
    pub fn new(alloc: Global, view: View<'a, T>) -> Self
        ensures value { result.value ≡ view.entry }
        ensures pairs { result.recording.pairs ≡ [] }
        ensures writes { result.recording.writes ≡ [] }
        ensures complete { result.recording.complete ≡ true }
        ensures early { result.recording.late ≡ false }
    {
        Recorder {
            alloc,
            view,
            recording: Constraint::new(alloc),
        }
    }

    /// Asks the value a read, and records it with its answer. The value is asked even if the read is recorded already.
    pub fn ask(&mut self, call: T::Call) -> Result<T::Answer, Fault>
        requires { T.Call.is_write call ≡ false }
        ensures tells { Tells ⟦<T as Told>⟧.fits self.old self.new result
            (λ answer m. IsTrue (T.Answer.eq (m call) answer)) }
        ensures asks { IfOk result
            (λ answer. Asks T.Answer.eq (T.answers self.old.value) call answer
            (⟦<T as Told>⟧.took self.old self.new)) }
        ensures err { IfErr result (λ fault. (fault ≡ Fault.Memory)
            × ⟦<T as Told>⟧.took self.old self.new [] []) }
    {
        Ok(self.view.ask(call, &mut self.recording)?)
    }

    /// Calls another memoized function of the same value, as `memoized_with`, with the recording as its sink. After a
    /// fault the run can't be finished.
    pub fn call<G: Run<T, N>, H: Hold<G>, N>(
        &mut self,
        cache: &mut H,
        needs: &mut N,
        key: G::Key,
    ) -> Result<G::Out, Fault>
        requires { WritesNone G.writes }
        ensures tells { Tells ⟦<T as Told>⟧.fits self.old self.new result
            (λ output m. G.means key m output) }
        ensures reply { IfOk result (λ output. (reply : Reply G.Out) × (reply.output ≡ output)
            × HeldReply ⟦<G as Meant>⟧.meaning (invocation key (T.answers self.old.value) true)
            (H.entries cache.old)
            (⟦<T as Told>⟧.took self.old self.new) reply (H.entries cache.new)) }
        ensures fault { IfErr result (HeldFault ⟦<G as Meant>⟧.meaning
            (invocation key (T.answers self.old.value) true) (H.entries cache.old)) }
        ensures needs { HeldNeeds ⟦<G as Meant>⟧.meaning
            (invocation key (T.answers self.old.value) true) (H.entries cache.old)
            needs.old needs.new }
        ensures err { OnErr result (Stays (H.entries cache.old) (H.entries cache.new)
            × ⟦<T as Told>⟧.broke_off self.old self.new) }
    {
        let reply = self.call_reply(cache, needs, key, true)?;
        Ok(reply.output)
    }

    /// As `call`, with the reply. With `enabled` false it neither looks up nor stores.
    pub fn call_reply<G: Run<T, N>, H: Hold<G>, N>(
        &mut self,
        cache: &mut H,
        needs: &mut N,
        key: G::Key,
        enabled: bool,
    ) -> Result<Reply<G::Out>, Fault>
        requires { WritesNone G.writes }
        ensures tells { Tells ⟦<T as Told>⟧.fits self.old self.new result
            (λ reply m. G.means key m reply.output) }
        ensures reply { IfOk result (λ reply. HeldReply ⟦<G as Meant>⟧.meaning
            (invocation key (T.answers self.old.value) enabled)
            (H.entries cache.old)
            (⟦<T as Told>⟧.took self.old self.new) reply (H.entries cache.new)) }
        ensures fault { IfErr result (HeldFault ⟦<G as Meant>⟧.meaning
            (invocation key (T.answers self.old.value) enabled) (H.entries cache.old)) }
        ensures needs { SparesNeeds ⟦<G as Meant>⟧.meaning
            (invocation key (T.answers self.old.value) enabled) (H.entries cache.old)
            needs.old needs.new result }
        ensures err { OnErr result (Stays (H.entries cache.old) (H.entries cache.new)
            × ⟦<T as Told>⟧.broke_off self.old self.new) }
    {
        let reply = memoized_view(
            self.alloc,
            cache,
            needs,
            key,
            &self.view,
            &mut self.recording,
            enabled,
        )?;
        Ok(reply)
    }
}

/// How a call goes that takes a holder and a sink from these to those, for contracts, as
/// `⟦<M as Answering<H, T, S>>⟧.replies`. There is nothing to implement.
pub trait Answering<H, T, S>: Function<Call = T::Call, Answer = T::Answer>
where
    H: Hold<Self>,
    T: Track,
    S: Sink<Call = T::Call, Answer = T::Answer>,
{
    ghost use Rattle.comemo.specs.declared.pending.Fault.{Fault};
    ghost use Rattle.comemo.specs.declared.pending.Reply.{Reply};

    // the reply, at this key and this value
    ghost replies: { Bool → Self.Key → T → H → H → S → S → Reply Self.Out → Type 0 };

    // it failed with this fault: out of memory, or that of its run
    ghost fails: { Bool → Self.Key → T → H → S → S → Fault → Type 0 };
}

impl<M: Function<Call = T::Call, Answer = T::Answer>, H, T, S> Answering<H, T, S> for M
where
    H: Hold<M>,
    T: Track,
    S: Sink<Call = T::Call, Answer = T::Answer>,
{
    ghost use Rattle.comemo.specs.declared.pending.Fault.TheVariants.{Memory};

    ghost replies = { λ enabled key of h h' s t reply. HeldReply ⟦<M as Meant>⟧.meaning
        (invocation key (T.answers of) enabled) (H.entries h) (S.took s t) reply (H.entries h') };

    ghost fails = { λ enabled key of h s t fault. (fault ≡ Memory)
        ⊎ Held (H.entries h) (λ es. IsOfRun ⟦<M as Meant>⟧.meaning
        (invocation key (T.answers of) enabled) es (S.spoils s t)) };
}

/// Calls a memoized function: returns the output of an entry that agrees, or runs the function and stores the run.
///
/// The sink takes what was asked: it is the recording of the outer run, or `Top`. With `enabled` false there is no
/// look-up, and nothing is stored.
pub fn memoized_with<M: Run<T, N>, H: Hold<M>, N, T: Track, S>(
    alloc: Global,
    cache: &mut H,
    needs: &mut N,
    key: M::Key,
    of: &T,
    sink: &mut S,
    enabled: bool,
) -> Result<Reply<M::Out>, Fault>
where
    S: Sink<Call = T::Call, Answer = T::Answer>,
    requires { WritesNone M.writes }
    ensures right { IfOk result (λ reply. M.means key (T.answers of.now) reply.output) }
    ensures reply { IfOk result (⟦<M as Answering<H, T, S>>⟧.replies
        enabled key of.now cache.old cache.new sink.old sink.new) }
    ensures fault { IfErr result (⟦<M as Answering<H, T, S>>⟧.fails
        enabled key of.now cache.old sink.old sink.new) }
    ensures needs { SparesNeeds ⟦<M as Meant>⟧.meaning
        (invocation key (T.answers of.now) enabled) (H.entries cache.old)
        needs.old needs.new result }
    ensures err { OnErr result (Stays (H.entries cache.old) (H.entries cache.new)
        × BrokeOff T.Answer.eq (T.answers of.now)
        (⟦<S as Breaking>⟧.breaks_off sink.old sink.new)) }
{
    memoized_view(alloc, cache, needs, key, &of.view(alloc), sink, enabled)
}

/// As `memoized_with`, for a view of the value.
pub(crate) fn memoized_view<M: Run<T, N>, H: Hold<M>, N, T: Track, S>(
    alloc: Global,
    cache: &mut H,
    needs: &mut N,
    key: M::Key,
    of: &View<'_, T>,
    sink: &mut S,
    enabled: bool,
) -> Result<Reply<M::Out>, Fault>
where
    S: Sink<Call = T::Call, Answer = T::Answer>,
    requires { WritesNone M.writes }
    ensures right { IfOk result (λ reply. M.means key (T.answers of.now) reply.output) }
    ensures reply { IfOk result (⟦<M as Answering<H, T, S>>⟧.replies
        enabled key of.now cache.old cache.new sink.old sink.new) }
    ensures fault { IfErr result (⟦<M as Answering<H, T, S>>⟧.fails
        enabled key of.now cache.old sink.old sink.new) }
    ensures needs { SparesNeeds ⟦<M as Meant>⟧.meaning
        (invocation key (T.answers of.now) enabled) (H.entries cache.old)
        needs.old needs.new result }
    ensures err { OnErr result (Stays (H.entries cache.old) (H.entries cache.new)
        × BrokeOff T.Answer.eq (T.answers of.now)
        (⟦<S as Breaking>⟧.breaks_off sink.old sink.new)) }
{
    let mut input = Keyed {
        key: &key,
        view: of.fork(alloc),
    };
    // A hit returns at once: its reply as the value of the match would be moved twice.
    match look_up(cache, &mut input, sink, enabled) {
        Ok(Begun::Hit(output)) => {
            return Ok(Reply {
                output,
                how: How::Hit,
            });
        }
        Ok(Begun::Run(own)) => run_kept(alloc, cache, needs, own, of, sink, enabled),
        Err(fault) => Err(fault),
    }
}

/// Runs a function under the cache's clone of the key. Not inlined, so that a hit makes no room for a run.
#[inline(never)]
pub(crate) fn run_kept<
    M: Run<T, N>,
    H: Hold<M>,
    N,
    T: Track,
    S: Sink<Call = T::Call, Answer = T::Answer>,
>(
    alloc: Global,
    cache: &mut H,
    needs: &mut N,
    key: M::Key,
    of: &View<'_, T>,
    sink: &mut S,
    enabled: bool,
) -> Result<Reply<M::Out>, Fault>
    requires { WritesNone M.writes }
    ensures ran { IfOk result (λ reply.
        Leads (H.entries cache.old) (H.entries cache.new) (λ es es'.
        RanAs ⟦<M as Meant>⟧.meaning (invocation key (T.answers of.now) enabled) es
        (S.took sink.old sink.new) reply es')) }
    ensures fault { IfErr result
        (λ fault. (fault ≡ Fault.Memory) ⊎ S.spoils sink.old sink.new) }
    ensures err { OnErr result (Stays (H.entries cache.old) (H.entries cache.new)
        × BrokeOff T.Answer.eq (T.answers of.now)
        (⟦<S as Breaking>⟧.breaks_off sink.old sink.new)) }
{
    let mut recorder = Recorder::new(alloc, of.fork(alloc));
    let ran = M::run(&key, &mut recorder, needs);
    let Recorder {
        alloc: _,
        view: _,
        recording,
    } = recorder;
    let pending: Pending<M> = Pending {
        alloc,
        key,
        enabled,
        recording,
    };
    pending.end(cache, sink, ran)
}

/// Calls a memoized function without needs, outside of any run. A hit of an entry of age 0 clones no path.
pub fn memoized<M: Run<T, ()>, H: Hold<M>, T: Track>(
    alloc: Global,
    cache: &mut H,
    key: M::Key,
    of: &T,
) -> Result<Reply<M::Out>, Fault>
    requires { WritesNone M.writes }
    ensures right { IfOk result (λ reply. M.means key (T.answers of.now) reply.output) }
    ensures reply { IfOk result (λ reply. HeldReply ⟦<M as Meant>⟧.meaning
        (invocation key (T.answers of.now) true) (H.entries cache.old)
        (λ _ _. ⊤) reply (H.entries cache.new)) }
    ensures fault { IfErr result (HeldFault ⟦<M as Meant>⟧.meaning
        (invocation key (T.answers of.now) true) (H.entries cache.old)) }
    ensures err { OnErr result (Stays (H.entries cache.old) (H.entries cache.new)) }
{
    memoized_with(alloc, cache, &mut (), key, of, &mut Top::new(), true)
}
