//! Memoized functions that write: a function of a key and a tracked value that its run reads and writes. A hit costs
//! what `begin` costs; any other call costs what `begin`, the run and `Pending::finish` cost.
ghost use Rattle.std.specs.Prelude.{◌≡◌, Result, [], ◌∷◌, ◌++◌, ◌⊎◌, List, Bool, true, false, IsTrue, IfOk, IfErr, OnOk, OnErr, ⊤};
ghost use Rattle.comemo.specs.Called.{HeldReply, HeldReplyMut, HeldFault, HeldNeeds, SparesNeeds};
ghost use Rattle.comemo_cache.specs.Meaning.{IsRight, invocation};
ghost use Rattle.comemo_cache.specs.Held.{Leads, Stays};
ghost use Rattle.comemo.specs.Begin.{Reaches};
ghost use Rattle.comemo.specs.Finish.{BrokeOff};
ghost use Rattle.comemo.specs.Function.{SettlesAs, SettlesRun, WritesNone};
ghost use Rattle.std.specs.Borrow.{MutBor};
ghost use Rattle.comemo.specs.RecursiveMut.{Within};
ghost use Rattle.comemo.specs.FunctionMut.{Lent, lent, HasBegun, NoneTouches, Goes, TellsMut, TellsWrites, IsFailed, FailsBy};
ghost use Rattle.comemo_base.specs.Answers.{Agrees};
ghost use Rattle.comemo_track.specs.Recording.{Recording, Took, Spoiled, MarkedLate, IsLateByTouch};
ghost use Rattle.comemo_track.specs.Writing.{Done};
ghost use Rattle.comemo_track.specs.Sending.{Asks, BreaksOff, SpoiledAfter, TookAs};

use crate::function::{Run, Told, memoized_view};
use crate::pending::{Begun, Fault, How, Reply, begin};
use comemo_cache::cache::{Function, Meant};
use comemo_cache::hold::Hold;
use comemo_track::constraint::Constraint;
use comemo_track::input::KeyedMut;
use comemo_track::track::{Breaking, Call, Sink, Top, Track, Written};
use std::alloc::Global;

/// What a recorder that writes knows of its recording, for contracts, as `⟦<T as ToldMut>⟧.agrees`. There is nothing to
/// implement.
pub trait ToldMut: Track {
    // while the recording is complete, its writes led from some value to the present one, and while it isn't late, the
    // answers of the former agree with its reads
    ghost agrees: { Lent Self Self.Call Self.Answer → Type 0 };

    // what became of what a recorder was lent
    ghost goes: { Lent Self Self.Call Self.Answer → Lent Self Self.Call Self.Answer → Type 0 };

    // the second recording is the first after it took these pairs and these writes
    ghost took: { Recording Self.Call Self.Answer → Recording Self.Call Self.Answer
        → List (Self.Call × Self.Answer) → List Self.Call → Type 0 };
}

impl<T: Track> ToldMut for T {
    ghost agrees = { HasBegun (Done T.wrote T.Call.is_write T.Call.touches T.Answer.eq T.answers)
        T.Answer.eq T.answers };

    ghost goes = { Goes (Done T.wrote T.Call.is_write T.Call.touches T.Answer.eq T.answers)
        T.Call.eq T.Call.touches T.Answer.eq T.answers };

    ghost took = { Took T.Call.eq T.Call.touches };
}

/// What a recorder that writes knows, and what it does from one state to another, for contracts, as
/// `⟦<Self as Records>⟧.agrees`. There is nothing to implement.
pub trait Records {
    /// The value.
    type Of;

    /// What it is asked, and what is written to it.
    type Call: Call;

    /// The answer to a read: one type for all calls.
    type Answer: Clone + Ord;

    ghost use Rattle.comemo.specs.declared.pending.Fault.{Fault};

    // its value
    ghost value: { Self → MutBor Self.Of };

    // its value's answers
    ghost answers: { Self → Self.Call → Self.Answer };

    // its recording
    ghost recording: { Self → Recording Self.Call Self.Answer };

    // while its recording is complete, it agrees with what the value was, as `ToldMut::agrees` says
    ghost agrees: { Self → Type 0 };

    // its recording took these pairs and these writes
    ghost took: { Self → Self → List (Self.Call × Self.Answer) → List Self.Call → Type 0 };

    // these writes were done on its value
    ghost did: { Self → Self → List Self.Call → Type 0 };

    // both, and its recording is then late if this says so
    ghost sent: { Bool → Self → Self
        → List (Self.Call × Self.Answer) → List Self.Call → Type 0 };

    // its recording took a prefix of these pairs, and became incomplete
    ghost breaks_off: { Self → Self → List (Self.Call × Self.Answer) → Type 0 };

    // it took a prefix of pairs that the value's answers agree with, and became incomplete
    ghost broke_off: { Self → Self → Type 0 };

    // it took these pairs and these writes, and became incomplete
    ghost spoiled_after: { Self → Self
        → List (Self.Call × Self.Answer) → List Self.Call → Type 0 };

    // a run was begun from this state, by a recorder whose recording was set aside
    ghost within: { Lent Self.Of Self.Call Self.Answer → Self
        → Recording Self.Call Self.Answer → Type 0 };

    // wherever such a run was begun, this holds
    ghost began: { Self → Recording Self.Call Self.Answer
        → (Lent Self.Of Self.Call Self.Answer → Type 0) → Type 0 };

    // wherever such a run was begun, the last state of its recorder agrees
    ghost agrees_after: { Self → Recording Self.Call Self.Answer → Self → Type 0 };

    // what a run learns from a question, a write or a call, which had this result
    ghost tells: { {X : Type 0} → Self → Self → Result X Fault
        → (X → (Self.Call → Self.Answer) → Type 0) → Type 0 };
}

impl<'a, 'b, T: Track> Records for RecorderMut<'a, 'b, T> {
    type Of = T;

    type Call = T::Call;

    type Answer = T::Answer;

    ghost value = { λ s. s.value };

    ghost answers = { λ s. T.answers s.value.now };

    ghost recording = { λ s. s.recording.now };

    ghost agrees = { λ s. ⟦<T as ToldMut>⟧.agrees (lent s.value s.recording) };

    ghost took = { λ s t. ⟦<T as ToldMut>⟧.took s.recording.now t.recording.now };

    ghost did = { λ s t. ⟦<T as Written>⟧.did s.value.now t.value.now };

    ghost sent = { λ late s t P W. TookAs ⟦<T as ToldMut>⟧.took MarkedLate late
        s.recording.now t.recording.now P W × ⟦<T as Written>⟧.did s.value.now t.value.now W };

    ghost breaks_off = { λ s t. BreaksOff ⟦<T as ToldMut>⟧.took Spoiled
        s.recording.now t.recording.now };

    ghost broke_off = { λ s t. BrokeOff T.Answer.eq (T.answers s.value.now)
        (BreaksOff ⟦<T as ToldMut>⟧.took Spoiled s.recording.now t.recording.now) };

    ghost spoiled_after = { λ s t. SpoiledAfter ⟦<T as ToldMut>⟧.took Spoiled
        s.recording.now t.recording.now };

    ghost within = { λ s t around. Within ⟦<T as Written>⟧.did T.Call.eq T.Call.touches
        T.Answer.eq T.answers s (lent t.value t.recording) around };

    ghost began = { λ t around P. (s : Lent T T.Call T.Answer)
        → Within ⟦<T as Written>⟧.did T.Call.eq T.Call.touches T.Answer.eq T.answers
        s (lent t.value t.recording) around → P s };

    ghost agrees_after = { λ s around t. (w : Lent T T.Call T.Answer)
        → Within ⟦<T as Written>⟧.did T.Call.eq T.Call.touches T.Answer.eq T.answers
        w (lent s.value s.recording) around
        → ⟦<T as ToldMut>⟧.agrees (lent t.value t.recording) };

    ghost tells = { λ s t r P. TellsMut ⟦<T as ToldMut>⟧.goes ⟦<T as Told>⟧.fits
        (lent s.value s.recording) (lent t.value t.recording) r P };
}

/// What a recorder that writes learns from a call of a function that writes, for contracts, as
/// `⟦<Self as Writes>⟧.tells`. There is nothing to implement.
pub trait Writes {
    /// The value.
    type Of;

    /// What it is asked, and what is written to it.
    type Call: Call;

    /// The answer to a read: one type for all calls.
    type Answer: Clone + Ord;

    ghost use Rattle.comemo.specs.declared.pending.Fault.{Fault};

    // of all that fits the recording, and of the writes that were recorded since
    ghost tells: { {X : Type 0} → Lent Self.Of Self.Call Self.Answer → Self → Result X Fault
        → (X → (Self.Call → Self.Answer) → List Self.Call → Type 0) → Type 0 };
}

impl<'a, 'b, T: Track> Writes for RecorderMut<'a, 'b, T> {
    type Of = T;

    type Call = T::Call;

    type Answer = T::Answer;

    ghost tells = { λ s t r P. TellsWrites ⟦<T as ToldMut>⟧.goes ⟦<T as Told>⟧.fits
        s (lent t.value t.recording) r P };
}

/// A tracked value that is lent to a run, and the recording of what the run asks and writes. A run gets one.
///
/// A run that uses the value or the recording directly can't be proved.
#[derive(Drop)]
pub struct RecorderMut<'a, 'b, T: Track> {
    pub(crate) alloc: Global,
    /// What is asked and written.
    pub value: &'a mut T,
    /// What it was asked, and what was written to it.
    pub recording: &'b mut Constraint<T::Call, T::Answer>,
}

impl<'a, 'b, T: Track> RecorderMut<'a, 'b, T> {
    /// A recorder of what is asked of this value and written to it, into this recording. Does not allocate.
    pub fn new(
        alloc: Global,
        value: &'a mut T,
        recording: &'b mut Constraint<T::Call, T::Answer>,
    ) -> Self
        ensures value { result.value.now ≡ value.old }
        ensures same_value { result.value.ghost_name ≡ value.entry.ghost_name }
        ensures recording { result.recording.now ≡ recording.old }
        ensures same_recording { result.recording.ghost_name ≡ recording.entry.ghost_name }
    {
        RecorderMut {
            alloc,
            value,
            recording,
        }
    }

    /// Asks the value a read, and records the call with its answer, as `Recorder::ask`.
    pub fn ask(&mut self, call: T::Call) -> Result<T::Answer, Fault>
        requires agrees { ⟦<Self as Records>⟧.agrees self.old }
        requires read { T.Call.is_write call ≡ false }
        ensures agrees { ⟦<Self as Records>⟧.agrees self.new }
        ensures tells { ⟦<Self as Records>⟧.tells self.old self.new result
            (λ answer m. IsTrue (T.Answer.eq (m call) answer)) }
        ensures asks { IfOk result
            (λ answer. Asks T.Answer.eq (T.answers self.old.value.now) call answer
            (⟦<Self as Records>⟧.took self.old self.new)) }
        ensures writes { self.new.recording.now.writes ≡ self.old.recording.now.writes }
        ensures value { self.new.value ≡ self.old.value }
        ensures err { IfErr result (λ fault. (fault ≡ Fault.Memory)
            × ⟦<Self as Records>⟧.took self.old self.new [] []) }
    {
        let mut view = self.value.view(self.alloc);
        Ok(view.ask(call, self.recording)?)
    }

    /// Does a write on the value, and records it. Fails with `Memory` also if the value refuses the write.
    pub fn write(&mut self, call: T::Call) -> Result<(), Fault>
        requires agrees { ⟦<Self as Records>⟧.agrees self.old }
        requires write { T.Call.is_write call ≡ true }
        ensures agrees { ⟦<Self as Records>⟧.agrees self.new }
        ensures tells { ⟦<Self as Records>⟧.tells self.old self.new result
            (λ _ _. ⊤) }
        ensures sent { OnOk result
            (⟦<Self as Records>⟧.took self.old self.new [] (call ∷ [])) }
        ensures did { OnOk result (⟦<Self as Records>⟧.did self.old self.new (call ∷ [])) }
        ensures kept { OnErr result (self.new.value.now ≡ self.old.value.now) }
        ensures err { IfErr result (λ fault. (fault ≡ Fault.Memory)
            × ⟦<Self as Records>⟧.took self.old self.new [] []) }
    {
        let mut view = self.value.track_mut(self.alloc);
        view.write(call, self.recording)?;
        Ok(())
    }

    /// Calls another memoized function of the same value, which only reads, and records what it asked, as
    /// `Recorder::call`.
    pub fn call<G: Run<T, N>, H: Hold<G>, N>(
        &mut self,
        cache: &mut H,
        needs: &mut N,
        key: G::Key,
    ) -> Result<G::Out, Fault>
        requires reads { WritesNone G.writes }
        requires agrees { ⟦<Self as Records>⟧.agrees self.old }
        ensures agrees { ⟦<Self as Records>⟧.agrees self.new }
        ensures tells { ⟦<Self as Records>⟧.tells self.old self.new result
            (λ output m. G.means key m output) }
        ensures writes { OnOk result
            (self.new.recording.now.writes ≡ self.old.recording.now.writes) }
        ensures value { self.new.value ≡ self.old.value }
        ensures reply { IfOk result (λ output. (reply : Reply G.Out) × (reply.output ≡ output)
            × HeldReply ⟦<G as Meant>⟧.meaning (invocation key (T.answers self.old.value.now) true)
            (H.entries cache.old)
            (⟦<Self as Records>⟧.took self.old self.new)
            reply (H.entries cache.new)) }
        ensures fault { IfErr result (HeldFault ⟦<G as Meant>⟧.meaning
            (invocation key (T.answers self.old.value.now) true) (H.entries cache.old)) }
        ensures needs { HeldNeeds ⟦<G as Meant>⟧.meaning
            (invocation key (T.answers self.old.value.now) true) (H.entries cache.old)
            needs.old needs.new }
        ensures err { OnErr result (Stays (H.entries cache.old) (H.entries cache.new)
            × ⟦<Self as Records>⟧.broke_off self.old self.new) }
    {
        let view = self.value.view(self.alloc);
        let reply = memoized_view(self.alloc, cache, needs, key, &view, self.recording, true)?;
        // For the proof: its pairs are reads, and its writes are writes.
        self.recording.reveal_reads_and_writes();
        Ok(reply.output)
    }

    /// Calls another memoized function of the same value, as `memoized_mut_with`, with the recording as its sink. After
    /// a fault the run can't be finished.
    pub fn call_mut<G: RunMut<T, N>, H: Hold<G>, N>(
        &mut self,
        cache: &mut H,
        needs: &mut N,
        key: G::Key,
    ) -> Result<G::Out, Fault>
        requires agrees { ⟦<Self as Records>⟧.agrees self.old }
        ensures agrees { ⟦<Self as Records>⟧.agrees self.new }
        ensures tells { ⟦<Self as Writes>⟧.tells
            (lent self.old.value self.old.recording) self.new result
            (λ output m writes. IsRight G.means G.writes key m output writes) }
        ensures reply { IfOk result (λ output. (reply : Reply G.Out) × (reply.output ≡ output)
            × (reply.how ≡ How.Late → G.late key)
            × ⟦<G as AnsweringMut<H, T, Constraint<T::Call, T::Answer>>>⟧.replies true key
            self.old.value.now self.new.value.now cache.old cache.new
            self.old.recording.now self.new.recording.now reply) }
        ensures fault { IfErr result
            (⟦<G as AnsweringMut<H, T, Constraint<T::Call, T::Answer>>>⟧.fails true key
            self.old.value.now self.new.value.now cache.old cache.new
            self.old.recording.now self.new.recording.now) }
        ensures needs { HeldNeeds ⟦<G as Meant>⟧.meaning
            (invocation key (T.answers self.old.value.now) true) (H.entries cache.old)
            needs.old needs.new }
        ensures err { OnErr result
            (⟦<G as AnsweringMut<H, T, Constraint<T::Call, T::Answer>>>⟧.breaks true key
            self.old.value.now self.new.value.now cache.old cache.new
            self.old.recording.now self.new.recording.now) }
    {
        let reply = memoized_mut_with(
            self.alloc,
            cache,
            needs,
            key,
            self.value,
            self.recording,
            true,
        )?;
        // For the proof: its pairs are reads, and its writes are writes.
        self.recording.reveal_reads_and_writes();
        Ok(reply.output)
    }
}

/// How a function that also writes is done, on a tracked value. Its `writes` states which writes are right.
///
/// The value may borrow: several values as one, by `BothMut` or `ReadAndWrite`, or the user's own type. `N` is what a run
/// needs, as with `Run`.
pub trait RunMut<T: Track, N>: Function<Call = T::Call, Answer = T::Answer> {
    // whether a run under this key may be late, so that it asks what an earlier write of its own touches; each may,
    // unless an implementation says otherwise
    ghost late: { Self.Key → Type 0 } = { λ _. ⊤ };

    /// Does the function, and asks the value and writes to it through the recorder.
    ///
    /// Output and writes must be right for all answers that agree with the recording. `Incomplete` may be returned only
    /// if the recording is incomplete.
    fn run(
        key: &Self::Key,
        of: &mut RecorderMut<'_, '_, T>,
        needs: &mut N,
    ) -> Result<Self::Out, Fault>
        requires begins { of.now.recording.now.writes ≡ [] }
        requires agrees { ⟦<T as ToldMut>⟧.agrees (lent of.now.value of.now.recording) }
        ensures agrees { ⟦<T as ToldMut>⟧.agrees (lent of.new.value of.new.recording) }
        ensures goes { ⟦<T as ToldMut>⟧.goes
            (lent of.old.value of.old.recording) (lent of.new.value of.new.recording) }
        ensures right { IfOk result (λ output. (m : T.Call → T.Answer)
            → ⟦<T as Told>⟧.fits of.new.recording.now m
            → IsRight Self.means Self.writes key.now m output of.new.recording.now.writes) }
        ensures settled { SettlesRun Self.Key.eq T.Call.eq T.Answer.eq Self.naming key.now
            of.old.recording.now of.new.recording.now result }
        ensures early { of.old.recording.now.late ≡ false
            → of.new.recording.now.complete ≡ true → of.new.recording.now.late ≡ true
            → late key.now }
        ensures fault { IfErr result
            (λ fault. fault ≡ Fault.Incomplete → of.new.recording.now.complete ≡ false) };
}

/// Runs a function on a value. Returns the run's result, and its recording.
fn run_recorded<M: RunMut<T, N>, T: Track, N>(
    alloc: Global,
    key: &M::Key,
    of: &mut T,
    needs: &mut N,
) -> (Result<M::Out, Fault>, Constraint<T::Call, T::Answer>)
    ensures right { IfOk result.0 (λ output. (m : T.Call → T.Answer)
        → ⟦<T as Told>⟧.fits result.1 m
        → IsRight M.means M.writes key.now m output result.1.writes) }
    ensures settled { SettlesAs M.Key.eq T.Call.eq T.Answer.eq M.naming key.now
        result.1 result.0 }
    ensures fault { IfErr result.0
        (λ fault. fault ≡ Fault.Incomplete → result.1.complete ≡ false) }
    ensures done { result.1.complete ≡ true
        → ⟦<T as Written>⟧.did of.old of.new result.1.writes }
    ensures agrees { result.1.complete ≡ true → result.1.late ≡ false
        → Agrees T.Answer.eq (T.answers of.old) result.1.pairs }
    ensures late { result.1.complete ≡ true → IsLateByTouch T.Call.eq T.Call.touches result.1 }
    ensures early { result.1.complete ≡ true → result.1.late ≡ true → M.late key.now }
    ensures reached { Reaches ⟦<T as Written>⟧.did of.old of.new }
{
    let mut recording = Constraint::new(alloc);
    let mut recorder = RecorderMut {
        alloc,
        value: of,
        recording: &mut recording,
    };
    let ran = M::run(key, &mut recorder, needs);
    (ran, recording)
}

/// How a call of a function that writes goes, from these states to those, for contracts, as
/// `⟦<M as AnsweringMut<H, T, S>>⟧.replies`. There is nothing to implement.
pub trait AnsweringMut<H, T, S>: Function<Call = T::Call, Answer = T::Answer>
where
    H: Hold<Self>,
    T: Track,
    S: Sink<Call = T::Call, Answer = T::Answer>,
{
    ghost use Rattle.comemo.specs.declared.pending.Fault.{Fault};
    ghost use Rattle.comemo.specs.declared.pending.Reply.{Reply};

    // the reply, at this key
    ghost replies: { Bool → Self.Key → T → T → H → H → S → S → Reply Self.Out → Type 0 };

    // it failed with this fault: out of memory, or that of its run; or a hit stopped at a write
    ghost fails: { Bool → Self.Key → T → T → H → H → S → S → Fault → Type 0 };

    // what it did to value, holder and sink, if it failed
    ghost breaks: { Bool → Self.Key → T → T → H → H → S → S → Type 0 };
}

impl<M: Function<Call = T::Call, Answer = T::Answer>, H, T, S> AnsweringMut<H, T, S> for M
where
    H: Hold<M>,
    T: Track,
    S: Sink<Call = T::Call, Answer = T::Answer>,
{
    ghost replies = { λ enabled key v w h h' s t reply. HeldReplyMut ⟦<M as Meant>⟧.meaning
        T.Call.touches (invocation key (T.answers v) enabled) (H.entries h)
        (λ late P W. ⟦<S as Breaking>⟧.took_as late s t P W × ⟦<T as Written>⟧.did v w W)
        reply (H.entries h') };

    ghost fails = { λ enabled key v w h h' s t fault.
        Leads (H.entries h) (H.entries h') (λ es es'. FailsBy ⟦<M as Meant>⟧.meaning es
        (invocation key (T.answers v) enabled) (⟦<T as Written>⟧.did v w)
        (S.spoils s t) (⟦<S as Breaking>⟧.spoiled_after s t) fault es') };

    ghost breaks = { λ enabled key v w h h' s t.
        Leads (H.entries h) (H.entries h') (λ es es'. IsFailed ⟦<M as Meant>⟧.meaning
        T.Call.touches es (invocation key (T.answers v) enabled) (⟦<T as Written>⟧.did v w)
        (⟦<S as Breaking>⟧.breaks_off s t) (⟦<S as Breaking>⟧.spoiled_after s t) es') };
}

/// Calls a memoized function that writes: does the writes of an entry that agrees and returns its output, or runs the
/// function and stores the run. Sink and `enabled` are as in `memoized_with`.
pub fn memoized_mut_with<M: RunMut<T, N>, H: Hold<M>, N, T: Track, S>(
    alloc: Global,
    cache: &mut H,
    needs: &mut N,
    key: M::Key,
    of: &mut T,
    sink: &mut S,
    enabled: bool,
) -> Result<Reply<M::Out>, Fault>
where
    S: Sink<Call = T::Call, Answer = T::Answer>,
    ensures right { IfOk result (λ reply. (reply.how ≡ How.Late → ⊥)
        → (writes : List T.Call)
        × IsRight M.means M.writes key (T.answers of.old) reply.output writes
        × ⟦<T as Written>⟧.did of.old of.new writes) }
    ensures reply { IfOk result (⟦<M as AnsweringMut<H, T, S>>⟧.replies
        enabled key of.old of.new cache.old cache.new sink.old sink.new) }
    ensures early { IfOk result (λ reply. reply.how ≡ How.Late
        → M.late key × (NoneTouches T.Call.touches → ⊥)) }
    ensures needs { SparesNeeds ⟦<M as Meant>⟧.meaning
        (invocation key (T.answers of.old) enabled) (H.entries cache.old)
        needs.old needs.new result }
    ensures reached { Reaches ⟦<T as Written>⟧.did of.old of.new }
    ensures fault { IfErr result (⟦<M as AnsweringMut<H, T, S>>⟧.fails
        enabled key of.old of.new cache.old cache.new sink.old sink.new) }
    ensures err { OnErr result (⟦<M as AnsweringMut<H, T, S>>⟧.breaks
        enabled key of.old of.new cache.old cache.new sink.old sink.new) }
{
    let mut input = KeyedMut {
        key: &key,
        value: of,
    };
    let begun = begin(alloc, cache, &mut input, sink, enabled);
    let KeyedMut { key: _, value } = input;
    match begun {
        Ok(Begun::Hit(output)) => {
            return Ok(Reply {
                output,
                how: How::Hit,
            });
        }
        Ok(Begun::Run(mut pending)) => {
            let (ran, recording) = run_recorded::<M, T, N>(alloc, &key, value, needs);
            pending.recording = recording;
            pending.end(cache, sink, ran)
        }
        Err(fault) => Err(fault),
    }
}

/// Calls a memoized function that writes and has no needs, outside of any run.
pub fn memoized_mut<M: RunMut<T, ()>, H: Hold<M>, T: Track>(
    alloc: Global,
    cache: &mut H,
    key: M::Key,
    of: &mut T,
) -> Result<Reply<M::Out>, Fault>
    ensures right { IfOk result (λ reply. (reply.how ≡ How.Late → ⊥)
        → (writes : List T.Call)
        × IsRight M.means M.writes key (T.answers of.old) reply.output writes
        × ⟦<T as Written>⟧.did of.old of.new writes) }
    ensures reply { IfOk result (λ reply. HeldReplyMut ⟦<M as Meant>⟧.meaning T.Call.touches
        (invocation key (T.answers of.old) true) (H.entries cache.old)
        (λ _ _ W. ⟦<T as Written>⟧.did of.old of.new W)
        reply (H.entries cache.new)) }
    ensures early { IfOk result (λ reply. reply.how ≡ How.Late
        → M.late key × (NoneTouches T.Call.touches → ⊥)) }
    ensures reached { Reaches ⟦<T as Written>⟧.did of.old of.new }
    ensures fault { IfErr result (λ fault.
        Leads (H.entries cache.old) (H.entries cache.new) (λ es es'. FailsBy
        ⟦<M as Meant>⟧.meaning es (invocation key (T.answers of.old) true)
        (⟦<T as Written>⟧.did of.old of.new) ⊤ (λ _ _. ⊤) fault es')) }
{
    memoized_mut_with(alloc, cache, &mut (), key, of, &mut Top::new(), true)
}
