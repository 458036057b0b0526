//! A call of a memoized function whose run is a closure.
ghost use Rattle.std.specs.Prelude.{◌≡◌, [], Bool, true, false, IfOk, IfErr, OnErr, Ok};
ghost use Rattle.std.specs.Borrow.{MutBor};
ghost use Rattle.comemo_track.specs.Recording.{Recording};
ghost use Rattle.comemo_cache.specs.Meaning.{IsNamedRun, run};
ghost use Rattle.comemo_cache.specs.Cache.{Stands};
ghost use Rattle.comemo_cache.specs.Held.{Held, Leads, LeadsBy};
ghost use Rattle.comemo.specs.Closure.{Starts, Ran, RanTo, Ended, IsFault, IsBroken};

use crate::pending::{Begun, Calling, Fault, How, Invoked, Reply, begin};
use comemo_cache::cache::{Function, Meant};
use comemo_cache::hold::Hold;
use comemo_track::constraint::Constraint;
use comemo_track::input::Input;
use comemo_track::track::{Breaking, Call, Sink};
use std::alloc::Global;

/// The recording that a closure gets: a `Constraint`. There is no other implementation.
///
/// It is a trait, since the closure's type can't name `Constraint` in a bound.
pub trait Record {
    /// What a run can ask.
    type Call: Call;

    /// The answer to a read: one type for all calls.
    type Answer: Clone + Ord;

    // what it holds
    ghost recorded: { Self → Recording Self.Call Self.Answer };

    /// An empty recording: complete, and not late. Does not allocate.
    fn empty(alloc: Global) -> Self
        ensures pairs { (recorded result).pairs ≡ [] }
        ensures writes { (recorded result).writes ≡ [] }
        ensures complete { (recorded result).complete ≡ true }
        ensures early { (recorded result).late ≡ false };

    /// The recording itself.
    fn into_constraint(self) -> Constraint<Self::Call, Self::Answer>
        ensures { result ≡ recorded self };
}

impl<C: Call, R: Clone + Ord> Record for Constraint<C, R> {
    type Call = C;

    type Answer = R;

    ghost recorded = { λ s. s };

    fn empty(alloc: Global) -> Self {
        Constraint::new(alloc)
    }

    fn into_constraint(self) -> Constraint<C, R> {
        self
    }
}

/// How a call whose run is a closure goes, for contracts, as `⟦<M as Does<H, In, S, P>>⟧.ran`: by the closure's
/// precondition or postcondition. There is nothing to implement.
pub trait Does<H, In, S, P>: Function
where
    H: Hold<Self>,
    In: Input<Call = Self::Call, Key = Self::Key, Answer = Self::Answer>,
    S: Sink<Call = Self::Call, Answer = Self::Answer>,
    P: Record<Call = Self::Call, Answer = Self::Answer>,
{
    ghost use Rattle.comemo.specs.Closure.{Deed};
    ghost use Rattle.comemo.specs.declared.pending.Fault.{Fault};
    ghost use Rattle.comemo.specs.declared.pending.Reply.{Reply};

    // the closure may be called with the input and an empty recording, unless an entry has the key and agrees
    ghost calls: { (MutBor In → MutBor P → Type 0) → H → In → Bool → Type 0 };

    // unless its recording is incomplete or late, its output is right for all answers that agree with it
    ghost right: { Deed In P Self.Out → H → In → Bool → Type 0 };

    // if the asked calls are named, the recording is a run of them
    ghost named: { Deed In P Self.Out → H → In → Bool → Type 0 };

    // it ran, and the call had this reply
    ghost ran: { Deed In P Self.Out → Bool → H → H → In → In → S → S
        → Reply Self.Out → Type 0 };

    // why the call failed
    ghost fails: { Deed In P Self.Out → Bool → H → In → In → Fault → Type 0 };

    // what the failed call did to sink and entries
    ghost breaks: { Deed In P Self.Out → Bool → H → H → In → In → S → S → Type 0 };
}

impl<M: Function, H, In, S, P> Does<H, In, S, P> for M
where
    H: Hold<M>,
    In: Input<Call = M::Call, Key = M::Key, Answer = M::Answer>,
    S: Sink<Call = M::Call, Answer = M::Answer>,
    P: Record<Call = M::Call, Answer = M::Answer>,
{
    ghost calls = { λ pre h input enabled. (i : MutBor In) (p : MutBor P)
        → Held (H.entries h) (λ es. Starts ⟦<M as Meant>⟧.meaning es
        (⟦<In as Invoked>⟧.invoked input enabled) In.did P.recorded input i p)
        → pre i p };

    ghost right = { λ post h input enabled. (output : M.Out) (t : Recording M.Call M.Answer)
        → Held (H.entries h) (λ es. Ran ⟦<M as Meant>⟧.meaning es
        (⟦<In as Invoked>⟧.invoked input enabled)
        In.did P.recorded post input (Ok output) t)
        → t.complete ≡ true → t.late ≡ false
        → Stands ⟦<M as Meant>⟧.meaning (run (In.key_of input) t.pairs output t.writes) };

    ghost named = { λ post h input enabled. (output : M.Out) (t : Recording M.Call M.Answer)
        → Held (H.entries h) (λ es. Ran ⟦<M as Meant>⟧.meaning es
        (⟦<In as Invoked>⟧.invoked input enabled)
        In.did P.recorded post input (Ok output) t)
        → t.complete ≡ true → t.late ≡ false
        → IsNamedRun ⟦<M as Meant>⟧.meaning (In.key_of input) t.pairs };

    ghost ran = { λ post enabled h h' i j s t reply.
        LeadsBy (H.entries h) (H.entries h) (H.entries h') (λ es mid es'.
        Ended ⟦<M as Meant>⟧.meaning mid (⟦<In as Invoked>⟧.invoked i enabled)
        (RanTo ⟦<M as Meant>⟧.meaning es (⟦<In as Invoked>⟧.invoked i enabled)
        In.did P.recorded post i j)
        (λ late. ⟦<S as Breaking>⟧.took_as late s t) reply.output reply.how es') };

    ghost fails = { λ post enabled h i j fault. Held (H.entries h) (λ es.
        IsFault ⟦<M as Meant>⟧.meaning es (⟦<In as Invoked>⟧.invoked i enabled)
        In.did P.recorded post i j fault) };

    ghost breaks = { λ post enabled h h' i j s t. Leads (H.entries h) (H.entries h') (λ es es'.
        IsBroken ⟦<M as Meant>⟧.meaning es (⟦<In as Invoked>⟧.invoked i enabled)
        In.did P.recorded post i j (⟦<S as Breaking>⟧.breaks_off s t)
        (⟦<S as Breaking>⟧.spoiled_after s t) es') };
}

/// Calls a memoized function whose run is a closure: returns the output of an entry that agrees, or calls the closure
/// and stores the run.
///
/// All that the closure asks must go to its recording. Unless that is late, the output must be right for all answers
/// that agree with it. With `enabled` false there is no look-up, and nothing is stored.
pub fn memoize<M: Function, H: Hold<M>, In, S, P, F>(
    alloc: Global,
    cache: &mut H,
    input: &mut In,
    sink: &mut S,
    enabled: bool,
    func: F,
) -> Result<Reply<M::Out>, Fault>
where
    In: Input<Call = M::Call, Key = M::Key, Answer = M::Answer>,
    S: Sink<Call = M::Call, Answer = M::Answer>,
    P: Record<Call = M::Call, Answer = M::Answer>,
    F: FnOnce(&mut In, &mut P) -> Result<M::Out, Fault>,
    requires callable { ⟦<M as Does<H, In, S, P>>⟧.calls (F.pre func) cache.now input.now enabled }
    requires right { ⟦<M as Does<H, In, S, P>>⟧.right (F.post func) cache.now input.now enabled }
    requires settled { ⟦<M as Does<H, In, S, P>>⟧.named (F.post func) cache.now input.now enabled }
    ensures hit { IfOk result (λ reply. reply.how ≡ How.Hit → ⟦<M as Calling<H, In, S>>⟧.hits
        enabled cache.old cache.new input.old input.new sink.old sink.new reply.output) }
    ensures run { IfOk result (λ reply. (reply.how ≡ How.Hit → ⊥) → ⟦<M as Does<H, In, S, P>>⟧.ran
        (F.post func) enabled cache.old cache.new input.old input.new sink.old sink.new reply) }
    ensures fault { IfErr result (⟦<M as Does<H, In, S, P>>⟧.fails (F.post func)
        enabled cache.old input.old input.new) }
    ensures err { OnErr result (⟦<M as Does<H, In, S, P>>⟧.breaks (F.post func)
        enabled cache.old cache.new input.old input.new sink.old sink.new) }
{
    match begin(alloc, cache, input, sink, enabled) {
        Ok(Begun::Hit(output)) => {
            return Ok(Reply {
                output,
                how: How::Hit,
            });
        }
        Ok(Begun::Run(mut pending)) => {
            let mut recording = P::empty(alloc);
            let ran = func(input, &mut recording);
            pending.recording = recording.into_constraint();
            pending.end(cache, sink, ran)
        }
        Err(fault) => Err(fault),
    }
}
