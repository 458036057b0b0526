//! Calls in which one clone fails, whichever it is: how a call of a memoized function ends, and what it leaves of its
//! sink, its cache and the age of its entry.
ghost use Rattle.std.specs.Prelude.{◌≡◌, false, nat_eq, IfOk};
ghost use Rattle.std.specs.List.{All};
ghost use Rattle.std.proofs.Common.{rules};
ghost use Rattle.comemo.specs.Steps.{IsStep};

use comemo::internal::{Keyed, Meant, Pending, Step, StepReply};
use comemo::{Begun, CacheData, Call, Constraint, Fault, Function, How, Reply, Sink, Track, begin};
use std::alloc::{AllocError, Global};
use std::hash::{Hash, Hasher};
use std::sync::Arc;
use std::sync::atomic::{AtomicU64, Ordering};

/// How many clones succeed before one fails.
type Left = Arc<AtomicU64, Global>;

/// A read by its number. Its clones are counted, and the one at which none is left fails.
#[derive(Drop)]
pub struct Scarce {
    number: u64,
    left: Left,
}

impl Clone for Scarce {
    ghost is_clone = { λ call copy. copy.number ≡ call.number };

    fn clone(&self) -> Result<Self, AllocError> {
        let left = self.left.load(Ordering::SeqCst);
        self.left.store(left.wrapping_sub(1), Ordering::SeqCst);
        if left == 0 {
            return Err(AllocError);
        }
        Ok(Scarce {
            number: self.number,
            left: Arc::try_clone(&self.left)?,
        })
    }
}

impl PartialEq for Scarce {
    ghost eq = { λ a b. nat_eq a.number b.number };

    ghost laws = { Prim.search rules };

    fn eq(&self, other: &Scarce) -> bool {
        self.number == other.number
    }
}

impl Eq for Scarce {
    ghost laws = { Prim.search rules };
}

impl Hash for Scarce {
    ghost use Rattle.std.specs.Hash as fed;
    ghost use Rattle.std.specs.Cmp.Rules.{hashing};

    ghost hash_input = { λ s. fed.u64 s.number };

    ghost respects_eq = { Prim.search (hashing, rules) };

    fn hash<H: Hasher>(&self, state: &mut H) {
        state.write_u64(self.number);
    }
}

impl Call for Scarce {
    ghost is_write = { λ _. false };

    ghost touches = { λ _ _. false };

    ghost laws = { Prim.search rules };

    fn is_mutable(&self) -> bool {
        false
    }

    fn touches(&self, _read: &Scarce) -> bool {
        false
    }
}

/// A value that answers each number with itself.
#[derive(Drop)]
pub struct Echo;

impl Track for Echo {
    type Call = Scarce;

    type Answer = u64;

    ghost answers = { λ _ call. call.number };

    ghost alike = { λ s x y h. Prim.search rules };

    fn ask(&self, call: &Scarce) -> Result<u64, AllocError> {
        Ok(call.number)
    }
}

/// A function of which any output is right.
pub struct AnyEcho;

impl Function for AnyEcho {
    type Call = Scarce;

    type Key = u64;

    type Answer = u64;

    type Out = u64;

    ghost means = { λ _ _ _. Unit {0} };

    ghost writes = { λ _ _ _ _. Unit {0} };

    ghost laws = { Prim.search rules };
}

/// The recording of a run.
type Recording = Constraint<Scarce, u64>;

/// The read of a number.
fn read(number: u64, left: &Left) -> Result<Scarce, AllocError> {
    let left = Arc::try_clone(left)?;
    Ok(Scarce { number, left })
}

/// Asks 1 and 2, and returns their sum.
fn ask_both(alloc: Global, left: &Left, recording: &mut Recording) -> Result<u64, AllocError> {
    let echo = Echo;
    let mut view = echo.view(alloc);
    let one = view.ask(read(1, left)?, recording)?;
    let two = view.ask(read(2, left)?, recording)?;
    Ok(one.wrapping_add(two))
}

/// Calls the function. A run asks 1 and 2 and returns 3.
fn call(
    alloc: Global,
    left: &Left,
    cache: &mut CacheData<AnyEcho>,
    sink: &mut Recording,
) -> Result<Reply<u64>, Fault> {
    let echo = Echo;
    let mut input = Keyed {
        key: &7,
        view: echo.view(alloc),
    };
    match begin(alloc, cache, &mut input, sink, true) {
        Ok(Begun::Hit(output)) => {
            let how = How::Hit;
            Ok(Reply { output, how })
        }
        Ok(Begun::Run(mut pending)) => {
            let Ok(sum) = ask_both(alloc, left, pending.recording()) else {
                pending.give_up(sink);
                return Err(Fault::Memory);
            };
            pending.finish(cache, sink, sum)
        }
        Err(fault) => Err(fault),
    }
}

/// How a call ended; `None` if it returned anything but 3.
fn became(reply: Result<Reply<u64>, Fault>) -> Option<Result<How, Fault>> {
    match reply {
        Ok(reply) => (reply.output == 3).then_some(Ok(reply.how)),
        Err(fault) => Some(Err(fault)),
    }
}

/// How many of the pairs of 1 and 2, in order, a recording has; `None` if it has others.
fn pairs_in(sink: Recording) -> Option<u64> {
    let (mut reads, writes) = sink.into_parts();
    let mut count: u64 = 0;
    for number in 1..=2_u64 {
        match reads.next() {
            Some((call, answer)) if call.number == number && answer == number => count = number,
            Some(_) => return None,
            None => {}
        }
    }
    (reads.next().is_none() && writes.is_empty()).then_some(count)
}

/// The age of the function's entry, if there is one.
fn age_of(alloc: Global, left: &Left, cache: &CacheData<AnyEcho>) -> Option<usize> {
    left.store(99, Ordering::SeqCst);
    let echo = Echo;
    let mut input = Keyed {
        key: &7,
        view: echo.view(alloc),
    };
    match cache.look(&7, &mut input) {
        Ok(Some(found)) => Some(found.age),
        _ => None,
    }
}

/// Whether a call ends as `how` if this many clones succeed before one fails. Then its sink has this many of the pairs
/// and is incomplete exactly if the call failed, and the entry has this age, or there is none.
fn becomes(
    alloc: Global,
    left: &Left,
    cache: &mut CacheData<AnyEcho>,
    granted: u64,
    how: Result<How, Fault>,
    (pairs, age): (u64, Option<usize>),
) -> bool {
    left.store(granted, Ordering::SeqCst);
    let mut sink = Constraint::new(alloc);
    let is_so = became(call(alloc, left, cache, &mut sink)) == Some(how);
    let is_whole = sink.is_whole() == how.is_ok();
    let is_sent = pairs_in(sink) == Some(pairs);
    let is_kept = cache.len() == usize::from(age.is_some());
    is_so && is_whole && is_sent && is_kept && age_of(alloc, left, cache) == age
}

/// Whether a first call ends as `how`.
fn is_run(
    alloc: Global,
    granted: u64,
    how: Result<How, Fault>,
    pairs: u64,
    age: Option<usize>,
) -> bool {
    let Ok(left) = Arc::new(alloc, AtomicU64::new(0)) else {
        return false;
    };
    let mut cache = CacheData::new(alloc);
    becomes(alloc, &left, &mut cache, granted, how, (pairs, age))
}

#[test]
fn a_run_is_refused_each_clone_in_turn(rt: HostRuntime) {
    // How many clones succeed, how the call ends, the pairs that its sink has, and the age of its entry.
    let calls: &[(u64, Result<How, Fault>, u64, Option<usize>)] = &[
        // These clones are for the recording.
        (0, Err(Fault::Memory), 0, None),
        (1, Err(Fault::Memory), 0, None),
        // These are copies for the sink and for the store.
        (2, Ok(How::NotStored), 2, None),
        (3, Ok(How::NotStored), 2, None),
        // These go to the sink.
        (4, Err(Fault::Memory), 0, None),
        (5, Err(Fault::Memory), 1, None),
        (6, Ok(How::Stored), 2, Some(0)),
    ];
    for (granted, how, pairs, age) in calls {
        let is_so = is_run(rt.alloc(), *granted, *how, *pairs, *age);
        assert!(rt; is_so, "for {granted}");
    }
}

/// Whether a call whose entry outlived an eviction ends as `how`.
fn is_hit(
    alloc: Global,
    granted: u64,
    how: Result<How, Fault>,
    pairs: u64,
    age: Option<usize>,
) -> bool {
    let Ok(left) = Arc::new(alloc, AtomicU64::new(0)) else {
        return false;
    };
    let mut cache = CacheData::new(alloc);
    let stored = Ok(How::Stored);
    let is_kept = becomes(alloc, &left, &mut cache, 99, stored, (2, Some(0)));
    cache.evict(9);
    is_kept && becomes(alloc, &left, &mut cache, granted, how, (pairs, age))
}

#[test]
fn a_hit_is_refused_each_clone_in_turn(rt: HostRuntime) {
    // The same for a hit.
    let calls: &[(u64, Result<How, Fault>, u64, Option<usize>)] = &[
        // These clones copy the path.
        (0, Err(Fault::Memory), 0, Some(1)),
        (1, Err(Fault::Memory), 0, Some(1)),
        // These go to the sink.
        (2, Err(Fault::Memory), 0, Some(1)),
        (3, Err(Fault::Memory), 1, Some(1)),
        (4, Ok(How::Hit), 2, Some(0)),
    ];
    for (granted, how, pairs, age) in calls {
        let is_so = is_hit(rt.alloc(), *granted, *how, *pairs, *age);
        assert!(rt; is_so, "for {granted}");
    }
}

/// A run of the function that begins in a new cache.
fn begin_run(
    alloc: Global,
    cache: &mut CacheData<AnyEcho>,
    sink: &mut Recording,
) -> Option<Pending<AnyEcho>> {
    let echo = Echo;
    let mut input = Keyed {
        key: &7,
        view: echo.view(alloc),
    };
    match begin(alloc, cache, &mut input, sink, true) {
        Ok(Begun::Run(pending)) => Some(pending),
        Ok(Begun::Hit(_)) => None,
        Err(_) => None,
    }
}

/// Whether a call within a run fails, the run is incomplete then, and nothing is stored or sent to its sink.
fn is_lost(alloc: Global, granted: u64) -> bool {
    let Ok(left) = Arc::new(alloc, AtomicU64::new(granted)) else {
        return false;
    };
    let mut inner = CacheData::new(alloc);
    let mut outer: CacheData<AnyEcho> = CacheData::new(alloc);
    let mut sink = Constraint::new(alloc);
    let Some(mut pending) = begin_run(alloc, &mut outer, &mut sink) else {
        return false;
    };
    let within = became(call(alloc, &left, &mut inner, pending.recording()));
    let ended = became(pending.finish(&mut outer, &mut sink, 3));
    let is_told = within == Some(Err(Fault::Memory)) && ended == Some(Err(Fault::Incomplete));
    let is_given = sink.is_whole() || pairs_in(sink) != Some(0);
    is_told && !is_given && inner.len() == 0 && outer.len() == 0
}

#[test]
fn a_run_is_incomplete_whose_call_was_refused(rt: HostRuntime) {
    let grants: &[u64] = &[0, 1, 4, 5];
    for granted in grants {
        let is_so = is_lost(rt.alloc(), *granted);
        assert!(rt; is_so, "for {granted}");
    }
}

/// The pairs of 1 and 2.
fn pairs(alloc: Global, left: &Left) -> Result<Vec<(Scarce, u64)>, AllocError> {
    let mut pairs = Vec::new(alloc);
    pairs.push((read(1, left)?, 1))?;
    pairs.push((read(2, left)?, 2))?;
    Ok(pairs)
}

/// Stores 3, looks up, evicts and looks up again.
fn steps(alloc: Global, left: &Left) -> Result<Vec<Step<AnyEcho>>, AllocError>
    ensures { IfOk result (λ steps. All (IsStep ⟦<AnyEcho as Meant>⟧.meaning) steps.items) }
{
    let stored = pairs(alloc, left)?;
    let first = pairs(alloc, left)?;
    let second = pairs(alloc, left)?;
    let mut steps = Vec::with_capacity(alloc, 4)?;
    steps.push_reserved(Step::Store {
        key: 7,
        pairs: stored,
        output: 3,
        writes: Vec::new(alloc),
    });
    steps.push_reserved(Step::Look {
        key: 7,
        answers: first,
        other: 0,
    });
    steps.push_reserved(Step::Evict { max_age: 9 });
    steps.push_reserved(Step::Look {
        key: 7,
        answers: second,
        other: 0,
    });
    Ok(steps)
}

/// The reply to a step. Of an entry that is found it has the age.
#[derive(Clone, Copy, Drop, PartialEq, Eq)]
enum Said {
    Found(usize),
    NotFound,
    Stored,
    Memory,
    Done,
    Else,
}

/// A reply, shortened.
fn said_by(reply: &StepReply<AnyEcho>) -> Said {
    match reply {
        StepReply::Found(found) if found.output == 3 => Said::Found(found.age),
        StepReply::NotFound => Said::NotFound,
        StepReply::Stored => Said::Stored,
        StepReply::Memory => Said::Memory,
        StepReply::Done => Said::Done,
        _ => Said::Else,
    }
}

/// Whether the replies to the steps are these if this many clones succeed before one fails, and this many entries are
/// kept.
fn are_answered(alloc: Global, granted: u64, wanted: [Said; 4], len: usize) -> bool {
    let Ok(left) = Arc::new(alloc, AtomicU64::new(granted)) else {
        return false;
    };
    let Ok(steps) = steps(alloc, &left) else {
        return false;
    };
    let mut cache: CacheData<AnyEcho> = CacheData::new(alloc);
    let Ok(replies) = cache.replay(alloc, steps) else {
        return false;
    };
    let mut are_so = replies.len() == 4 && cache.len() == len;
    for (reply, said) in replies.iter().zip(&wanted) {
        are_so = are_so && said_by(reply) == *said;
    }
    are_so
}

#[test]
fn a_step_that_is_refused_changes_nothing(rt: HostRuntime) {
    let alloc = rt.alloc();
    let nothing = [Said::Memory, Said::NotFound, Said::Done, Said::NotFound];
    let unseen = [Said::Stored, Said::Memory, Said::Done, Said::Found(1)];
    let unseen_later = [Said::Stored, Said::Found(0), Said::Done, Said::Memory];
    let all = [Said::Stored, Said::Found(0), Said::Done, Said::Found(1)];
    assert!(rt; are_answered(alloc, 0, nothing, 0));
    assert!(rt; are_answered(alloc, 1, nothing, 0));
    assert!(rt; are_answered(alloc, 2, unseen, 1));
    assert!(rt; are_answered(alloc, 3, unseen, 1));
    assert!(rt; are_answered(alloc, 4, unseen_later, 1));
    assert!(rt; are_answered(alloc, 5, unseen_later, 1));
    assert!(rt; are_answered(alloc, 6, all, 1));
}
