//! A memoized function that asks through a `Tracked`, and a value that counts how often it is asked.
ghost use Rattle.std.specs.Prelude.{◌≡◌, IfOk, false};
ghost use Rattle.std.proofs.Common.{rules};

use crate::inputs::LocationOf;
use comemo::{
    Begun, CacheData, Call, Constraint, Fault, How, Reply, Sink, Top, Track, Tracked, begin,
};
use comemo_examples::{Context, ContextCall};
use std::alloc::{AllocError, Global};
use std::hash::Hash;
use std::sync::atomic::{AtomicU64, Ordering};

/// A context that counts how often it is asked, and may fail to answer for its styles.
#[derive(Drop)]
pub struct Counting {
    context: Context,
    refuses: bool,
    asked: AtomicU64,
}

impl Counting {
    /// A context that has not been asked yet.
    pub fn new(location: u64, styles: u64, refuses: bool) -> Counting {
        Counting {
            context: Context { location, styles },
            refuses,
            asked: AtomicU64::new(0),
        }
    }

    /// How often it was asked.
    pub fn asked(&self) -> u64 {
        self.asked.load(Ordering::SeqCst)
    }
}

impl Track for Counting {
    type Call = ContextCall;

    type Answer = u64;

    ghost use Rattle.comemo_examples.specs.Contexts.{field};

    ghost answers = { λ s call. field s.context.location s.context.styles call };

    ghost alike = { λ s x y h. Prim.search rules };

    fn ask(&self, call: &ContextCall) -> Result<u64, AllocError> {
        self.asked.fetch_add(1, Ordering::SeqCst);
        if self.refuses && *call == ContextCall::Styles {
            return Err(AllocError);
        }
        self.context.ask(call)
    }
}

/// The location of a context, through a cache, by a view that keeps answers.
pub fn known_location(
    alloc: Global,
    cache: &mut CacheData<LocationOf>,
    view: &mut Tracked<'_, Counting>,
) -> Result<Reply<u64>, Fault>
    ensures output { IfOk result (λ reply. reply.output ≡ view.old.value.context.location) }
    ensures same { view.new.value ≡ view.old.value }
{
    match begin(alloc, cache, view, &mut Top::new(), true) {
        Ok(Begun::Hit(output)) => Ok(Reply {
            output,
            how: How::Hit,
        }),
        Ok(Begun::Run(mut pending)) => {
            let Ok(at) = view.ask(ContextCall::Location, pending.recording()) else {
                pending.give_up(&mut Top::new());
                return Err(Fault::Memory);
            };
            pending.finish(cache, &mut Top::new(), at)
        }
        Err(fault) => Err(fault),
    }
}

/// Whether three calls through one view of a value return its location, the first ends as `how`, and the others are
/// hits. The value is asked once.
fn asks_once(alloc: Global, cache: &mut CacheData<LocationOf>, location: u64, first: How) -> bool {
    let value = Counting::new(location, 5, false);
    let mut view = value.track(alloc);
    let hows: &[How] = &[first, How::Hit, How::Hit];
    for how in hows {
        let is_so = match known_location(alloc, cache, &mut view) {
            Ok(reply) => reply.output == location && reply.how == *how,
            Err(_) => false,
        };
        if !is_so {
            return false;
        }
    }
    value.asked() == 1
}

#[test]
fn hits_and_runs_ask_through_one_view(rt: HostRuntime) {
    let alloc = rt.alloc();
    let mut cache = CacheData::new(alloc);
    let is_first = asks_once(alloc, &mut cache, 3, How::Stored);
    // The look-up asks before the run does.
    let is_other = asks_once(alloc, &mut cache, 4, How::Stored);
    let is_again = asks_once(alloc, &mut cache, 3, How::Hit);
    assert!(rt; is_first);
    assert!(rt; is_other);
    assert!(rt; is_again);
}

/// Whether a view returns the location 3 twice.
fn gives_twice(view: &mut Tracked<'_, Counting>) -> bool {
    let first = view.ask(ContextCall::Location, &mut Top::new());
    let second = view.ask(ContextCall::Location, &mut Top::new());
    first == Ok(3) && second == Ok(3)
}

/// Whether a view keeps an answer, and sends it without asking the value again.
fn sends_what_it_knows(alloc: Global) -> bool {
    let value = Counting::new(3, 5, false);
    let mut view = value.track(alloc);
    let is_given = gives_twice(&mut view);
    let is_known = view.known(&ContextCall::Location) == Some(&3);
    let mut recording = Constraint::new(alloc);
    let is_sent = view.ask(ContextCall::Location, &mut recording) == Ok(3);
    let is_held = recording.emit(ContextCall::Location, Some(4)) == Ok(false);
    let here = recording.validate(&Counting::new(3, 6, false));
    let there = recording.validate(&Counting::new(4, 5, false));
    let holds = here == Ok(true) && there == Ok(false);
    is_given && is_known && is_sent && is_held && holds && value.asked() == 1
}

/// Whether a fork of a view knows no answer that the view knows, nor the view one that its fork knows, and a `View` asks
/// each time.
fn forks_know_nothing(alloc: Global) -> bool {
    let value = Counting::new(3, 5, false);
    let mut view = value.track(alloc);
    let is_given = gives_twice(&mut view);
    let mut fork = view.fork(alloc);
    let was_unknown = fork.known(&ContextCall::Location).is_none();
    let is_forked = gives_twice(&mut fork) && value.asked() == 2;
    let styles = fork.ask(ContextCall::Styles, &mut Top::new()) == Ok(5);
    let is_unknown = view.known(&ContextCall::Styles).is_none();
    let mut plain = view.view(alloc);
    let at = plain.ask(ContextCall::Location, &mut Top::new()) == Ok(3) && value.asked() == 4;
    let again = plain.ask(ContextCall::Location, &mut Top::new()) == Ok(3) && value.asked() == 5;
    is_given && was_unknown && is_forked && styles && is_unknown && at && again
}

#[test]
fn a_view_that_keeps_answers_sends_them_and_its_fork_has_none(rt: HostRuntime) {
    let sends = sends_what_it_knows(rt.alloc());
    let forks = forks_know_nothing(rt.alloc());
    assert!(rt; sends);
    assert!(rt; forks);
}

/// A read whose clones fail to allocate.
#[derive(Drop, Debug, PartialEq, Eq, Hash)]
struct Single {
    number: u64,
}

impl Clone for Single {
    ghost use Rattle.std.specs.Prelude.{◌≡◌};

    ghost is_clone = { λ call copy. copy ≡ call };

    fn clone(&self) -> Result<Self, AllocError> {
        Err(AllocError)
    }
}

impl Call for Single {
    ghost is_write = { λ _. false };

    ghost touches = { λ _ _. false };

    ghost laws = { Prim.search rules };

    fn is_mutable(&self) -> bool {
        false
    }

    fn touches(&self, _read: &Single) -> bool {
        false
    }
}

/// A value that answers each number with itself, and counts how often it is asked.
#[derive(Drop)]
struct Echo {
    asked: AtomicU64,
}

impl Track for Echo {
    type Call = Single;

    type Answer = u64;

    ghost answers = { λ _ call. call.number };

    ghost alike = { λ s x y h. Prim.search rules };

    fn ask(&self, call: &Single) -> Result<u64, AllocError> {
        self.asked.fetch_add(1, Ordering::SeqCst);
        Ok(call.number)
    }
}

/// Whether a view that is out of memory for a call returns the answer of the value, and does not keep it.
fn goes_without(view: &mut Tracked<'_, Echo>) -> bool {
    let is_given = view.ask(Single { number: 8 }, &mut Top::new()) == Ok(8);
    is_given && view.known(&Single { number: 8 }).is_none()
}

#[test]
fn a_view_without_memory_goes_without(rt: HostRuntime) {
    let alloc = rt.alloc();
    let value = Echo {
        asked: AtomicU64::new(0),
    };
    let mut view = value.track(alloc);
    let is_so = goes_without(&mut view) && goes_without(&mut view);
    assert!(rt; is_so);
    assert_eq!(rt; value.asked.load(Ordering::SeqCst), 2);
}
