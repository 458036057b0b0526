//! Lists of requests to a cache, and what became of each: every such list is a history.
ghost use Rattle.std.specs.Prelude.{◌≡◌, ◌<◌, [], List, IfOk, IsTrue};
ghost use Rattle.std.specs.List.{All, AllZip};
ghost use Rattle.comemo.specs.Function.{WritesNone};
ghost use Rattle.comemo_theorems.specs.History.{Step, History, Honest};
ghost use Rattle.comemo_theorems.specs.Requests.{IsAnswer, AreAnswers, IsRightAnswer};

use comemo::internal::Meant;
use comemo::{CacheData, Constraint, Fault, How, Reply, Run, Top, Track, memoized_with};
use std::alloc::{AllocError, Global};

/// A request to a cache.
#[derive(Drop)]
pub enum Request<K, T> {
    /// A call under a key, of a value.
    Call {
        /// The key.
        key: K,
        /// The value.
        of: T,
    },
    /// An eviction.
    Evict {
        /// The bound.
        max_age: usize,
    },
}

/// What became of a request.
#[derive(Drop)]
pub enum Event<O> {
    /// The call returned this.
    Replied(Reply<O>),
    /// The call failed.
    Failed(Fault),
    /// The eviction was done.
    Evicted,
}

/// Answers a request.
fn answer<M: Run<T, N>, T: Track + Drop, N>(
    alloc: Global,
    cache: &mut CacheData<M>,
    needs: &mut N,
    request: Request<M::Key, T>,
) -> Event<M::Out>
    requires { WritesNone M.writes }
    ensures { (own : List (Step M.Key T.Call T.Answer M.Out))
        × IsAnswer ⟦<M as Meant>⟧.meaning T.answers request result own
        × History ⟦<M as Meant>⟧.meaning own cache.old cache.new
        × All (Honest ⟦<M as Meant>⟧.meaning) own }
{
    match request {
        Request::Call { key, of } => {
            match memoized_with(alloc, cache, needs, key, &of, &mut Top::new(), true) {
                Ok(reply) => Event::Replied(reply),
                Err(fault) => Event::Failed(fault),
            }
        }
        Request::Evict { max_age } => {
            cache.evict(max_age);
            Event::Evicted
        }
    }
}

/// Answers requests in turn.
///
/// Fails before the first request if out of memory for the list of events.
pub fn answer_all<M: Run<T, N>, T: Track + Drop, N>(
    alloc: Global,
    cache: &mut CacheData<M>,
    needs: &mut N,
    requests: Vec<Request<M::Key, T>>,
) -> Result<Vec<Event<M::Out>>, AllocError>
    requires { WritesNone M.writes }
    ensures history { IfOk result (λ events. (h : List (Step M.Key T.Call T.Answer M.Out))
        × AreAnswers ⟦<M as Meant>⟧.meaning T.answers requests.items events.items h
        × History ⟦<M as Meant>⟧.meaning h cache.old cache.new
        × All (Honest ⟦<M as Meant>⟧.meaning) h) }
    ensures right { cache.old ≡ [] → IfOk result (λ events. AllZip
        (IsRightAnswer ⟦<M as Meant>⟧.meaning T.answers) requests.items events.items) }
{
    let mut events = Vec::with_capacity(alloc, requests.len())?;
    for request in requests {
        events.push_reserved(answer(alloc, cache, needs, request));
    }
    Ok(events)
}

/// The replies of two calls, and whether the answers to the questions of the first one are the same before the second.
pub struct Around<O> {
    /// The reply of the first call.
    pub first: Reply<O>,
    /// Whether these answers are the same.
    pub valid: bool,
    /// The reply of the second call.
    pub second: Reply<O>,
}

/// Calls a function of a value, evicts, and calls it with an equal key, of the changed value.
///
/// If the first call was stored, and the answers to its questions are the same, the second is a hit. Its output is a
/// clone of the clone that was stored. Fails if a call does, or if out of memory.
pub fn call_evict_call<M: Run<T, N>, T: Track, N>(
    alloc: Global,
    cache: &mut CacheData<M>,
    needs: &mut N,
    key: M::Key,
    before: &T,
    max_age: usize,
    after: &T,
) -> Result<Around<M::Out>, Fault>
    requires alone { WritesNone M.writes }
    requires low { 0 < max_age }
    ensures { IfOk result (λ around. IsTrue around.valid → around.first.how ≡ How.Stored
        → (around.second.how ≡ How.Hit) × (kept : M.Out)
        × M.Out.is_clone around.first.output kept × M.Out.is_clone kept around.second.output) }
{
    let again = key.clone()?;
    let mut asked = Constraint::new(alloc);
    let first = memoized_with(alloc, cache, needs, key, before, &mut asked, true)?;
    let valid = asked.validate(after)?;
    cache.evict(max_age);
    let second = memoized_with(alloc, cache, needs, again, after, &mut Top::new(), true)?;
    Ok(Around {
        first,
        valid,
        second,
    })
}
