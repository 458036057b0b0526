//! Lists of requests to a function that writes, which are histories too.
ghost use Rattle.std.specs.Prelude.{◌≡◌, List, IfOk};
ghost use Rattle.std.specs.List.{All};
ghost use Rattle.comemo_cache.specs.Meaning.{SameWrites};
ghost use Rattle.comemo_theorems.specs.History.{Step, History, Honest};
ghost use Rattle.comemo_theorems.specs.Requests.{InTurn, IsAnswerMut};

use crate::requests::{Event, Request};
use comemo::internal::{Meant, Written};
use comemo::{CacheData, Fault, How, Reply, RunMut, Top, Track, memoized_mut, memoized_mut_with};
use std::alloc::{AllocError, Global};

/// Answers a request to a function that writes.
fn answer_mut<M: RunMut<T, N>, T: Track, N>(
    alloc: Global,
    cache: &mut CacheData<M>,
    needs: &mut N,
    of: &mut T,
    request: Request<M::Key, ()>,
) -> Event<M::Out>
    ensures { (own : List (Step M.Key T.Call T.Answer M.Out))
        × IsAnswerMut ⟦<M as Meant>⟧.meaning T.answers ⟦<T as Written>⟧.did
        request result of.old of.new own
        × History ⟦<M as Meant>⟧.meaning own cache.old cache.new
        × All (Honest ⟦<M as Meant>⟧.meaning) own }
{
    match request {
        Request::Call { key, of: () } => {
            match memoized_mut_with(alloc, cache, needs, key, of, &mut Top::new(), true) {
                Ok(reply) => Event::Replied(reply),
                Err(fault) => Event::Failed(fault),
            }
        }
        Request::Evict { max_age } => {
            cache.evict(max_age);
            Event::Evicted
        }
    }
}

/// Answers requests in turn to a function that writes, each where the one before it left the value.
///
/// Fails before the first request if out of memory for the list of events.
pub fn answer_all_mut<M: RunMut<T, N>, T: Track, N>(
    alloc: Global,
    cache: &mut CacheData<M>,
    needs: &mut N,
    of: &mut T,
    requests: Vec<Request<M::Key, ()>>,
) -> Result<Vec<Event<M::Out>>, AllocError>
    ensures { IfOk result (λ events. (h : List (Step M.Key T.Call T.Answer M.Out))
        × InTurn (IsAnswerMut ⟦<M as Meant>⟧.meaning T.answers ⟦<T as Written>⟧.did)
        requests.items events.items of.old of.new h
        × History ⟦<M as Meant>⟧.meaning h cache.old cache.new
        × All (Honest ⟦<M as Meant>⟧.meaning) h) }
{
    let mut events = Vec::with_capacity(alloc, requests.len())?;
    for request in requests {
        events.push_reserved(answer_mut(alloc, cache, needs, of, request));
    }
    Ok(events)
}

/// The replies of two calls.
pub struct Twice<O> {
    /// The reply of the first call.
    pub first: Reply<O>,
    /// The reply of the second call.
    pub second: Reply<O>,
}

/// Calls a function that writes on a value, and then, with an equal key, on another one that is the same.
///
/// If the first call was stored, the second is a hit, and did writes on its value that equal those of the first. Fails
/// if a call does, or if out of memory.
pub fn write_to_both<M: RunMut<T, ()>, T: Track>(
    alloc: Global,
    cache: &mut CacheData<M>,
    key: M::Key,
    one: &mut T,
    two: &mut T,
) -> Result<Twice<M::Out>, Fault>
    requires { two.now ≡ one.now }
    ensures { IfOk result (λ twice. twice.first.how ≡ How.Stored → (twice.second.how ≡ How.Hit)
        × (V : List T.Call) × (W : List T.Call) × ⟦<T as Written>⟧.did one.old one.new V
        × ⟦<T as Written>⟧.did two.old two.new W × SameWrites T.Call.eq V W) }
{
    let again = key.clone()?;
    let first = memoized_mut(alloc, cache, key, one)?;
    let second = memoized_mut(alloc, cache, again, two)?;
    Ok(Twice { first, second })
}
