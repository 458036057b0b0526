//! Consecutive calls: what a stored call implies for the next one, proved from the contract of `memoized_with` alone.
//! `comemo_theorems` has what holds of a value that changed between the calls.
ghost use Rattle.std.specs.Prelude.{◌≡◌, IfOk};
ghost use Rattle.std.proofs.Common.{rules};
ghost use Rattle.comemo.specs.Function.{WritesNone};

use comemo::{
    CacheData, Constraint, Fault, Function, How, Recorder, Reply, Run, Top, Track, memoized_with,
};
use comemo_examples::{Context, ContextCall};
use std::alloc::Global;

/// The location of a context.
pub struct Location;

impl Function for Location {
    type Key = ();

    type Call = ContextCall;

    type Answer = u64;

    type Out = u64;

    ghost use Rattle.comemo_examples.specs.declared.contexts.ContextCall.TheVariants.{Location};

    ghost means = { λ _ m output. output ≡ m Location };

    ghost laws = { Prim.search rules };
}

impl Run<Context, ()> for Location {
    fn run(_: &(), of: &mut Recorder<'_, Context>, _: &mut ()) -> Result<u64, Fault> {
        of.ask(ContextCall::Location)
    }
}

/// Calls a function twice with one key and one value.
///
/// If the first call was stored, the second is a hit, and its output is a clone of the clone that was stored.
pub fn call_twice<M: Run<T, N>, T: Track, N>(
    alloc: Global,
    cache: &mut CacheData<M>,
    needs: &mut N,
    key: M::Key,
    of: &T,
) -> Result<(Reply<M::Out>, Reply<M::Out>), Fault>
    requires { WritesNone M.writes }
    ensures hit { IfOk result (λ replies. replies.0.how ≡ How.Stored → replies.1.how ≡ How.Hit) }
    ensures output { IfOk result (λ replies. replies.0.how ≡ How.Stored → (kept : M.Out)
        × M.Out.is_clone replies.0.output kept × M.Out.is_clone kept replies.1.output) }
{
    let again = key.clone()?;
    let first = memoized_with(alloc, cache, needs, key, of, &mut Top::new(), true)?;
    let second = memoized_with(alloc, cache, needs, again, of, &mut Top::new(), true)?;
    Ok((first, second))
}

/// Whether a reply has this output, and the call ended as `how`.
fn gives(reply: Reply<u64>, output: u64, how: How) -> bool {
    reply.output == output && reply.how == how
}

/// Whether a call at a context, whose questions go to a recording, is stored.
fn is_stored(
    alloc: Global,
    cache: &mut CacheData<Location>,
    context: &Context,
    asked: &mut Constraint<ContextCall, u64>,
) -> bool {
    match memoized_with(alloc, cache, &mut (), (), context, asked, true) {
        Ok(reply) => gives(reply, context.location, How::Stored),
        Err(_) => false,
    }
}

/// Whether a call at a context, whose questions go nowhere, ends as `how`.
fn ends(alloc: Global, cache: &mut CacheData<Location>, context: &Context, how: How) -> bool {
    match memoized_with(alloc, cache, &mut (), (), context, &mut Top::new(), true) {
        Ok(reply) => gives(reply, context.location, how),
        Err(_) => false,
    }
}

/// Whether of two calls at one context the first is stored and the second is a hit.
fn is_hit_again(alloc: Global) -> bool {
    let mut cache: CacheData<Location> = CacheData::new(alloc);
    let context = Context {
        location: 3,
        styles: 40,
    };
    match call_twice(alloc, &mut cache, &mut (), (), &context) {
        Ok((first, second)) => gives(first, 3, How::Stored) && gives(second, 3, How::Hit),
        Err(_) => false,
    }
}

/// Whether of a call at the location 3 and one at this location the first is stored, and the second ends as `how`. It
/// is a hit exactly if the answers to the questions of the first are the same.
fn becomes(alloc: Global, location: u64, styles: u64, how: How) -> bool {
    let mut cache: CacheData<Location> = CacheData::new(alloc);
    let before = Context {
        location: 3,
        styles: 40,
    };
    let after = Context { location, styles };
    let mut asked = Constraint::new(alloc);
    let is_stored = is_stored(alloc, &mut cache, &before, &mut asked);
    let is_same = asked.validate(&after) == Ok(how == How::Hit);
    let is_so = ends(alloc, &mut cache, &after, how);
    is_stored && is_same && is_so
}

#[test]
fn a_call_that_was_stored_is_a_hit_until_an_answer_changes(rt: HostRuntime) {
    let alloc = rt.alloc();
    let is_again = is_hit_again(alloc);
    let is_turned = becomes(alloc, 3, 41, How::Hit);
    let is_moved = becomes(alloc, 4, 40, How::Stored);
    assert!(rt; is_again);
    assert!(rt; is_turned);
    assert!(rt; is_moved);
}
