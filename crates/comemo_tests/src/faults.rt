//! Memoized functions whose runs end in a fault, and what their callers learn.
ghost use Rattle.std.specs.Prelude.{⊤};
ghost use Rattle.std.proofs.Common.{rules};
ghost use Rattle.comemo.specs.Function.{WritesNone};

use crate::inputs::LocationOf;
use comemo::{
    Both, CacheData, Constraint, Fault, First, Function, MultiAnswer, MultiCall, Recorder, Run,
    Second, Sink, Top, Track, View, memoize, memoized_with,
};
use comemo_examples::{Context, ContextCall};
use std::alloc::Global;

/// A function whose runs all end out of memory.
pub struct Refused;

impl Function for Refused {
    type Key = ();

    type Call = ContextCall;

    type Answer = u64;

    type Out = u64;

    ghost means = { λ _ _ _. ⊥ };

    ghost laws = { Prim.search rules };
}

impl Run<Context, ()> for Refused {
    fn run(_: &(), _: &mut Recorder<'_, Context>, _: &mut ()) -> Result<u64, Fault> {
        Err(Fault::Memory)
    }
}

/// A function that calls `Refused`. It passes the fault on if its key is true, and otherwise returns `Incomplete`,
/// since its own recording is incomplete then.
pub struct Failing;

impl Function for Failing {
    type Key = bool;

    type Call = ContextCall;

    type Answer = u64;

    type Out = u64;

    ghost means = { λ _ _ _. ⊥ };

    ghost laws = { Prim.search rules };
}

impl Run<Context, CacheData<Refused>> for Failing {
    fn run(
        hands_on: &bool,
        of: &mut Recorder<'_, Context>,
        cache: &mut CacheData<Refused>,
    ) -> Result<u64, Fault> {
        let called = of.call(cache, &mut (), ());
        if called.is_err() && !*hands_on {
            return Err(Fault::Incomplete);
        }
        called
    }
}

/// A function that calls `Failing`.
pub struct Calling;

impl Function for Calling {
    type Key = bool;

    type Call = ContextCall;

    type Answer = u64;

    type Out = u64;

    ghost means = { λ _ _ _. ⊥ };

    ghost laws = { Prim.search rules };
}

impl Run<Context, (CacheData<Failing>, CacheData<Refused>)> for Calling {
    fn run(
        hands_on: &bool,
        of: &mut Recorder<'_, Context>,
        kept: &mut (CacheData<Failing>, CacheData<Refused>),
    ) -> Result<u64, Fault> {
        of.call(&mut kept.0, &mut kept.1, *hands_on)
    }
}

/// A function of two values that calls `Failing`: of the first value if the first part of its key is true, otherwise of
/// the second. Any output is right.
pub struct CallingOfPart;

impl Function for CallingOfPart {
    type Call = MultiCall<ContextCall, ContextCall>;

    type Key = (bool, bool);

    type Answer = MultiAnswer<u64, u64>;

    type Out = u64;

    ghost means = { λ _ _ _. ⊤ };

    ghost laws = { Prim.search rules };
}

impl<'a> Run<Both<'a, Context, Context>, (CacheData<Failing>, CacheData<Refused>)>
    for CallingOfPart {
    fn run(
        key: &(bool, bool),
        of: &mut Recorder<'_, Both<'a, Context, Context>>,
        kept: &mut (CacheData<Failing>, CacheData<Refused>),
    ) -> Result<u64, Fault> {
        if key.0 {
            of.call_part(First::new(), &mut kept.0, &mut kept.1, key.1)
        } else {
            of.call_part(Second::new(), &mut kept.0, &mut kept.1, key.1)
        }
    }
}

/// The context of the calls.
fn context() -> Context {
    Context {
        location: 3,
        styles: 40,
    }
}

/// Whether the caller of a closure that ends in a fault gets that fault, and its own recording is incomplete then.
fn is_told_of_closure(alloc: Global, fault: Fault) -> bool {
    let mut cache: CacheData<LocationOf> = CacheData::new(alloc);
    let mut outer: Constraint<ContextCall, u64> = Constraint::new(alloc);
    let reply = memoize(
        alloc,
        &mut cache,
        &mut context().view(alloc),
        &mut outer,
        true,
        |_view: &mut View<'_, Context>, _recording: &mut Constraint<ContextCall, u64>| Err(fault),
    );
    reply.err() == Some(fault) && !outer.is_whole()
}

/// Whether the caller of a closure that returns an output but makes its recording incomplete gets `Incomplete`, and its
/// own recording is incomplete then.
fn is_told_of_spoiled(alloc: Global) -> bool {
    let mut cache: CacheData<LocationOf> = CacheData::new(alloc);
    let mut outer: Constraint<ContextCall, u64> = Constraint::new(alloc);
    let reply = memoize(
        alloc,
        &mut cache,
        &mut context().view(alloc),
        &mut outer,
        true,
        |_view: &mut View<'_, Context>, recording: &mut Constraint<ContextCall, u64>| {
            recording.spoil();
            Ok(3)
        },
    );
    reply.err() == Some(Fault::Incomplete) && !outer.is_whole() && cache.len() == 0
}

/// Whether the caller of a function with this key gets this fault, and its own recording is incomplete then.
fn is_told<F: Run<Context, N, Key = bool, Out = u64>, N>(
    alloc: Global,
    needs: &mut N,
    hands_on: bool,
    fault: Fault,
) -> bool
    requires { WritesNone F.writes }
{
    let mut cache: CacheData<F> = CacheData::new(alloc);
    let mut outer: Constraint<ContextCall, u64> = Constraint::new(alloc);
    let reply = memoized_with(
        alloc,
        &mut cache,
        needs,
        hands_on,
        &context(),
        &mut outer,
        true,
    );
    reply.err() == Some(fault) && !outer.is_whole()
}

/// Whether the caller of a function of two values with this key gets this fault.
fn is_told_of_part(
    alloc: Global,
    both: &Both<'_, Context, Context>,
    key: (bool, bool),
    fault: Fault,
) -> bool {
    let mut cache: CacheData<CallingOfPart> = CacheData::new(alloc);
    let mut kept = (CacheData::new(alloc), CacheData::new(alloc));
    let sink = &mut Top::new();
    let reply = memoized_with(alloc, &mut cache, &mut kept, key, both, sink, true);
    reply.err() == Some(fault)
}

/// Whether the caller of a function of two values gets this fault, by either value.
fn is_told_of_parts(alloc: Global, hands_on: bool, fault: Fault) -> bool {
    let (one, other) = (context(), context());
    let both = Both {
        first: one.view(alloc),
        second: other.view(alloc),
    };
    let of_first = is_told_of_part(alloc, &both, (true, hands_on), fault);
    let of_second = is_told_of_part(alloc, &both, (false, hands_on), fault);
    of_first && of_second
}

#[test]
fn a_fault_of_a_run_is_told_to_its_caller(rt: HostRuntime) {
    let alloc = rt.alloc();
    let mut refused = CacheData::new(alloc);
    let mut kept = (CacheData::new(alloc), CacheData::new(alloc));
    let of_spoiled = is_told_of_spoiled(alloc);
    assert!(rt; of_spoiled);
    let faults: &[(bool, Fault)] = &[(true, Fault::Memory), (false, Fault::Incomplete)];
    for (hands_on, fault) in faults {
        let of_closure = is_told_of_closure(alloc, *fault);
        let of_function = is_told::<Failing, _>(alloc, &mut refused, *hands_on, *fault);
        let of_called = is_told::<Calling, _>(alloc, &mut kept, *hands_on, *fault);
        let of_parts = is_told_of_parts(alloc, *hands_on, *fault);
        assert!(rt; of_closure, "for {fault:?}");
        assert!(rt; of_function, "for {fault:?}");
        assert!(rt; of_called, "for {fault:?}");
        assert!(rt; of_parts, "for {fault:?}");
    }
}
