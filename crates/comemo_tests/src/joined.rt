//! A memoized function of two inputs, joined into one, and no input. `size` of `calc_core` joins a key and a view.
ghost use Rattle.std.proofs.Common.{rules};

use comemo::internal::{Input, Multi};
use comemo::{
    Begun, CacheData, Fault, First, Function, How, MultiAnswer, MultiCall, Second, Top, Track,
    begin,
};
use comemo_examples::{Context, ContextCall};
use std::alloc::Global;

/// A function of two contexts, of which any output is right.
pub struct AnythingOfTwo;

impl Function for AnythingOfTwo {
    type Call = MultiCall<ContextCall, ContextCall>;

    type Key = ((), ());

    type Answer = MultiAnswer<u64, u64>;

    type Out = u64;

    ghost means = { λ _ _ _. Unit {0} };

    ghost writes = { λ _ _ _ _. Unit {0} };

    ghost laws = { Prim.search rules };
}

/// The sum of the locations of two contexts, each asked once, and how the call ended.
fn sum(
    alloc: Global,
    cache: &mut CacheData<AnythingOfTwo>,
    first: &Context,
    second: &Context,
) -> Result<(u64, How), Fault> {
    let mut input = Multi((first.view(alloc), second.view(alloc)));
    match begin(alloc, cache, &mut input, &mut Top::new(), true) {
        Err(fault) => Err(fault),
        Ok(Begun::Hit(sum)) => Ok((sum, How::Hit)),
        Ok(Begun::Run(mut pending)) => {
            let Multi((mut left, mut right)) = input;
            let read = ContextCall::Location;
            let at = left.ask_through(read, First::new(), pending.recording());
            let by = right.ask_through(read, Second::new(), pending.recording());
            let sum = at.unwrap_or(0).wrapping_add(by.unwrap_or(0));
            match pending.finish(cache, &mut Top::new(), sum) {
                Ok(reply) => Ok((reply.output, reply.how)),
                Err(fault) => Err(fault),
            }
        }
    }
}

/// Whether a call returns this sum of the locations of two contexts, and ends as `how`.
fn sums(
    alloc: Global,
    cache: &mut CacheData<AnythingOfTwo>,
    (at, by): (u64, u64),
    styles: u64,
    how: How,
) -> bool {
    let one = Context {
        location: at,
        styles,
    };
    let other = Context {
        location: by,
        styles,
    };
    match sum(alloc, cache, &one, &other) {
        Ok((sum, became)) => sum == at.wrapping_add(by) && became == how,
        Err(_) => false,
    }
}

#[test]
fn a_change_of_one_of_two_contexts_is_seen(rt: HostRuntime) {
    let alloc = rt.alloc();
    let mut cache = CacheData::new(alloc);
    let calls: &[((u64, u64), u64, How)] = &[
        ((3, 5), 1, How::Stored),
        ((3, 5), 2, How::Hit),
        ((4, 5), 1, How::Stored),
        ((5, 3), 1, How::Stored),
    ];
    for (locations, styles, how) in calls {
        let is_so = sums(alloc, &mut cache, *locations, *styles, *how);
        assert!(rt; is_so, "for {locations:?}");
    }
    assert_eq!(rt; cache.len(), 3);
}

#[test]
fn no_input_has_no_key(rt: HostRuntime) {
    let mut nothing = Multi(());
    let is_so = nothing.key() == Ok(()) && nothing.call(&()) == Ok(());
    assert!(rt; is_so);
}
