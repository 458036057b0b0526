//! Tests of the functions that name their calls.

use comemo::{CacheData, How, Top, memoized_with};
use comemo_examples::{Context, ContextCall};
use comemo_named::named::{IsOver, Sum};
use std::alloc::Global;

/// A context's location and its styles.
type Of = (u64, u64);

/// Whether a call returns the sum of a context, of which this is asked first, and ends as `how`.
fn sums(
    alloc: Global,
    cache: &mut CacheData<Sum>,
    mut first: ContextCall,
    (location, styles): Of,
    sum: u64,
    how: How,
) -> bool {
    let context = Context { location, styles };
    match memoized_with(
        alloc,
        cache,
        &mut first,
        (),
        &context,
        &mut Top::new(),
        true,
    ) {
        Ok(reply) => reply.output == sum && reply.how == how,
        Err(_) => false,
    }
}

#[test]
fn two_questions_are_kept_in_either_order(rt: HostRuntime) {
    let alloc = rt.alloc();
    let mut cache: CacheData<Sum> = CacheData::new(alloc);
    // The last column is the number of entries then.
    let calls: &[(ContextCall, Of, u64, How, usize)] = &[
        (ContextCall::Location, (1, 2), 3, How::Stored, 1),
        (ContextCall::Styles, (1, 2), 3, How::Hit, 1),
        (ContextCall::Styles, (1, 5), 6, How::Stored, 2),
        (ContextCall::Location, (1, 5), 6, How::Hit, 2),
    ];
    for (first, of, sum, how, len) in calls {
        let is_so = sums(alloc, &mut cache, *first, *of, *sum, *how);
        assert!(rt; is_so, "for {of:?}");
        assert_eq!(rt; cache.len(), *len);
    }
}

/// Whether a call returns whether the sum of a context exceeds 4, and ends as `how`.
fn is_over(
    alloc: Global,
    cache: &mut CacheData<IsOver>,
    kept: &mut (CacheData<Sum>, ContextCall),
    (location, styles): Of,
    is_over: bool,
    how: How,
) -> bool {
    let context = Context { location, styles };
    match memoized_with(alloc, cache, kept, 4, &context, &mut Top::new(), true) {
        Ok(reply) => reply.output == is_over && reply.how == how,
        Err(_) => false,
    }
}

#[test]
fn what_a_named_function_asked_counts_for_its_caller(rt: HostRuntime) {
    let alloc = rt.alloc();
    let mut cache: CacheData<IsOver> = CacheData::new(alloc);
    let mut kept: (CacheData<Sum>, ContextCall) = (CacheData::new(alloc), ContextCall::Location);
    let calls: &[(ContextCall, Of, bool, How)] = &[
        (ContextCall::Location, (1, 2), false, How::Stored),
        (ContextCall::Styles, (1, 2), false, How::Hit),
        (ContextCall::Styles, (1, 5), true, How::Stored),
        (ContextCall::Location, (1, 5), true, How::Hit),
    ];
    for (first, of, over, how) in calls {
        kept.1 = *first;
        let is_so = is_over(alloc, &mut cache, &mut kept, *of, *over, *how);
        assert!(rt; is_so, "for {of:?}");
    }
    assert_eq!(rt; (cache.len(), kept.0.len()), (2, 2));
}
