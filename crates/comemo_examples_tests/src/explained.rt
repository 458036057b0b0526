//! Why a call is a hit or a run.

use ContextCall::{Location, Styles};
use Step::{Says, Sums};
use comemo::{Cache, CacheData, Explanation, Hold, Top, explain, memoized_with};
use comemo_examples::{Context, ContextCall};
use comemo_named::named::Sum;
use std::alloc::Global;

/// A shortened explanation.
#[derive(Clone, Copy)]
enum Said<'a> {
    Hit,
    NeverKept,
    /// These answers still hold, and this call now has another one.
    Changed(&'a [(ContextCall, u64)], ContextCall, u64),
}

/// Whether a call at a context has this explanation.
fn says<H: Hold<Sum>>(
    alloc: Global,
    cache: &mut H,
    (location, styles): (u64, u64),
    wanted: Said<'_>,
) -> bool {
    let context = Context { location, styles };
    let Ok(said) = explain(alloc, cache, &(), &context) else {
        return false;
    };
    match &said {
        Explanation::Hit => matches!(wanted, Said::Hit),
        Explanation::NeverKept => matches!(wanted, Said::NeverKept),
        Explanation::Changed {
            asked,
            call,
            answer,
        } => match wanted {
            Said::Changed(pairs, next, now) => {
                asked.as_slice() == pairs && *call == next && *answer == now
            }
            _ => false,
        },
    }
}

/// Whether a call returns this sum of a context, whose location is asked first.
fn sums<H: Hold<Sum>>(
    alloc: Global,
    cache: &mut H,
    (location, styles): (u64, u64),
    sum: u64,
) -> bool {
    let context = Context { location, styles };
    let mut first = ContextCall::Location;
    match memoized_with(
        alloc,
        cache,
        &mut first,
        (),
        &context,
        &mut Top::new(),
        true,
    ) {
        Ok(reply) => reply.output == sum,
        Err(_) => false,
    }
}

/// A call at a context.
#[derive(Clone, Copy)]
enum Step<'a> {
    /// It is explained so.
    Says((u64, u64), Said<'a>),
    /// It returns this sum.
    Sums((u64, u64), u64),
}

/// Whether calls are explained correctly, before and after a run of (1, 2) and one of (1, 5), through any holder.
fn is_explained<H: Hold<Sum>>(alloc: Global, cache: &mut H) -> bool {
    let steps: &[Step<'_>] = &[
        Says((1, 2), Said::NeverKept),
        Sums((1, 2), 3),
        Says((1, 2), Said::Hit),
        Says((4, 2), Said::Changed(&[], Location, 4)),
        Says((1, 5), Said::Changed(&[(Location, 1)], Styles, 5)),
        Sums((1, 5), 6),
        Says((1, 5), Said::Hit),
        Says((1, 6), Said::Changed(&[(Location, 1)], Styles, 6)),
    ];
    for step in steps {
        let is_so = match *step {
            Says(of, wanted) => says(alloc, cache, of, wanted),
            Sums(of, sum) => sums(alloc, cache, of, sum),
        };
        if !is_so {
            return false;
        }
    }
    true
}

#[test]
fn an_owned_cache_says_why(rt: HostRuntime) {
    let alloc = rt.alloc();
    let mut cache: CacheData<Sum> = CacheData::new(alloc);
    assert!(rt; is_explained(alloc, &mut cache));
    assert_eq!(rt; cache.len(), 2);
    cache.evict(0);
    assert!(rt; says(alloc, &mut cache, (1, 2), Said::NeverKept));
}

#[test]
fn a_shared_cache_says_why(rt: HostRuntime) {
    let alloc = rt.alloc();
    let cache: Cache<Sum> = Cache::new(alloc);
    assert!(rt; is_explained(alloc, &mut cache.hold(&rt)));
    assert!(rt; says(alloc, &mut cache.hold(&rt), (1, 2), Said::Hit));
}
