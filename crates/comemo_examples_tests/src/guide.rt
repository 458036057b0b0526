//! Which calls run, and which are hits. The rows of `bench_rows` have the functions that are neither here nor in
//! `writing`.
//!
//! Some helpers return how many calls, from the first on, have the wanted results.
ghost use Rattle.comemo.specs.Function.{WritesNone};

use comemo::{CacheData, Caches, Function, How, Run, Top, Track, memoized, memoized_with};
use comemo_examples::Town;
use comemo_examples::both_pass::BothPass;
use comemo_examples::numbers::{DoubleFlat, Flat};
use comemo_examples::orders::{Both, Either, Exceeds, Turn};
use comemo_examples::passes::Passes;
use comemo_examples::region::{Region, Warmest};
use comemo_examples::report::{Kept, Report};
use comemo_examples::several::{IsWarmer, Lead};
use comemo_examples::warmth::Warmth;
use std::alloc::Global;

/// The people and the degrees of a town.
type Of = (u64, u64);

fn town((people, degrees): Of) -> Town {
    Town { people, degrees }
}

/// Whether a call of a town returns this output and ends as `how`. It is enabled unless `how` is `Disabled`.
fn gives<O: Copy + PartialEq, F: Run<Town, N, Out = O>, N>(
    alloc: Global,
    cache: &mut CacheData<F>,
    needs: &mut N,
    key: F::Key,
    of: Of,
    output: O,
    how: How,
) -> bool
    requires { WritesNone F.writes }
{
    let town = town(of);
    let enabled = how != How::Disabled;
    match memoized_with(alloc, cache, needs, key, &town, &mut Top::new(), enabled) {
        Ok(reply) => reply.output == output && reply.how == how,
        Err(_) => false,
    }
}

/// How many calls return the degrees of a town, each with the number of entries then.
fn degrees(alloc: Global, calls: &[(Of, How, usize)]) -> usize {
    let mut cache: CacheData<Warmth> = CacheData::new(alloc);
    let mut held: usize = 0;
    for (of, how, len) in calls {
        let is_so = gives(alloc, &mut cache, &mut (), (), *of, of.1, *how);
        if !is_so || cache.len() != *len {
            break;
        }
        held = held.wrapping_add(1);
    }
    held
}

#[test]
fn only_what_was_asked_counts(rt: HostRuntime) {
    let calls: &[(Of, How, usize)] = &[
        // a disabled call runs and stores nothing
        ((900, 21), How::Disabled, 0),
        ((900, 21), How::Disabled, 0),
        // as at the head of `comemo_examples`
        ((900, 21), How::Stored, 1),
        ((7000, 21), How::Hit, 1),
        ((7000, 4), How::Stored, 2),
    ];
    assert_eq!(rt; degrees(rt.alloc(), calls), 5);
}

/// How many calls of a function of a town and a number have these results.
fn answers<F: Run<Town, (), Key = u64, Out = bool>>(
    alloc: Global,
    number: u64,
    calls: &[(Of, bool, How)],
) -> usize
    requires { WritesNone F.writes }
{
    let mut cache: CacheData<F> = CacheData::new(alloc);
    let mut held: usize = 0;
    for (of, output, how) in calls {
        if !gives(alloc, &mut cache, &mut (), number, *of, *output, *how) {
            break;
        }
        held = held.wrapping_add(1);
    }
    held
}

#[test]
fn what_was_asked_alone_counts(rt: HostRuntime) {
    let alloc = rt.alloc();
    // Entries for both answers are kept under one number.
    let passes: &[(Of, bool, How)] = &[
        ((900, 21), true, How::Stored),
        ((900, 21), true, How::Hit),
        ((900, 4), true, How::Stored),
        ((90, 4), false, How::Stored),
        ((900, 21), true, How::Hit),
    ];
    assert_eq!(rt; answers::<Passes>(alloc, 500, passes), 5);
    // What a helper asked counts as asked by its caller.
    let both_pass: &[(Of, bool, How)] = &[
        ((900, 21), true, How::Stored),
        ((900, 21), true, How::Hit),
        ((900, 4), false, How::Stored),
        ((9, 21), false, How::Stored),
    ];
    assert_eq!(rt; answers::<BothPass>(alloc, 20, both_pass), 4);
    // A question that was not asked may change.
    let exceeds: &[(Of, bool, How)] = &[
        ((900, 21), true, How::Stored),
        ((900, 4), true, How::Hit),
        ((90, 4), false, How::Stored),
    ];
    assert_eq!(rt; answers::<Exceeds>(alloc, 500, exceeds), 3);
}

/// Whether the called functions of a report have these numbers of entries.
fn are_kept(kept: &Kept, limits: usize, warmths: usize) -> bool {
    kept.0.len() == limits && kept.1.len() == warmths
}

/// How many calls return what a report says, each with the numbers of entries of the called functions then.
fn reports(
    alloc: Global,
    cache: &mut CacheData<Report>,
    kept: &mut Kept,
    calls: &[(Of, u64, How, usize, usize)],
) -> usize {
    let mut held: usize = 0;
    for (of, output, how, limits, warmths) in calls {
        let is_so = gives(alloc, cache, kept, (500, 7), *of, *output, *how);
        if !is_so || !are_kept(kept, *limits, *warmths) {
            break;
        }
        held = held.wrapping_add(1);
    }
    held
}

#[test]
fn what_a_called_function_asked_counts_for_its_caller(rt: HostRuntime) {
    let alloc = rt.alloc();
    let mut cache: CacheData<Report> = CacheData::new(alloc);
    let mut kept: Kept = (CacheData::new(alloc), CacheData::new(alloc));
    // The last columns are the numbers of entries of the called functions.
    let calls: &[(Of, u64, How, usize, usize)] = &[
        ((900, 21), 21, How::Stored, 1, 1),
        ((900, 21), 21, How::Hit, 1, 1),
        ((900, 4), 4, How::Stored, 2, 2),
        ((90, 4), 7, How::Stored, 3, 2),
    ];
    assert_eq!(rt; reports(alloc, &mut cache, &mut kept, calls), 4);
    // The caches of the called functions are evicted together.
    kept.evict_all(1);
    assert!(rt; are_kept(&kept, 3, 2));
    kept.evict_all(1);
    assert!(rt; are_kept(&kept, 0, 0));
    assert_eq!(rt; cache.len(), 3);
}

/// How many calls double a number.
fn doubles(alloc: Global, calls: &[(u32, How)]) -> usize {
    let mut cache: CacheData<DoubleFlat> = CacheData::new(alloc);
    let mut held: usize = 0;
    for (n, how) in calls {
        let sink = &mut Top::new();
        let is_so = match memoized_with(alloc, &mut cache, &mut (), Flat(*n), &(), sink, true) {
            Ok(reply) => reply.output == n.wrapping_mul(2) && reply.how == *how,
            Err(_) => false,
        };
        if !is_so {
            break;
        }
        held = held.wrapping_add(1);
    }
    held
}

#[test]
fn keys_of_one_hash_are_told_apart(rt: HostRuntime) {
    let calls: &[(u32, How)] = &[(2, How::Stored), (3, How::Stored), (2, How::Hit)];
    assert_eq!(rt; doubles(rt.alloc(), calls), 3);
}

/// How many calls of a function with this order of questions have these results, each with the number of entries then.
fn in_turn<O: Copy + PartialEq, F: Run<Town, Turn, Key = (), Out = O>>(
    alloc: Global,
    calls: &[(Turn, Of, O, How, usize)],
) -> usize
    requires { WritesNone F.writes }
{
    let mut cache: CacheData<F> = CacheData::new(alloc);
    let mut held: usize = 0;
    for (turn, of, output, how, len) in calls {
        let mut turn = *turn;
        let is_so = gives(alloc, &mut cache, &mut turn, (), *of, *output, *how);
        if !is_so || cache.len() != *len {
            break;
        }
        held = held.wrapping_add(1);
    }
    held
}

#[test]
fn the_order_of_questions_may_change_but_none_may_be_lacking(rt: HostRuntime) {
    let alloc = rt.alloc();
    let either: &[(Turn, Of, u64, How, usize)] = &[
        (Turn::People, (0, 7), 0, How::Stored, 1),
        (Turn::Degrees, (1, 7), 7, How::MissingCall, 1),
    ];
    assert_eq!(rt; in_turn::<u64, Either>(alloc, either), 2);
    let both: &[(Turn, Of, Of, How, usize)] = &[
        (Turn::People, (0, 7), (0, 7), How::Stored, 1),
        (Turn::Degrees, (0, 7), (0, 7), How::Hit, 1),
        (Turn::Degrees, (1, 7), (1, 7), How::Stored, 2),
        (Turn::Degrees, (1, 7), (1, 7), How::Hit, 2),
    ];
    assert_eq!(rt; in_turn::<Of, Both>(alloc, both), 4);
}

/// Whether a call returns which of two towns is warmer, and ends as `how`.
fn compares(
    alloc: Global,
    cache: &mut CacheData<IsWarmer>,
    (one, other): (Of, Of),
    is_warmer: bool,
    how: How,
) -> bool {
    let (one, other) = (town(one), town(other));
    let towns = comemo::Both {
        first: one.view(alloc),
        second: other.view(alloc),
    };
    match memoized(alloc, cache, (), &towns) {
        Ok(reply) => reply.output == is_warmer && reply.how == how,
        Err(_) => false,
    }
}

#[test]
fn two_towns_are_asked_of_what_was_asked_of_each(rt: HostRuntime) {
    let alloc = rt.alloc();
    let mut cache: CacheData<IsWarmer> = CacheData::new(alloc);
    let calls: &[((Of, Of), bool, How)] = &[
        (((900, 21), (50, 24)), false, How::Stored),
        // both have grown
        (((1000, 21), (2000, 24)), false, How::Hit),
        (((1000, 21), (2000, 20)), true, How::Stored),
        // in the other order
        (((2000, 20), (1000, 21)), false, How::Stored),
        (((1000, 21), (2000, 20)), true, How::Hit),
    ];
    for (towns, is_warmer, how) in calls {
        let is_so = compares(alloc, &mut cache, *towns, *is_warmer, *how);
        assert!(rt; is_so, "for {towns:?}");
    }
}

/// Whether a call returns how much warmer one town is than another, and ends as `how`.
fn leads(
    alloc: Global,
    cache: &mut CacheData<Lead>,
    kept: &mut CacheData<Warmth>,
    (one, other): (Of, Of),
    lead: u64,
    how: How,
) -> bool {
    let (one, other) = (town(one), town(other));
    let towns = comemo::Both {
        first: one.view(alloc),
        second: other.view(alloc),
    };
    match memoized_with(alloc, cache, kept, (), &towns, &mut Top::new(), true) {
        Ok(reply) => reply.output == lead && reply.how == how,
        Err(_) => false,
    }
}

#[test]
fn a_function_of_two_towns_calls_one_of_each(rt: HostRuntime) {
    let alloc = rt.alloc();
    let mut cache: CacheData<Lead> = CacheData::new(alloc);
    let mut kept: CacheData<Warmth> = CacheData::new(alloc);
    // The last column is the number of entries of the called function.
    let calls: &[((Of, Of), u64, How, usize)] = &[
        (((900, 24), (50, 21)), 3, How::Stored, 2),
        // both have grown
        (((1000, 24), (2000, 21)), 3, How::Hit, 2),
        // in the other order
        (((2000, 21), (1000, 24)), 0, How::Stored, 2),
        (((1000, 24), (2000, 20)), 4, How::Stored, 3),
    ];
    for (towns, lead, how, len) in calls {
        let is_so = leads(alloc, &mut cache, &mut kept, *towns, *lead, *how);
        assert!(rt; is_so, "for {towns:?}");
        assert_eq!(rt; kept.len(), *len);
    }
}

/// Whether the warmest of three towns is this warm, and the call ends as `how`.
fn is_warmest(
    alloc: Global,
    cache: &mut CacheData<Warmest>,
    (coast, river, hill): (Of, Of, Of),
    degrees: u64,
    how: How,
) -> bool {
    let (coast, river, hill) = (town(coast), town(river), town(hill));
    let region = Region {
        coast: &coast,
        river: &river,
        hill: &hill,
    };
    match memoized(alloc, cache, (), &region) {
        Ok(reply) => reply.output == degrees && reply.how == how,
        Err(_) => false,
    }
}

#[test]
fn three_towns_are_asked_as_one(rt: HostRuntime) {
    let alloc = rt.alloc();
    let mut cache: CacheData<Warmest> = CacheData::new(alloc);
    let calls: &[((Of, Of, Of), u64, How)] = &[
        (((900, 21), (50, 24), (10, 15)), 24, How::Stored),
        (((900, 21), (50, 24), (20, 15)), 24, How::Hit),
        (((900, 21), (50, 24), (20, 30)), 30, How::Stored),
        // with the first two swapped
        (((50, 24), (900, 21), (20, 30)), 30, How::Stored),
        (((900, 21), (50, 24), (20, 15)), 24, How::Hit),
    ];
    for (towns, degrees, how) in calls {
        let is_so = is_warmest(alloc, &mut cache, *towns, *degrees, *how);
        assert!(rt; is_so, "for {towns:?}");
    }
}
