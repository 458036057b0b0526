//! The row of functions of numbers.

use crate::calls::{comes_to, gives};
use comemo::{CacheData, Constraint, How, Top, memoized_with};
use comemo_examples::double::Double;
use comemo_examples::numbers::{Identity, Sum};
use comemo_theorems::fibonacci::{Fibonacci, numbered};
use std::alloc::Global;

/// Whether a number is doubled once.
fn doubles(alloc: Global) -> bool {
    let mut cache: CacheData<Double> = CacheData::new(alloc);
    let calls: &[(u32, u32, How)] = &[(2, 4, How::Stored), (4, 8, How::Stored), (2, 4, How::Hit)];
    for (number, output, how) in calls {
        if !comes_to(alloc, &mut cache, *number, &(), *output, *how) {
            return false;
        }
    }
    true
}

/// Whether the order of the arguments matters for the cache of a sum.
fn sums(alloc: Global) -> bool {
    let mut cache: CacheData<Sum> = CacheData::new(alloc);
    let calls: &[((u32, u32), u32, How)] = &[
        ((2, 4), 6, How::Stored),
        ((2, 3), 5, How::Stored),
        ((2, 3), 5, How::Hit),
        ((4, 2), 6, How::Stored),
    ];
    for (numbers, output, how) in calls {
        if !comes_to(alloc, &mut cache, *numbers, &(), *output, *how) {
            return false;
        }
    }
    true
}

/// Whether the Fibonacci number at a place is this, and came about like this.
fn is_at(
    alloc: Global,
    cache: &mut CacheData<Fibonacci>,
    place: u64,
    output: u64,
    how: How,
) -> bool {
    let mut sink = Constraint::new(alloc);
    gives(numbered(alloc, cache, place, &mut sink), output, how)
}

/// Whether Fibonacci numbers are cached on the way to others.
fn numbers_of_fibonacci(alloc: Global) -> bool {
    let mut cache: CacheData<Fibonacci> = CacheData::new(alloc);
    let calls: &[(u64, u64, How)] = &[
        (5, 5, How::Stored),
        (3, 2, How::Hit),
        (8, 21, How::Stored),
        (7, 13, How::Hit),
    ];
    for (place, output, how) in calls {
        if !is_at(alloc, &mut cache, *place, *output, *how) {
            return false;
        }
    }
    true
}

/// Whether the call of a number returns it, and came about like this. Only large numbers are cached.
fn is_itself(alloc: Global, cache: &mut CacheData<Identity>, number: u64, how: How) -> bool {
    let is_kept = number >= 1000;
    let sink = &mut Top::new();
    let reply = memoized_with(alloc, cache, &mut (), number, &(), sink, is_kept);
    gives(reply, number, how)
}

/// Whether only large numbers are cached.
fn keeps_large_numbers(alloc: Global) -> bool {
    let mut cache: CacheData<Identity> = CacheData::new(alloc);
    let small = is_itself(alloc, &mut cache, 0, How::Disabled);
    let again = is_itself(alloc, &mut cache, 0, How::Disabled);
    let large = is_itself(alloc, &mut cache, 2000, How::Stored);
    let hit = is_itself(alloc, &mut cache, 2000, How::Hit);
    small && again && large && hit
}

/// Whether functions of numbers are cached under them.
pub(crate) fn numbers_are_kept(alloc: Global) -> bool {
    doubles(alloc) && sums(alloc) && numbers_of_fibonacci(alloc) && keeps_large_numbers(alloc)
}
