//! Lists of requests, and what became of each: to a function that reads, to one that writes, and to one that calls
//! itself.

use comemo::{CacheData, Constraint, How};
use comemo_examples::late::Bump;
use comemo_examples::warmth::Warmth;
use comemo_examples::{Counter, Town};
use comemo_theorems::fibonacci::{Fibonacci, numbered};
use comemo_theorems::requests::{Event, Request, answer_all};
use comemo_theorems::requests_mut::answer_all_mut;
use std::alloc::{AllocError, Global};

/// A request, and what becomes of it.
#[derive(Clone, Copy)]
enum Row {
    /// A call, its output, and how it ends: of the warmth of a town with so many degrees, or of `Bump`.
    Call(u64, How),
    /// An eviction at this bound.
    Evict(usize),
}

/// What the requests of rows are of.
#[derive(Clone, Copy)]
enum Subject {
    /// The warmth of towns.
    Towns,
    /// A counter that `Bump` adds half of its range to.
    Half,
}

/// Calls of the warmth of towns, 26 steps: a stored call is a hit until an eviction whose bound its age since the last
/// hit reaches.
const TOWNS: &[Row] = &[
    Row::Call(21, How::Stored),
    Row::Call(21, How::Hit),
    Row::Call(7, How::Stored),
    Row::Evict(1),
    Row::Call(21, How::Hit),
    Row::Evict(1),
    Row::Call(7, How::Stored),
    Row::Call(21, How::Hit),
    Row::Evict(2),
    Row::Evict(2),
    Row::Call(7, How::Hit),
    Row::Evict(2),
    Row::Call(21, How::Stored),
    Row::Evict(0),
    Row::Call(21, How::Stored),
    Row::Call(7, How::Stored),
];

/// Calls of `Bump`, 24 steps: each returns the counter's number and adds half of its range, also as a hit.
const BUMPS: &[Row] = &[
    Row::Call(0, How::Stored),
    Row::Call(HALF, How::Stored),
    Row::Call(0, How::Hit),
    Row::Evict(1),
    Row::Call(HALF, How::Hit),
    Row::Evict(1),
    Row::Call(0, How::Stored),
    Row::Call(HALF, How::Hit),
    Row::Call(0, How::Hit),
    Row::Evict(1),
    Row::Call(HALF, How::Hit),
    Row::Call(0, How::Hit),
    Row::Evict(0),
    Row::Call(HALF, How::Stored),
];

/// Half of the range of a counter.
const HALF: u64 = 1 << 63;

/// The requests of rows about towns.
fn town_requests(alloc: Global) -> Result<Vec<Request<(), Town>>, AllocError> {
    let mut requests = Vec::new(alloc);
    for row in TOWNS {
        let request = match *row {
            Row::Call(degrees, _) => Request::Call {
                key: (),
                of: Town {
                    people: 900,
                    degrees,
                },
            },
            Row::Evict(max_age) => Request::Evict { max_age },
        };
        requests.push(request)?;
    }
    Ok(requests)
}

/// The requests of rows about a counter.
fn bump_requests(alloc: Global) -> Result<Vec<Request<u64, ()>>, AllocError> {
    let mut requests = Vec::new(alloc);
    for row in BUMPS {
        let request = match *row {
            Row::Call(_, _) => Request::Call { key: HALF, of: () },
            Row::Evict(max_age) => Request::Evict { max_age },
        };
        requests.push(request)?;
    }
    Ok(requests)
}

/// Whether this became of the request of a row.
fn is_told(row: Row, event: &Event<u64>) -> bool {
    match event {
        Event::Replied(reply) => match row {
            Row::Call(output, how) => reply.output == output && reply.how == how,
            Row::Evict(_) => false,
        },
        Event::Failed(_) => false,
        Event::Evicted => matches!(row, Row::Evict(_)),
    }
}

/// Whether this became of the requests of these rows, each in its place.
fn are_told(rows: &[Row], events: &[Event<u64>]) -> bool {
    if events.len() != rows.len() {
        return false;
    }
    for place in 0..rows.len() {
        if !is_told(rows[place], &events[place]) {
            return false;
        }
    }
    true
}

/// What became of these requests in a new cache.
fn answered(alloc: Global, subject: Subject) -> Result<Vec<Event<u64>>, AllocError> {
    match subject {
        Subject::Towns => {
            let mut cache: CacheData<Warmth> = CacheData::new(alloc);
            let requests = town_requests(alloc)?;
            answer_all(alloc, &mut cache, &mut (), requests)
        }
        Subject::Half => {
            let mut cache: CacheData<Bump> = CacheData::new(alloc);
            let mut counter = Counter { number: 0 };
            let requests = bump_requests(alloc)?;
            answer_all_mut(alloc, &mut cache, &mut 0, &mut counter, requests)
        }
    }
}

/// Whether these rows come true in a new cache.
fn come_true(alloc: Global, subject: Subject, rows: &[Row]) -> bool {
    match answered(alloc, subject) {
        Ok(events) => are_told(rows, events.as_slice()),
        Err(_) => false,
    }
}

/// Whether the number at a place is this, and its call ended so.
fn is_number(cache: &mut CacheData<Fibonacci>, alloc: Global, place: u64, row: Row) -> bool {
    match numbered(alloc, cache, place, &mut Constraint::new(alloc)) {
        Ok(reply) => is_told(row, &Event::Replied(reply)),
        Err(_) => false,
    }
}

/// Whether numbers come from those before them, 94 steps: the run of 12 calls 11, whose run calls 10, and so on.
fn numbers_nest(alloc: Global) -> bool {
    let mut cache: CacheData<Fibonacci> = CacheData::new(alloc);
    let first = is_number(&mut cache, alloc, 12, Row::Call(144, How::Stored));
    let inner = is_number(&mut cache, alloc, 11, Row::Call(89, How::Hit));
    cache.evict(1);
    let again = is_number(&mut cache, alloc, 12, Row::Call(144, How::Hit));
    cache.evict(1);
    let old = is_number(&mut cache, alloc, 11, Row::Call(89, How::Stored));
    first && inner && again && old
}

#[test]
fn a_stored_call_is_a_hit_until_it_is_old(rt: HostRuntime) {
    assert!(rt; come_true(rt.alloc(), Subject::Towns, TOWNS));
}

#[test]
fn a_call_that_writes_is_a_hit_until_it_is_old(rt: HostRuntime) {
    assert!(rt; come_true(rt.alloc(), Subject::Half, BUMPS));
}

#[test]
fn a_function_that_calls_itself_hits_within_its_run(rt: HostRuntime) {
    assert!(rt; numbers_nest(rt.alloc()));
}
