//! Tests of the functions that write: a hit writes what the run wrote.

use comemo::{BothMut, CacheData, How, ReadAndWrite, Top, Track, memoized_mut, memoized_mut_with};
use comemo_examples::adding::{Adds, AddsTwice};
use comemo_examples::both_written::NotesAndAdds;
use comemo_examples::listing::Listing;
use comemo_examples::read_and_write::{AddsDegrees, AddsOneMore, TallyWarmth};
use comemo_examples::tally::Tally;
use comemo_examples::warmth::Warmth;
use comemo_examples::{Counter, Log, Notebook, Town};
use std::alloc::{AllocError, Global};

/// Whether a call that adds a number returns the next number, and ends as `how`.
fn adds(
    alloc: Global,
    cache: &mut CacheData<Adds>,
    number: u64,
    counter: &mut Counter,
    how: How,
) -> bool {
    match memoized_mut(alloc, cache, number, counter) {
        Ok(reply) => reply.output == number.wrapping_add(1) && reply.how == how,
        Err(_) => false,
    }
}

#[test]
fn a_hit_adds_again(rt: HostRuntime) {
    let alloc = rt.alloc();
    let mut cache: CacheData<Adds> = CacheData::new(alloc);
    let mut counter = Counter { number: 0 };
    let calls: &[(u64, How, u64)] = &[
        (5, How::Stored, 6),
        (5, How::Hit, 12),
        (2, How::Stored, 15),
        (5, How::Hit, 21),
    ];
    for (number, how, sum) in calls {
        let is_so = adds(alloc, &mut cache, *number, &mut counter, *how);
        assert!(rt; is_so, "for {number} {how:?}");
        assert_eq!(rt; counter.number, *sum);
    }
}

/// Whether a call that adds a number and the next one returns the one after that, and ends as `how`.
fn adds_twice(
    alloc: Global,
    cache: &mut CacheData<AddsTwice>,
    kept: &mut CacheData<Adds>,
    number: u64,
    counter: &mut Counter,
    how: How,
) -> bool {
    match memoized_mut_with(alloc, cache, kept, number, counter, &mut Top::new(), true) {
        Ok(reply) => reply.output == number.wrapping_add(2) && reply.how == how,
        Err(_) => false,
    }
}

#[test]
fn what_was_added_within_is_added_again(rt: HostRuntime) {
    let alloc = rt.alloc();
    let mut cache: CacheData<AddsTwice> = CacheData::new(alloc);
    let mut kept: CacheData<Adds> = CacheData::new(alloc);
    let mut counter = Counter { number: 0 };
    // The last column is the number of entries of the called function.
    let calls: &[(u64, How, u64, usize)] = &[
        (5, How::Stored, 13, 2),
        (5, How::Hit, 26, 2),
        (6, How::Stored, 41, 3),
    ];
    for (number, how, sum, inner) in calls {
        let is_so = adds_twice(alloc, &mut cache, &mut kept, *number, &mut counter, *how);
        assert!(rt; is_so, "for {number} {how:?}");
        assert_eq!(rt; counter.number, *sum);
        assert_eq!(rt; kept.len(), *inner);
    }
}

/// Whether a tally of a town returns its degrees and ends as `how`, and the counter has this number then.
fn tallies(
    alloc: Global,
    cache: &mut CacheData<Tally>,
    (people, degrees): (u64, u64),
    counter: &mut Counter,
    how: How,
    sum: u64,
) -> bool {
    let mut town = Town { people, degrees };
    let mut both = BothMut {
        first: &mut town,
        second: counter,
    };
    let is_so = match memoized_mut(alloc, cache, (), &mut both) {
        Ok(reply) => reply.output == degrees && reply.how == how,
        Err(_) => false,
    };
    is_so && both.second.number == sum
}

#[test]
fn a_town_is_read_and_a_counter_written(rt: HostRuntime) {
    let alloc = rt.alloc();
    let mut cache: CacheData<Tally> = CacheData::new(alloc);
    let mut counter = Counter { number: 0 };
    let calls: &[((u64, u64), How, u64)] = &[
        ((900, 21), How::Stored, 21),
        ((7000, 21), How::Hit, 42),
        ((7000, 4), How::Stored, 46),
    ];
    for (town, how, sum) in calls {
        let is_so = tallies(alloc, &mut cache, *town, &mut counter, *how, *sum);
        assert!(rt; is_so, "for {town:?}");
    }
    assert_eq!(rt; counter.number, 46);
}

/// Whether a tally of a town by its warmth returns its degrees and ends as `how`, and the counter has this number then.
fn tallies_warmth(
    alloc: Global,
    cache: &mut CacheData<TallyWarmth>,
    kept: &mut CacheData<Warmth>,
    (people, degrees): (u64, u64),
    counter: &mut Counter,
    how: How,
    sum: u64,
) -> bool {
    let town = Town { people, degrees };
    let mut both = ReadAndWrite {
        first: town.view(alloc),
        second: counter,
    };
    let is_so = match memoized_mut_with(alloc, cache, kept, (), &mut both, &mut Top::new(), true) {
        Ok(reply) => reply.output == degrees && reply.how == how,
        Err(_) => false,
    };
    is_so && both.second.number == sum
}

#[test]
fn a_town_is_read_by_another_function_and_a_counter_written(rt: HostRuntime) {
    let alloc = rt.alloc();
    let mut cache: CacheData<TallyWarmth> = CacheData::new(alloc);
    let mut kept: CacheData<Warmth> = CacheData::new(alloc);
    let mut counter = Counter { number: 0 };
    // The last columns are the counter's number and the number of entries of `Warmth`.
    let calls: &[((u64, u64), How, u64, usize)] = &[
        ((900, 21), How::Stored, 21, 1),
        ((7000, 21), How::Hit, 42, 1),
        ((7000, 4), How::Stored, 46, 2),
    ];
    for (town, how, sum, inner) in calls {
        let is_so = tallies_warmth(
            alloc,
            &mut cache,
            &mut kept,
            *town,
            &mut counter,
            *how,
            *sum,
        );
        assert!(rt; is_so, "for {town:?}");
        assert_eq!(rt; kept.len(), *inner);
    }
    assert_eq!(rt; counter.number, 46);
}

/// Whether a call that adds the 21 degrees of a town to a counter of this number returns the number, and ends as `how`,
/// and the counter has this sum then.
fn adds_degrees(
    alloc: Global,
    cache: &mut CacheData<AddsDegrees>,
    number: u64,
    how: How,
    sum: u64,
) -> bool {
    let town = Town {
        people: 900,
        degrees: 21,
    };
    let mut counter = Counter { number };
    let mut both = ReadAndWrite {
        first: town.view(alloc),
        second: &mut counter,
    };
    let is_so = match memoized_mut(alloc, cache, (), &mut both) {
        Ok(reply) => reply.output == number && reply.how == how,
        Err(_) => false,
    };
    is_so && both.second.number == sum
}

#[test]
fn a_counter_that_is_written_is_read_too(rt: HostRuntime) {
    let alloc = rt.alloc();
    let mut cache: CacheData<AddsDegrees> = CacheData::new(alloc);
    let calls: &[(u64, How, u64)] = &[
        (0, How::Stored, 21),
        (21, How::Stored, 42),
        (0, How::Hit, 21),
    ];
    for (number, how, sum) in calls {
        let is_so = adds_degrees(alloc, &mut cache, *number, *how, *sum);
        assert!(rt; is_so, "for {number} {how:?}");
    }
}

/// Whether a call that adds the degrees of a town and 1 returns the degrees and 1, and ends as `how`, and the counter
/// has this number then.
fn adds_one_more(
    alloc: Global,
    cache: &mut CacheData<AddsOneMore>,
    kept: &mut CacheData<Adds>,
    degrees: u64,
    counter: &mut Counter,
    how: How,
    sum: u64,
) -> bool {
    let town = Town {
        people: 900,
        degrees,
    };
    let mut both = ReadAndWrite {
        first: town.view(alloc),
        second: counter,
    };
    let is_so = match memoized_mut_with(alloc, cache, kept, (), &mut both, &mut Top::new(), true) {
        Ok(reply) => reply.output == degrees.wrapping_add(1) && reply.how == how,
        Err(_) => false,
    };
    is_so && both.second.number == sum
}

#[test]
fn a_counter_is_written_by_another_function(rt: HostRuntime) {
    let alloc = rt.alloc();
    let mut cache: CacheData<AddsOneMore> = CacheData::new(alloc);
    let mut kept: CacheData<Adds> = CacheData::new(alloc);
    let mut counter = Counter { number: 0 };
    // The last columns are the counter's number and the number of entries of `Adds`.
    let calls: &[(u64, How, u64, usize)] = &[
        (21, How::Stored, 22, 1),
        (21, How::Hit, 44, 1),
        (4, How::Stored, 49, 2),
    ];
    for (degrees, how, sum, inner) in calls {
        let is_so = adds_one_more(
            alloc,
            &mut cache,
            &mut kept,
            *degrees,
            &mut counter,
            *how,
            *sum,
        );
        assert!(rt; is_so, "for {degrees} {how:?}");
        assert_eq!(rt; kept.len(), *inner);
    }
}

/// Whether a call that notes a counter's number and adds 5 and 1 to it returns this number and
/// ends as `how`, and the counter has this sum then.
fn notes_and_adds(
    alloc: Global,
    cache: &mut CacheData<NotesAndAdds>,
    kept: &mut CacheData<Adds>,
    number: u64,
    book: &mut Notebook,
    how: How,
    sum: u64,
) -> bool {
    let mut counter = Counter { number };
    let mut both = BothMut {
        first: &mut counter,
        second: book,
    };
    let is_so = match memoized_mut_with(alloc, cache, kept, 5, &mut both, &mut Top::new(), true) {
        Ok(reply) => reply.output == number && reply.how == how,
        Err(_) => false,
    };
    is_so && both.first.number == sum
}

#[test]
fn a_counter_and_a_notebook_are_written(rt: HostRuntime) {
    let alloc = rt.alloc();
    let mut cache: CacheData<NotesAndAdds> = CacheData::new(alloc);
    let mut kept: CacheData<Adds> = CacheData::new(alloc);
    let mut book = Notebook::new(alloc, 7, 3);
    // The last columns are the counter's number afterwards and the number of entries of `Adds`.
    let calls: &[(u64, How, u64, usize)] = &[
        (10, How::Stored, 16, 1),
        (10, How::Hit, 16, 1),
        (20, How::Stored, 26, 1),
    ];
    for (number, how, sum, inner) in calls {
        let is_so = notes_and_adds(alloc, &mut cache, &mut kept, *number, &mut book, *how, *sum);
        assert!(rt; is_so, "for {number} {how:?}");
        assert_eq!(rt; kept.len(), *inner);
    }
    assert!(rt; book.lines() == [10, 10, 20].as_slice());
}

/// The texts `to` and `day`.
fn two_texts(alloc: Global) -> Result<Vec<String>, AllocError> {
    Ok(vec![in alloc;
        String::from_str(alloc, "to")?,
        String::from_str(alloc, "day")?,
    ]?)
}

/// Whether a listing of two texts ends as `how`, and the log then has this many lines, the last of which is `day`.
fn lists(
    alloc: Global,
    cache: &mut CacheData<Listing>,
    log: &mut Log,
    how: How,
    lines: usize,
) -> bool {
    let Ok(texts) = two_texts(alloc) else {
        return false;
    };
    let is_how = match memoized_mut(alloc, cache, texts, log) {
        Ok(reply) => reply.how == how,
        Err(_) => false,
    };
    let is_last = match log.lines().last() {
        Some(line) => line.as_str() == "day",
        None => false,
    };
    is_how && is_last && log.lines().len() == lines
}

#[test]
fn a_hit_writes_each_line_again(rt: HostRuntime) {
    let alloc = rt.alloc();
    let mut cache: CacheData<Listing> = CacheData::new(alloc);
    let mut log = Log::new(alloc);
    assert!(rt; lists(alloc, &mut cache, &mut log, How::Stored, 2));
    assert!(rt; lists(alloc, &mut cache, &mut log, How::Hit, 4));
}
