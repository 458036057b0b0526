//! A hit of a share of a cache sends its reads to the sink as reads, and its writes as writes.

use comemo::{BothMut, Cache, Constraint, Hold, How, MultiAnswer, MultiCall, memoized_mut_with};
use comemo_examples::tally::Tally;
use comemo_examples::{Counter, CounterCall, Town, TownCall};
use std::alloc::Global;

/// Whether a tally of 21 degrees ends as `how`, reads them alone, and adds them to a counter once.
fn is_tallied<H: Hold<Tally>>(alloc: Global, cache: &mut H, how: How) -> bool {
    let mut town = Town {
        people: 900,
        degrees: 21,
    };
    let mut counter = Counter { number: 0 };
    let mut both = BothMut {
        first: &mut town,
        second: &mut counter,
    };
    let mut recording = Constraint::new(alloc);
    let became = memoized_mut_with(alloc, cache, &mut (), (), &mut both, &mut recording, true);
    let is_how = match became {
        Ok(reply) => reply.how == how,
        Err(_) => false,
    };
    drop(both);
    let (mut reads, writes) = recording.into_parts();
    let degrees = reads.extract(&MultiCall::A(TownCall::Degrees));
    let is_read = degrees == Some(MultiAnswer::A(21)) && reads.next().is_none();
    let is_written = writes.as_slice() == [MultiCall::B(CounterCall::Add(21))].as_slice();
    is_how && is_read && is_written && counter.number == 21
}

#[test]
fn a_hit_of_a_share_sends_its_reads_and_its_writes(rt: HostRuntime) {
    let alloc = rt.alloc();
    let cache: Cache<Tally> = Cache::new(alloc);
    let hows: &[How] = &[How::Stored, How::Hit];
    for how in hows {
        let held = &mut cache.hold(&rt);
        assert!(rt; is_tallied(alloc, held, *how), "for {how:?}");
    }
}
