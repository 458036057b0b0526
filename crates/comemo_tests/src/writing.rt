//! Views that write, and functions whose runs write: what is done, what is recorded, and what a hit does again.

use crate::notes::{AddsThree, NotesThree};
use comemo::internal::TrackedMut;
use comemo::{
    Begun, BothMut, CacheData, Constraint, Fault, How, MultiAnswer, MultiCall, RecorderMut, Sink,
    Top, Track, Tracked, memoize, memoized_mut_with,
};
use comemo_examples::{Counter, CounterCall, Notebook, NotebookCall, Town, TownCall};
use std::alloc::Global;

/// Whether a recording has the one read of a notebook's owner, and these lines as its writes.
fn is_recorded(recording: Constraint<NotebookCall, u64>, owner: u64, lines: &[u64]) -> bool {
    let (mut reads, writes) = recording.into_parts();
    let mut is_so = reads.extract(&NotebookCall::Owner) == Some(owner);
    is_so = is_so && writes.len() == lines.len();
    for (write, line) in writes.as_slice().iter().zip(lines) {
        is_so = is_so && *write == NotebookCall::Note(*line);
    }
    is_so
}

/// Whether the line 5 is written through a view of a notebook whose owner is 7, and 6 exactly if there is room for it.
fn writes(
    view: &mut TrackedMut<'_, Notebook>,
    recording: &mut Constraint<NotebookCall, u64>,
    has_room: bool,
) -> bool {
    let first = view.write(NotebookCall::Note(5), recording).is_ok();
    let owner = view.ask(NotebookCall::Owner, recording) == Ok(7);
    let second = view.write(NotebookCall::Note(6), recording).is_ok();
    first && owner && second == has_room
}

/// Whether of the lines 5 and 6, written to a notebook that has so much room, these are done and recorded, and the others
/// are neither.
fn are_written(alloc: Global, room: usize, lines: &[u64]) -> bool {
    let mut book = Notebook::new(alloc, 7, room);
    let mut recording = Constraint::new(alloc);
    let is_told = writes(&mut book.track_mut(alloc), &mut recording, lines.len() == 2);
    let is_done = book.lines() == lines;
    is_told && is_done && recording.is_whole() && is_recorded(recording, 7, lines)
}

/// Whether a view that holds a recording does and records what is written through it.
fn is_sent(alloc: Global) -> bool {
    let mut book = Notebook::new(alloc, 7, 9);
    let mut recording = Constraint::new(alloc);
    let mut view = book.track_mut_with(alloc, &mut recording);
    let is_written = view.write(NotebookCall::Note(5)).is_ok();
    let owner = view.ask(NotebookCall::Owner) == Ok(7);
    drop(view);
    let is_done = book.lines() == [5].as_slice();
    is_written && owner && is_done && is_recorded(recording, 7, [5].as_slice())
}

#[test]
fn a_write_is_done_and_recorded_or_neither(rt: HostRuntime) {
    let alloc = rt.alloc();
    let has_room = are_written(alloc, 9, [5, 6].as_slice());
    let is_full = are_written(alloc, 1, [5].as_slice());
    let is_sent = is_sent(alloc);
    assert!(rt; has_room);
    assert!(rt; is_full);
    assert!(rt; is_sent);
}

/// Whether a view tells the owner 7 of a notebook.
fn tells_owner(mut view: Tracked<'_, Notebook>) -> bool {
    view.ask(NotebookCall::Owner, &mut Top::new()) == Ok(7)
}

/// Whether views of a view write to its value and read it.
fn are_of_one_value(alloc: Global) -> bool {
    let mut book = Notebook::new(alloc, 7, 9);
    let mut view = book.track_mut(alloc);
    let mut inner = TrackedMut::reborrow_mut(&mut view, alloc);
    let first = inner.write(NotebookCall::Note(5), &mut Top::new()).is_ok();
    drop(inner);
    let second = view.write(NotebookCall::Note(6), &mut Top::new()).is_ok();
    let owner = tells_owner(TrackedMut::reborrow(&view, alloc));
    let owner_too = tells_owner(TrackedMut::downgrade(view, alloc));
    first && second && owner && owner_too && book.lines() == [5, 6].as_slice()
}

#[test]
fn views_of_views_are_of_the_same_value(rt: HostRuntime) {
    let is_so = are_of_one_value(rt.alloc());
    assert!(rt; is_so);
}

/// Whether a write of two values is done on its own and recorded, and a read is answered by the other.
fn changes_its_own(alloc: Global, town: &mut Town, counter: &mut Counter) -> bool {
    let mut both = BothMut {
        first: town,
        second: counter,
    };
    let mut recording = Constraint::new(alloc);
    let mut view = both.track_mut(alloc);
    let degrees = view.ask(MultiCall::A(TownCall::Degrees), &mut recording);
    let is_read = degrees == Ok(MultiAnswer::A(21));
    let add = MultiCall::B(CounterCall::Add(4));
    let is_written = view.write(add, &mut recording).is_ok();
    drop(view);
    let (_, writes) = recording.into_parts();
    is_read && is_written && writes.len() == 1
}

#[test]
fn a_write_of_two_values_changes_its_own(rt: HostRuntime) {
    let mut town = Town {
        people: 900,
        degrees: 21,
    };
    let mut counter = Counter { number: 1 };
    let is_so = changes_its_own(rt.alloc(), &mut town, &mut counter);
    assert!(rt; is_so);
    assert_eq!(rt; counter.number, 5);
    assert_eq!(rt; (town.people, town.degrees), (900, 21));
}

/// Whether a number is noted so in a new notebook that has this owner and so much room: this becomes of the call, and
/// these lines stand in it then and are recorded, unless it was a run and ended in a fault.
fn is_noted(
    alloc: Global,
    cache: &mut CacheData<NotesThree>,
    number: u64,
    (owner, room): (u64, usize),
    how: Result<How, Fault>,
    lines: &[u64],
) -> bool {
    let mut book = Notebook::new(alloc, owner, room);
    let mut recording = Constraint::new(alloc);
    let enabled = how != Ok(How::Disabled);
    let reply = memoized_mut_with(
        alloc,
        cache,
        &mut (),
        number,
        &mut book,
        &mut recording,
        enabled,
    );
    let became = match reply {
        Ok(reply) => reply.output == owner && how == Ok(reply.how),
        Err(fault) => how == Err(fault),
    };
    let is_whole = recording.is_whole() == how.is_ok();
    let is_written = book.lines() == lines;
    let is_sent = how == Err(Fault::Memory) || is_recorded(recording, owner, lines);
    became && is_whole && is_written && is_sent
}

#[test]
fn a_hit_writes_again_in_order(rt: HostRuntime) {
    let alloc = rt.alloc();
    let mut cache = CacheData::new(alloc);
    let calls: &[(u64, u64, How)] = &[
        (3, 7, How::Disabled),
        (3, 7, How::Stored),
        (3, 7, How::Hit),
        (3, 7, How::Disabled),
        (3, 8, How::Stored),
        (4, 8, How::Stored),
        (3, 8, How::Hit),
    ];
    for (number, owner, how) in calls {
        let lines = [*number, *owner, *number];
        let is_so = is_noted(
            alloc,
            &mut cache,
            *number,
            (*owner, 3),
            Ok(*how),
            lines.as_slice(),
        );
        assert!(rt; is_so, "for {number} of {owner}");
    }
    assert_eq!(rt; cache.len(), 3);
}

#[test]
fn a_run_and_a_hit_stop_at_a_refused_write(rt: HostRuntime) {
    let alloc = rt.alloc();
    let mut cache = CacheData::new(alloc);
    // The lines for which there is room, what becomes of the call, and how many entries are kept then.
    let calls: &[(&[u64], Result<How, Fault>, usize)] = &[
        (&[], Err(Fault::Memory), 0),
        (&[3], Err(Fault::Memory), 0),
        (&[3, 7], Err(Fault::Memory), 0),
        (&[3, 7, 3], Ok(How::Stored), 1),
        (&[], Err(Fault::Write), 1),
        (&[3], Err(Fault::Write), 1),
        (&[3, 7], Err(Fault::Write), 1),
        (&[3, 7, 3], Ok(How::Hit), 1),
    ];
    for (lines, how, len) in calls {
        let is_so = is_noted(alloc, &mut cache, 3, (7, lines.len()), *how, *lines);
        assert!(rt; is_so, "for {lines:?} {len}");
        assert_eq!(rt; cache.len(), *len);
    }
}

/// What becomes of a call of a closure that adds 3.
fn add_three(
    alloc: Global,
    cache: &mut CacheData<AddsThree>,
    counter: &mut Counter,
) -> Result<How, Fault> {
    let reply = memoize(
        alloc,
        cache,
        &mut counter.track_mut(alloc),
        &mut Top::new(),
        true,
        |view: &mut TrackedMut<'_, Counter>, recording: &mut Constraint<CounterCall, u64>| {
            view.write(CounterCall::Add(3), recording)?;
            Ok(())
        },
    );
    match reply {
        Ok(reply) => Ok(reply.how),
        Err(fault) => Err(fault),
    }
}

#[test]
fn a_closure_writes_and_its_hit_writes_again(rt: HostRuntime) {
    let alloc = rt.alloc();
    let mut cache: CacheData<AddsThree> = CacheData::new(alloc);
    let mut counter = Counter { number: 0 };
    let calls: &[(How, u64)] = &[(How::Stored, 3), (How::Hit, 6)];
    for (how, sum) in calls {
        let is_so = add_three(alloc, &mut cache, &mut counter) == Ok(*how);
        assert!(rt; is_so, "for {how:?}");
        assert_eq!(rt; counter.number, *sum);
    }
}

/// What becomes of a call by hand that adds 3.
fn add_three_by_hand(
    alloc: Global,
    cache: &mut CacheData<AddsThree>,
    counter: &mut Counter,
) -> Result<How, Fault> {
    let mut recording = Constraint::new(alloc);
    let mut recorder = RecorderMut::new(alloc, counter, &mut recording);
    let run = match recorder.begin(cache, &())? {
        Begun::Hit(()) => return Ok(How::Hit),
        Begun::Run(run) => run,
    };
    let ran = recorder.write(CounterCall::Add(3));
    let reply = recorder.finish_reply(cache, &(), run, ran)?;
    Ok(reply.how)
}

#[test]
fn a_call_by_hand_that_writes_says_what_became_of_it(rt: HostRuntime) {
    let alloc = rt.alloc();
    let mut cache: CacheData<AddsThree> = CacheData::new(alloc);
    let mut counter = Counter { number: 0 };
    let calls: &[(How, u64)] = &[(How::Stored, 3), (How::Hit, 6)];
    for (how, sum) in calls {
        let is_so = add_three_by_hand(alloc, &mut cache, &mut counter) == Ok(*how);
        assert!(rt; is_so, "for {how:?}");
        assert_eq!(rt; counter.number, *sum);
    }
}
