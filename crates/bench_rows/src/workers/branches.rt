//! Branches of one run, each in a thread with its own recording and view.

use crate::workers::gate::{Gate, InTurn, TURNS};
use comemo::{Constraint, Track, Tracked};
use comemo_examples::{Cells, Get};
use std::alloc::{AllocError, Global};
use std::rt::Clock;
use std::sync::atomic::AtomicUsize;
use std::thread::{Threads, join};

/// The recording of a branch, if there was memory for it, and the gate before its end opened.
type Branch = Result<Option<Constraint<Get, u64>>, AllocError>;

/// The recording of a branch that asks for two places; `None` if the gate before its end didn't open.
fn branch<G: Gate>(alloc: Global, of: &Tracked<'_, Cells>, places: [u32; 2], gate: &G) -> Branch {
    let mut fork = of.fork(alloc);
    let mut recording = Constraint::new(alloc);
    for place in places {
        fork.ask(Get { place }, &mut recording)?;
    }
    if !gate.reach(2) {
        return Ok(None);
    }
    Ok(Some(recording))
}

/// Whether a recording has the places 0, 1 and 2 in this order, each once, and with the next number as its answer.
fn has_each_place_once(recording: Constraint<Get, u64>) -> bool {
    let (mut pairs, _) = recording.into_parts();
    for wanted in 0..3 {
        let Some((call, answer)) = pairs.next() else {
            return false;
        };
        if call.place != wanted || answer != u64::from(wanted) + 1 {
            return false;
        }
    }
    pairs.next().is_none()
}

/// Whether a run that absorbs its branches, the left one first, has each place once and in order.
fn is_absorbed(left: Branch, right: Branch) -> bool {
    let (Ok(Some(mut run)), Ok(Some(right))) = (left, right) else {
        return false;
    };
    run.absorb(right).is_ok() && has_each_place_once(run)
}

/// Whether a run's branches are absorbed in order, where so many branches end before the left one, and before the right
/// one.
fn is_in_order<R: Threads + Clock + Sync>(
    rt: &R,
    alloc: Global,
    of: &Tracked<'_, Cells>,
    before_left: usize,
    before_right: usize,
) -> bool {
    let ended = AtomicUsize::new(0);
    let left_gate = InTurn::new(rt, before_left, TURNS, &ended);
    let right_gate = InTurn::new(rt, before_right, TURNS, &ended);
    let (left, right) = join(
        rt,
        || branch(alloc, of, [0, 1], &left_gate),
        || branch(alloc, of, [1, 2], &right_gate),
    );
    is_absorbed(left, right)
}

/// Whether a run's recording has its left branch's questions first, and each once, both if its left branch ends first
/// and if its right one does.
pub fn branches_are_absorbed_in_order<R: Threads + Clock + Sync>(rt: &R, alloc: Global) -> bool {
    let Ok(mut cells) = Cells::new(alloc, 3) else {
        return false;
    };
    for place in 0..3 {
        cells.set(place, place as u64 + 1);
    }
    let of = cells.track(alloc);
    is_in_order(rt, alloc, &of, 0, 1) && is_in_order(rt, alloc, &of, 1, 0)
}
