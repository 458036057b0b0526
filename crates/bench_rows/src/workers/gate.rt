//! Gates: places in a run where a worker may have to wait for others.

use std::rt::Clock;
use std::sync::atomic::{AtomicUsize, Ordering};
use std::thread;
use std::time::Duration;

/// The gate of a run.
pub trait Gate {
    /// Reports that a worker reached a place: 1 is after a run begins, 2 before it ends. False, if the gate didn't open
    /// in time, means to give the run up.
    fn reach(&self, place: u32) -> bool;
}

/// A gate that is always open.
pub struct Open;

impl Gate for Open {
    fn reach(&self, _place: u32) -> bool {
        true
    }
}

/// How many turns a worker of a row waits for others.
pub const TURNS: u32 = 10_000;

/// Whether a count comes to a number within so many turns. A turn of waiting is a sleep of one millisecond.
fn comes_to<R: Clock>(rt: &R, count: &AtomicUsize, number: usize, turns: u32) -> bool {
    for _ in 0..turns {
        if count.load(Ordering::SeqCst) >= number {
            return true;
        }
        let _ = thread::sleep(rt, Duration::from_millis(1));
    }
    false
}

/// A gate whose place 1 opens once this many workers reached it. Its other places are open.
#[derive(Drop)]
pub struct Meeting<'a, R: Clock> {
    rt: &'a R,
    wanted: usize,
    turns: u32,
    come: AtomicUsize,
}

impl<'a, R: Clock> Meeting<'a, R> {
    /// A gate for this many workers, each of which waits at most this many turns. Does not allocate.
    pub fn new(rt: &'a R, wanted: usize, turns: u32) -> Self {
        Meeting {
            rt,
            wanted,
            turns,
            come: AtomicUsize::new(0),
        }
    }
}

impl<R: Clock> Gate for Meeting<'_, R> {
    fn reach(&self, place: u32) -> bool {
        if place != 1 {
            return true;
        }
        self.come.fetch_add(1, Ordering::SeqCst);
        comes_to(self.rt, &self.come, self.wanted, self.turns)
    }
}

/// A worker's own gate, whose place 2 opens once this many others passed theirs. Its other places are open.
#[derive(Drop)]
pub struct InTurn<'a, R: Clock> {
    rt: &'a R,
    before: usize,
    turns: u32,
    passed: &'a AtomicUsize,
}

impl<'a, R: Clock> InTurn<'a, R> {
    /// A gate for a worker that comes after so many others, and waits at most this many turns. All of these workers
    /// count in one number how many passed. Does not allocate.
    pub fn new(rt: &'a R, before: usize, turns: u32, passed: &'a AtomicUsize) -> Self {
        InTurn {
            rt,
            before,
            turns,
            passed,
        }
    }
}

impl<R: Clock> Gate for InTurn<'_, R> {
    fn reach(&self, place: u32) -> bool {
        if place != 2 {
            return true;
        }
        let is_open = comes_to(self.rt, self.passed, self.before, self.turns);
        if is_open {
            self.passed.fetch_add(1, Ordering::SeqCst);
        }
        is_open
    }
}
