//! Machines that do one kind of step wrong are found out.

use bench_rows::{Anything, Machine, PlainList, compare};
use comemo::internal::{Step, StepReply};
use std::alloc::{AllocError, Global};

/// What a machine does wrong.
#[derive(Clone, Copy, Drop, Debug)]
enum Wrong {
    /// Nothing.
    Nothing,
    /// Keeps entries as old as the bound.
    KeepsTheBound,
    /// Doesn't reset the age of a touched entry.
    ForgetsTouches,
    /// Stores without the writes.
    ForgetsWrites,
    /// Reports a missing call when a path exists.
    ConfusesRefusals,
    /// Reports each entry that it finds with age 0.
    HidesAges,
}

/// A plain list, except for one kind of step.
#[derive(Drop)]
struct Faulty {
    list: PlainList,
    wrong: Wrong,
}

impl Faulty {
    /// The list's reply to the step that replaces this one.
    fn reply(
        &mut self,
        alloc: Global,
        step: &Step<Anything>,
    ) -> Result<StepReply<Anything>, AllocError> {
        match (self.wrong, step) {
            (Wrong::KeepsTheBound, Step::Evict { max_age }) => {
                let max_age = max_age.saturating_add(1);
                self.list.take(alloc, &Step::Evict { max_age })
            }
            (Wrong::ForgetsTouches, Step::Touch { .. }) => Ok(StepReply::Done),
            (
                Wrong::ForgetsWrites,
                Step::Store {
                    key,
                    pairs,
                    output,
                    writes: _,
                },
            ) => {
                let step = Step::Store {
                    key: *key,
                    pairs: pairs.clone()?,
                    output: *output,
                    writes: Vec::new(alloc),
                };
                self.list.take(alloc, &step)
            }
            _ => self.list.take(alloc, step),
        }
    }
}

impl Machine for Faulty {
    fn take(
        &mut self,
        alloc: Global,
        step: &Step<Anything>,
    ) -> Result<StepReply<Anything>, AllocError> {
        match (self.wrong, self.reply(alloc, step)?) {
            (Wrong::ConfusesRefusals, StepReply::AlreadyExists) => Ok(StepReply::MissingCall),
            (Wrong::HidesAges, StepReply::Found(mut found)) => {
                found.age = 0;
                Ok(StepReply::Found(found))
            }
            (_, reply) => Ok(reply),
        }
    }
}

/// The first step at which a cache and a machine with this fault differ.
fn first_found(alloc: Global, wrong: Wrong) -> Option<u32> {
    let list = PlainList::new(alloc);
    compare(alloc, Faulty { list, wrong }, 1, 10_000)
}

#[test]
fn each_fault_of_a_machine_is_found(rt: HostRuntime) {
    let alloc = rt.alloc();
    assert!(rt; first_found(alloc, Wrong::Nothing).is_none());
    let faults: &[Wrong] = &[
        Wrong::KeepsTheBound,
        Wrong::ForgetsTouches,
        Wrong::ForgetsWrites,
        Wrong::ConfusesRefusals,
        Wrong::HidesAges,
    ];
    for wrong in faults {
        assert!(rt; first_found(alloc, *wrong).is_some(), "{wrong:?}");
    }
}
