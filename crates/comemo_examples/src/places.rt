//! A function of a place for examples: it asks for the location, and also for the styles if the location is 5.
ghost use Rattle.std.specs.Prelude.{◌≡◌, ◌==◌, ◌%◌, nat_eq, IfOk};
ghost use Rattle.std.specs.List.{All};
ghost use Rattle.comemo_base.specs.Runs.{IsRun};
ghost use Rattle.comemo_tree.specs.StepLists.{InsertsRun};
ghost use Rattle.comemo_examples.specs.PlaceCalls.{AsksPlace};
ghost use Rattle.comemo_examples.specs.declared.places.PlaceCall.TheVariants.{Location, Styles};
ghost use Rattle.std.proofs.Common.{rules};

use crate::sequences::sequence_of;
use comemo_base::CallSequence;
use comemo_tree::{Asks, Keep, TreeOp};
use std::alloc::{AllocError, Global};

/// A call.
#[derive(Clone, Copy, Debug, PartialEq, Eq, Hash)]
pub enum PlaceCall {
    /// Where the place is. Always asked.
    Location,
    /// Which styles it has. Asked if the location is 5.
    Styles,
}

/// What the function asks.
#[derive(Drop)]
pub struct Places;

impl Asks for Places {
    type Key = u64;

    type Call = PlaceCall;

    type Answer = u64;

    ghost asks = { λ k m c. AsksPlace m c };

    ghost laws = { record {
      respect = λ k k' m. elim [
        | Location ↦ elim [ Location ↦ λ e f a. a | Styles ↦ λ e f a. Prim.search rules ]
        | Styles ↦ elim [ Location ↦ λ e f a. tt | Styles ↦ λ e f a. a ]
      ];
      clones = λ x y h. Prim.search rules;
    } };
}

/// A test that keeps even values.
#[derive(Drop)]
pub struct Even;

impl Keep<u64> for Even {
    ghost keeps = { λ keep old stays new. (stays ≡ (old % 2 == 0)) × (new ≡ old) };

    fn keep(&self, value: &mut u64) -> bool {
        *value % 2 == 0
    }
}

/// A step on a tree whose values are locations.
pub type PlaceStep = TreeOp<u64, PlaceCall, u64, u64, Even>;

/// The run of the function at a location, with these styles.
pub fn run_at(
    alloc: Global,
    location: u64,
    styles: u64,
) -> Result<CallSequence<PlaceCall, u64>, AllocError>
    ensures { IfOk result (λ s.
        IsRun ⟦<PlaceCall as PartialEq>⟧.eq nat_eq (λ m c. AsksPlace m c) s.pairs) }
{
    if location == 5 {
        return sequence_of(
            alloc,
            vec![in alloc; (PlaceCall::Location, 5), (PlaceCall::Styles, styles)]?,
        );
    }
    sequence_of(alloc, vec![in alloc; (PlaceCall::Location, location)]?)
}

/// Steps that store, under the key 0, the runs at the locations below a count, and then keep only the even locations.
pub fn steps_below(alloc: Global, count: u64, styles: u64) -> Result<Vec<PlaceStep>, AllocError>
    ensures { IfOk result (λ steps.
        All (InsertsRun ⟦<PlaceCall as PartialEq>⟧.eq nat_eq (λ k m c. AsksPlace m c)) steps.items) }
{
    let mut steps = Vec::new(alloc);
    for location in 0..count {
        let run = run_at(alloc, location, styles)?;
        steps.push(TreeOp::Insert(0, run, location))?;
    }
    steps.push(TreeOp::Retain(Even))?;
    Ok(steps)
}
