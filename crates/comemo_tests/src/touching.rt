//! Laws of which reads a write touches: equal calls are not distinguished. Each function here does nothing when it
//! runs. What it ensures is the law.
ghost use Rattle.comemo_tests.specs.Touching.{TouchesAlike, TouchedAlike};

use comemo::Call;
use comemo_examples::{CounterCall, EmitterCall, NotebookCall};

/// If equal writes touch equal reads, then of two recordings that took equal calls in the same order both are late, or
/// neither is.
fn touch_alike<C: Call, R: Ord>()
    ensures { TouchedAlike C.eq C.touches R.eq }
{}

/// Every write of a counter touches its number.
fn counters_touch_alike()
    ensures { TouchesAlike ⟦<CounterCall as PartialEq>⟧.eq ⟦<CounterCall as Call>⟧.touches }
{}

/// The writes of an emitter and of a notebook touch nothing.
fn others_touch_alike()
    ensures emitter { TouchesAlike ⟦<EmitterCall as PartialEq>⟧.eq ⟦<EmitterCall as Call>⟧.touches }
    ensures notebook { TouchesAlike ⟦<NotebookCall as PartialEq>⟧.eq
        ⟦<NotebookCall as Call>⟧.touches }
{}
