//! Branches of a run. A branch is a recorder of its own, whose recording the recorder of the run absorbs. It may ask in
//! another thread. Making one does not allocate.
ghost use Rattle.std.specs.Prelude.{◌≡◌, List, [], true, false, IfErr, OnOk, Ok};
ghost use Rattle.comemo_track.specs.Recording.{Recording};
ghost use Rattle.comemo.specs.Function.{Recorded};
ghost use Rattle.comemo.specs.Recursive.{TellsOwn};
ghost use Rattle.comemo.specs.Branch.{IsBranch, Spoils};

use crate::function::{Recorder, Told};
use crate::pending::Fault;
use comemo_track::track::Track;
use std::alloc::Global;

impl<'a, T: Track> Recorder<'a, T> {
    /// A recorder of the same value with an empty recording, for a branch of the run.
    ///
    /// What the branch is told counts for the run once it is absorbed. If it is dropped, as by `?`, the run takes
    /// nothing.
    pub fn branch(&self) -> Recorder<'a, T>
        ensures { IsBranch self.now result }
    {
        Recorder::new(self.alloc, self.view.fork(self.alloc))
    }

    /// Takes what a branch recorded: the reads that aren't recorded here, in their order. So the recording depends on
    /// the order of the calls of `absorb`, and not on when the branches ended.
    ///
    /// Fails if out of memory. This recording is then incomplete, and the branch is dropped.
    pub fn absorb(&mut self, branch: Recorder<'_, T>) -> Result<(), Fault>
        requires value { branch.value ≡ self.now.value }
        requires complete { branch.recording.complete ≡ true }
        ensures tells { TellsOwn ⟦<T as Told>⟧.fits self.old self.new result
            (λ _ m. ⟦<T as Told>⟧.fits branch.entry.recording m) }
        ensures took { OnOk result
            (⟦<T as Told>⟧.took self.old self.new branch.entry.recording.pairs []) }
        ensures err { IfErr result (λ fault. (fault ≡ Fault.Memory) × Spoils self.old self.new) }
    {
        let Recorder {
            alloc: _,
            view: _,
            recording,
        } = branch;
        self.recording.absorb(recording)?;
        Ok(())
    }
}

/// What asks in a branch: a `Recorder`. There is no other implementation.
///
/// It is a trait because a bound on a closure can't name `Recorder`.
pub trait Branch: Sized {
    /// The tracked value.
    type Value;

    /// What can be asked.
    type Call;

    /// The answer to a read.
    type Answer;

    // the recorder, as contracts see it
    ghost seen: { Self → Recorded Self.Value Self.Call Self.Answer };

    // the recording is complete and not late, and the answers agree with it
    ghost fits: { Recording Self.Call Self.Answer → (Self.Call → Self.Answer) → Type 0 };

    // the second's recording is the first's after it took these pairs
    ghost took: { Recorded Self.Value Self.Call Self.Answer
        → Recorded Self.Value Self.Call Self.Answer → List (Self.Call × Self.Answer) → Type 0 };

    /// The allocator of the recorder.
    fn allocator(&self) -> Global;

    /// A new branch, as `Recorder::branch` makes.
    fn fork(&self) -> Self
        ensures { IsBranch (seen self.now) (seen result) };

    /// Takes what a branch recorded, as `Recorder::absorb`.
    ///
    /// Fails if out of memory. This recording is then incomplete, and the branch is dropped.
    fn join(&mut self, branch: Self) -> Result<(), Fault>
        requires value { (seen branch).value ≡ (seen self.now).value }
        requires complete { (seen branch).recording.complete ≡ true }
        ensures tells { TellsOwn fits (seen self.old) (seen self.new) result
            (λ _ m. fits (seen branch).recording m) }
        ensures took { OnOk result
            (took (seen self.old) (seen self.new) (seen branch).recording.pairs) }
        ensures err { IfErr result (λ fault. (fault ≡ Fault.Memory)
            × Spoils (seen self.old) (seen self.new)) };
}

impl<'a, T: Track> Branch for Recorder<'a, T> {
    type Value = T;

    type Call = T::Call;

    type Answer = T::Answer;

    ghost use Rattle.comemo.specs.Function.{Fits};
    ghost use Rattle.comemo_track.specs.Recording.{Took};

    ghost seen = { λ s. s };

    ghost fits = { Fits T.Call.eq T.Answer.eq };

    ghost took = { λ s t pairs.
        Took T.Call.eq T.Call.touches s.recording t.recording pairs [] };

    fn allocator(&self) -> Global {
        self.alloc
    }

    fn fork(&self) -> Self {
        self.branch()
    }

    fn join(&mut self, branch: Self) -> Result<(), Fault> {
        self.absorb(branch)
    }
}
