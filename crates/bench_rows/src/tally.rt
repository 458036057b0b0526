//! The result of a row that goes on after a failed allocation. Nothing here allocates.
ghost use Rattle.std.specs.Prelude.{◌≡◌, ◌||◌, not, true, false, Ok, IfOk};

use crate::broken::Broken;
use comemo::{Fault, How};

/// A row's result so far: whether something was wrong, and whether an allocation failed.
#[derive(Drop)]
pub struct Tally {
    is_wrong: bool,
    was_refused: bool,
}

impl Tally {
    /// Nothing was wrong yet, and nothing failed.
    pub fn new() -> Self
        ensures wrong { result.is_wrong ≡ false }
        ensures refused { result.was_refused ≡ false }
    {
        Tally {
            is_wrong: false,
            was_refused: false,
        }
    }

    /// Records whether something is as it should be.
    pub fn hold(&mut self, holds: bool)
        ensures wrong { self.new.is_wrong ≡ (self.old.is_wrong || not holds) }
        ensures refused { self.new.was_refused ≡ self.old.was_refused }
    {
        if !holds {
            self.is_wrong = true;
        }
    }

    /// Records a failed allocation.
    pub fn refuse(&mut self)
        ensures wrong { self.new.is_wrong ≡ self.old.is_wrong }
        ensures refused { self.new.was_refused ≡ true }
    {
        self.was_refused = true;
    }

    /// Records whether something is as it should be, if no allocation has failed so far.
    pub fn hold_if_ample(&mut self, holds: bool)
        ensures wrong { self.new.is_wrong
            ≡ (self.old.is_wrong || not (holds || self.old.was_refused)) }
        ensures refused { self.new.was_refused ≡ self.old.was_refused }
    {
        if !self.was_refused {
            self.hold(holds);
        }
    }

    /// Checks the result of a memoized call, and that its sink is complete unless it failed. Given whether there was an
    /// entry, it returns whether there is one now.
    ///
    /// A call is right if it hits an entry or, without one, stores its run. A run that isn't stored, and `Memory`,
    /// count as failed allocations. All else is wrong.
    pub fn call(&mut self, was_kept: bool, went: Result<How, Fault>, is_whole: bool) -> bool {
        self.hold(went.is_ok() == is_whole);
        match (was_kept, went) {
            (true, Ok(How::Hit)) => true,
            (false, Ok(How::Stored)) => true,
            (false, Ok(How::NotStored)) => {
                self.refuse();
                false
            }
            (_, Err(Fault::Memory)) => {
                self.refuse();
                was_kept
            }
            _ => {
                self.hold(false);
                was_kept
            }
        }
    }

    /// The row's result: `Ok(false)` if something was wrong, else `Err(Broken)` if an allocation failed, else
    /// `Ok(true)`.
    pub fn came_to(&self) -> Result<bool, Broken>
        ensures wrong { self.now.is_wrong ≡ true → result ≡ Ok false }
        ensures refused { self.now.is_wrong ≡ false → self.now.was_refused ≡ true
            → IfOk result (λ _. ⊥) }
        ensures right { self.now.is_wrong ≡ false → self.now.was_refused ≡ false
            → result ≡ Ok true }
    {
        if self.is_wrong {
            return Ok(false);
        }
        if self.was_refused {
            return Err(Broken);
        }
        Ok(true)
    }
}
