//! The outcome of a script. Nothing here allocates.
ghost use Rattle.std.specs.Prelude.{◌≡◌, ℕ, ◌+◌, ◌-◌, ◌^◌, ◌<◌, max, pos};
ghost use Rattle.calc_core.specs.Totals.{IsAdded, value_at};

use std::marker::Model;

/// Why a script has no number: the fault of the leftmost part that fails.
#[derive(Clone, Copy, Debug, PartialEq, Eq)]
pub enum CalcFault {
    /// A part is neither a 32-bit number nor a call of a script.
    NotANumber,
    /// The sum of the parts up to this one doesn't fit in 32 bits, with the sign.
    Overflow,
}

/// The outcome of a script or a part: its value, and how deeply it calls.
#[derive(Clone, Copy, Debug, PartialEq, Eq)]
pub struct Outcome {
    /// The number, or why there is none.
    pub value: Result<i32, CalcFault>,
    /// 0 for a part that calls nothing; for a script one more than the greatest height of its evaluated parts.
    pub height: u64,
}

/// The sum and the greatest height of the parts so far.
#[derive(Drop)]
pub struct Total {
    number: i32,
    greatest: u64,
}

impl Model for Total {
    ghost use Rattle.calc_core.specs.Taken.{Taken};

    ghost Value = { Taken };

    ghost view = { λ t. record { sum = t.number; height = t.greatest } };
}

impl Total {
    /// No parts: sum and height are 0.
    pub fn new() -> Self
        ensures { result ≡ record { sum = pos 0; height = 0 } }
    {
        Total {
            number: 0,
            greatest: 0,
        }
    }

    /// Adds a part's outcome. On error the sum is unchanged, and the height counts the part.
    pub fn add(&mut self, part: Outcome) -> Result<(), CalcFault>
        ensures sum { IsAdded self.old.sum part.value self.new.sum result }
        ensures height { self.new.height ≡ max self.old.height part.height }
    {
        self.greatest = self.greatest.max(part.height);
        match self.number.checked_add(part.value?) {
            Some(sum) => self.number = sum,
            None => return Err(CalcFault::Overflow),
        }
        Ok(())
    }

    /// The outcome of the whole script: the sum, or the fault that ended it, and one more than the greatest height.
    pub fn outcome(self, end: Result<(), CalcFault>) -> Outcome
        requires { self.height < 2 ^ 64 - 1 }
        ensures value { result.value ≡ value_at self.sum end }
        ensures height { result.height ≡ self.height + 1 }
    {
        let value = match end {
            Ok(()) => Ok(self.number),
            Err(fault) => Err(fault),
        };
        Outcome {
            value,
            height: self.greatest + 1,
        }
    }
}
