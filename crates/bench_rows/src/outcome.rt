//! The outcome of rows: the first that failed. Nothing here allocates.
ghost use Rattle.std.specs.Prelude.{◌≡◌, ◌≢◌, true, false, None, Some, Ok, IsSome};
ghost use Rattle.bench_rows.specs.Started.{verdict, status_of};
ghost use Rattle.calc_lines.specs.Started.{WritesPrefix};

use crate::broken::Broken;
use calc_lines::put_message;
use std::io::Write;
use std::marker::Model;

/// The number of the first row that failed, if one did.
#[derive(Drop)]
pub struct Outcome {
    failed: Option<&'static str>,
}

impl Model for Outcome {
    ghost use Rattle.std.specs.Prelude.{Option, List, ℕ, option_map};

    ghost Value = { Option (List ℕ) };

    ghost view = { λ s. option_map (λ number. number.now) s.failed };
}

impl Outcome {
    /// No row has failed yet.
    pub fn new() -> Self
        ensures { result ≡ None }
    {
        Outcome { failed: None }
    }

    /// Records a row's result. The row failed unless this is `Ok(true)`: something was wrong, or it ran out of memory.
    /// Only the first failure counts.
    pub fn row(&mut self, number: &'static str, came_to: Result<bool, Broken>)
        ensures held { came_to ≡ Ok true → self.new ≡ self.old }
        ensures earlier { IsSome self.old → self.new ≡ self.old }
        ensures failed { self.old ≡ None → came_to ≢ Ok true → self.new ≡ Some number.now }
    {
        if let Ok(true) = came_to {
            return;
        }
        if self.failed.is_none() {
            self.failed = Some(number);
        }
    }

    /// Records the result of a row that may run out of memory. It failed only if this is `Ok(false)`.
    pub fn scarce_row(&mut self, number: &'static str, came_to: Result<bool, Broken>)
        ensures held { came_to ≢ Ok false → self.new ≡ self.old }
        ensures earlier { IsSome self.old → self.new ≡ self.old }
        ensures failed { self.old ≡ None → came_to ≡ Ok false → self.new ≡ Some number.now }
    {
        if let Ok(false) = came_to {
            self.row(number, came_to);
        }
    }

    /// Prints `rows ok`, or `row N failed` for the first that failed, and returns the exit status. Failures of the
    /// writer are ignored.
    pub fn report<W: Write>(&self, writer: &mut W) -> u8
        ensures status { result ≡ status_of self.now }
        ensures written { WritesPrefix (W.contents writer.old) (W.contents writer.new)
            (verdict self.now) }
    {
        match self.failed {
            None => {
                let _ = put_message(writer, "rows ok", "", "\n");
                0
            }
            Some(number) => {
                let _ = put_message(writer, "row ", number, " failed\n");
                1
            }
        }
    }
}
