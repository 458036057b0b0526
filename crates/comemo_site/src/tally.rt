//! How many calls ran.
ghost use Rattle.std.specs.Prelude.{◌≡◌, ◌+◌, ◌-◌, ◌^◌, min};

/// How many calls that render a page ran, and how many were hits. Each stops at the largest `u64`.
#[derive(Clone, Copy, Debug, PartialEq, Eq)]
pub struct Tally {
    /// The calls that ran.
    pub runs: u64,
    /// The calls that were hits.
    pub hits: u64,
}

impl Tally {
    /// No calls.
    pub fn new() -> Self
        ensures runs { result.runs ≡ 0 }
        ensures hits { result.hits ≡ 0 }
    {
        Tally { runs: 0, hits: 0 }
    }

    /// Counts a call that runs.
    pub fn count_run(&mut self)
        ensures runs { self.new.runs ≡ min (self.old.runs + 1) (2 ^ 64 - 1) }
        ensures hits { self.new.hits ≡ self.old.hits }
    {
        self.runs = self.runs.saturating_add(1);
    }

    /// Counts a call that is a hit.
    pub fn count_hit(&mut self)
        ensures runs { self.new.runs ≡ self.old.runs }
        ensures hits { self.new.hits ≡ min (self.old.hits + 1) (2 ^ 64 - 1) }
    {
        self.hits = self.hits.saturating_add(1);
    }

    /// Adds what another counted.
    pub fn add(&mut self, other: Tally)
        ensures runs { self.new.runs ≡ min (self.old.runs + other.runs) (2 ^ 64 - 1) }
        ensures hits { self.new.hits ≡ min (self.old.hits + other.hits) (2 ^ 64 - 1) }
    {
        self.runs = self.runs.saturating_add(other.runs);
        self.hits = self.hits.saturating_add(other.hits);
    }
}
