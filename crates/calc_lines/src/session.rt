//! What a line program knows between two lines.
ghost use Rattle.std.specs.Prelude.{ℕ, List, IfOk, OnErr, string_bytes};

use std::alloc::AllocError;

/// The state of a line program between two lines, and its answer to a line.
///
/// An implementation states by `answers` what a line may print, and by `refuses` its state when it is out of memory.
pub trait Session {
    // The session may print this text for this line, and is then in this state.
    ghost answers: { Self → List ℕ → List ℕ → Self → Type 0 };

    // The session may be out of memory for this line, and is then in this state.
    ghost refuses: { Self → List ℕ → Self → Type 0 };

    /// All that this line prints, with its line feed, or an empty text. Fails if it is out of memory.
    ///
    /// `run` passes lines that have no line feed and aren't empty.
    fn answer(&mut self, line: &str) -> Result<String, AllocError>
        ensures ok { IfOk result (λ text. answers self.old line.now (string_bytes text) self.new) }
        ensures refused { OnErr result (refuses self.old line.now self.new) };
}
