//! The sessions of the program `calc`: its files and memoized functions, its answer to each command, and the loop over
//! lines.
//!
//! ```rust
//! use calc_core::sessions::{run, start};
//!
//! let lines = "write a 1 + eval b\nwrite b 2\neval eval a\nwrite c 7\neval eval a\n";
//! let mut printed: Vec<u8> = Vec::new(alloc);
//! run(alloc, &mut lines.as_bytes(), &mut printed)?;
//! assert_eq!(rt; printed.as_slice(), b"miss 3\nhit 3\n".as_slice());
//!
//! // The whole program, which takes no words after its name.
//! let words = vec![in alloc; String::from_str(alloc, "help")?]?;
//! let mut errors: Vec<u8> = Vec::new(alloc);
//! let status = start(alloc, words.as_slice(), &mut lines.as_bytes(), &mut printed, &mut errors);
//! assert_eq!(rt; status, 2);
//! assert_eq!(rt; errors.as_slice(), b"usage: calc\n".as_slice());
//! ```
ghost use Rattle.std.specs.Prelude.{◌≡◌, ℕ, List, [], map, IfOk};
ghost use Rattle.calc_core.specs.Requests.{request_of};
ghost use Rattle.calc_core.specs.Files.{Texts};
ghost use Rattle.calc_core.specs.Remembered.{Past, AnswersEach};

pub mod program;
pub mod state;

use crate::commands::{Answer, Command};
pub use calc_lines::RunFault;
pub use program::{run, start};
pub use state::State;
use std::alloc::{AllocError, Global};

/// Carries out commands in turn, beginning without files and with empty caches, and returns their answers.
///
/// Fails, before the first command, if the list can't be allocated. Until an eviction, a cached value is a hit whenever
/// the texts that it read are the same.
pub fn session(alloc: Global, commands: &[Command]) -> Result<Vec<Answer>, AllocError>
    ensures { IfOk result (λ answers. (before after : Texts) × (left : List Past)
        × ((path : List ℕ) → before path ≡ [])
        × AnswersEach [] before (map request_of commands.now) answers.items after left) }
{
    let mut answers = Vec::with_capacity(alloc, commands.len())?;
    let mut state = State::new(alloc);
    for command in commands {
        answers.push_reserved(state.carry_out(command.as_ref()));
    }
    Ok(answers)
}
