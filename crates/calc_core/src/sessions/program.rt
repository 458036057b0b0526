//! The program: lines in, lines out.
//!
//! | Line | Prints |
//! |---|---|
//! | `write PATH TEXT`, `evict N` | nothing |
//! | `eval SCRIPT` | `miss V` or `hit V`: V is a number, `not a number` or `overflow`; or `too deep` |
//! | `size PATH` | `miss N` or `hit N`, where N is the file's length in bytes |
//! | an empty line | nothing |
//! | any other | `bad command` |
//!
//! If memory runs out, a line prints `out of memory` instead.
ghost use Rattle.std.specs.Prelude.{◌≡◌, ◌<◌, ℕ, List, [], codes, length, Option};
ghost use Rattle.calc_lines.specs.Runs.{Ran};
ghost use Rattle.calc_lines.specs.Started.{RanAs, WritesPrefix, usage_of};
ghost use Rattle.calc_core.specs.Files.{Texts};
ghost use Rattle.calc_core.specs.Sessions.{texts_in, Prints, Refuses};

use crate::commands::CommandRef;
use crate::sessions::State;
use calc_lines::{RunFault, Session};
use std::alloc::{AllocError, Global};
use std::io::{BufRead, Write};

impl Session for State {
    ghost answers = { λ s line text t. Prints (texts_in s) line text (texts_in t) };

    ghost refuses = { λ s line t. Refuses (texts_in s) line (texts_in t) };

    fn answer(&mut self, line: &str) -> Result<String, AllocError> {
        match CommandRef::parse(line) {
            Some(command) => self.carry_out(command).text(self.alloc),
            None => String::from_str(self.alloc, "bad command\n"),
        }
    }
}

/// Reads lines, carries out the command of each, and writes the answer, until the input ends.
///
/// The session begins without files. Faults and line ends are those of `calc_lines::run`.
pub fn run<R: BufRead, W: Write>(
    alloc: Global,
    reader: &mut R,
    writer: &mut W,
) -> Result<(), RunFault>
    ensures { (before after : Texts) × ((path : List ℕ) → before path ≡ [])
        × Ran Prints Refuses (R.remaining reader.old) (R.remaining reader.new)
        (W.contents writer.old) (W.contents writer.new) before after result }
{
    calc_lines::run(alloc, reader, writer, &mut State::new(alloc))
}

/// The whole program without its streams: `run`, and the exit status, as `calc_lines::start`. `words` are the arguments
/// after its name.
pub fn start<R: BufRead, W: Write, E: Write>(
    alloc: Global,
    words: &[String],
    reader: &mut R,
    writer: &mut W,
    errors: &mut E,
) -> u8
    ensures ran { length words.now ≡ 0
        → (before after : Texts) × ((path : List ℕ) → before path ≡ [])
        × RanAs Prints Refuses (codes "calc") (R.remaining reader.old) (R.remaining reader.new)
        (W.contents writer.old) (W.contents writer.new)
        (E.contents errors.old) (E.contents errors.new) before after result }
    ensures usage { 0 < length words.now → result ≡ 2 }
    ensures usage_written { 0 < length words.now
        → WritesPrefix (E.contents errors.old) (E.contents errors.new) (usage_of (codes "calc")) }
    ensures usage_keeps_reader { 0 < length words.now → reader.new ≡ reader.old }
    ensures usage_keeps_writer { 0 < length words.now → writer.new ≡ writer.old }
{
    let mut state = State::new(alloc);
    calc_lines::start(alloc, "calc", words, reader, writer, errors, &mut state)
}
