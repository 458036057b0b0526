//! The loop of a line program: a line, its answer, and what is written.
ghost use Rattle.std.specs.Prelude.{◌≡◌, IfErr};
ghost use Rattle.calc_lines.specs.Runs.{Ran};
ghost use Rattle.calc_lines.specs.Written.{AnswersLine};

use crate::input::next_line;
use crate::output::put;
use crate::{RunFault, Session};
use std::alloc::Global;
use std::io::{BufRead, Write};
use std::str;

/// Writes the session's answer to a line that is not empty.
fn answer_line<W: Write, S: Session>(
    line: &str,
    writer: &mut W,
    session: &mut S,
) -> Result<(), RunFault>
    ensures answered { AnswersLine S.answers S.refuses line.now
        (W.contents writer.old) (W.contents writer.new) session.old session.new result }
    ensures fault { IfErr result (λ fault. fault ≡ RunFault.Write) }
{
    if line.is_empty() {
        return Ok(());
    }
    match session.answer(line) {
        Ok(text) => put(writer, text.as_bytes()),
        Err(_) => put(writer, b"out of memory\n"),
    }
}

/// The loop of a line program: reads each line, asks the session, and writes its answer, until the input ends.
///
/// Empty lines are skipped. If the session fails, the loop writes `out of memory` and goes on. It holds one line at a
/// time.
pub fn run<R: BufRead, W: Write, S: Session>(
    alloc: Global,
    reader: &mut R,
    writer: &mut W,
    session: &mut S,
) -> Result<(), RunFault>
    ensures { Ran S.answers S.refuses (R.remaining reader.old) (R.remaining reader.new)
        (W.contents writer.old) (W.contents writer.new) session.old session.new result }
{
    let mut line = Vec::new(alloc);
    for _ in 0..u64::MAX {
        let is_there = next_line(reader, &mut line)?;
        if !is_there {
            return Ok(());
        }
        let Ok(text) = str::from_utf8(line.as_slice()) else {
            return Err(RunFault::NotText);
        };
        answer_line(text, writer, session)?;
    }
    Err(RunFault::Read)
}
