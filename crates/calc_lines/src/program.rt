//! A line program but for its streams: its words, its status and its message.
ghost use Rattle.std.specs.Prelude.{◌≡◌, ℕ, ◌<◌, length};
ghost use Rattle.calc_lines.specs.Started.{WritesPrefix, RanAs, fault_text, usage_of};

use crate::{RunFault, Session, put_message, run};
use std::alloc::Global;
use std::io::{BufRead, Write};

/// The text of a fault's message, after the program's name.
fn message_end(fault: RunFault) -> &'static str
    ensures { result.now ≡ fault_text fault }
{
    match fault {
        RunFault::Read => ": cannot read\n",
        RunFault::Write => ": cannot write\n",
        RunFault::Memory => ": out of memory\n",
        RunFault::NotText => ": not UTF-8\n",
    }
}

/// A whole line program without its streams: runs the session on the reader's lines, and returns the exit status.
///
/// With any arguments it only writes its usage to `errors`; the status is 2. Otherwise it is 0, or 1 after a fault, which
/// is written to `errors`.
pub fn start<R: BufRead, W: Write, E: Write, S: Session>(
    alloc: Global,
    name: &str,
    words: &[String],
    reader: &mut R,
    writer: &mut W,
    errors: &mut E,
    session: &mut S,
) -> u8
    ensures ran { length words.now ≡ 0 → RanAs S.answers S.refuses name.now
        (R.remaining reader.old) (R.remaining reader.new) (W.contents writer.old) (W.contents writer.new)
        (E.contents errors.old) (E.contents errors.new) session.old session.new result }
    ensures usage { 0 < length words.now → result ≡ 2 }
    ensures usage_written { 0 < length words.now
        → WritesPrefix (E.contents errors.old) (E.contents errors.new) (usage_of name.now) }
    ensures usage_keeps_reader { 0 < length words.now → reader.new ≡ reader.old }
    ensures usage_keeps_writer { 0 < length words.now → writer.new ≡ writer.old }
    ensures usage_keeps_session { 0 < length words.now → session.new ≡ session.old }
{
    if !words.is_empty() {
        let _ = put_message(errors, "usage: ", name, "\n");
        return 2;
    }
    match run(alloc, reader, writer, session) {
        Ok(()) => 0,
        Err(fault) => {
            let _ = put_message(errors, "", name, message_end(fault));
            1
        }
    }
}
