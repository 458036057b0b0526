//! Reading a line.
ghost use Rattle.std.specs.Prelude.{◌≡◌, ◌≢◌, [], ◌∷◌, IfOk, IfErr, OnErr, IsTrue, not};
ghost use Rattle.std.specs.Io.BufRead.{ends_with_byte};
ghost use Rattle.calc_lines.specs.Lines.{without_line_end, TakesLines, BeginsLine, MeetsEnd, IsReadFault};

use crate::RunFault;
use std::io::{BufRead, ErrorKind};

/// The fault of a line that could not be read.
fn fault_of(kind: ErrorKind) -> RunFault
    ensures memory { kind ≡ ErrorKind.OutOfMemory → result ≡ RunFault.Memory }
    ensures device { kind ≢ ErrorKind.OutOfMemory → result ≡ RunFault.Read }
{
    match kind {
        ErrorKind::OutOfMemory => RunFault::Memory,
        _ => RunFault::Read,
    }
}

/// Whether the line ends with a line feed.
fn is_ended(line: &[u8]) -> bool
    ensures { result ≡ ends_with_byte 10 line.now }
{
    line.last() == Some(&b'\n')
}

/// Removes the line feed at the end, and then a carriage return before it.
fn drop_line_end(line: &mut Vec<u8>)
    ensures { line.new.items ≡ without_line_end line.old.items }
{
    if is_ended(line.as_slice()) {
        line.pop();
        if line.last() == Some(&b'\r') {
            line.pop();
        }
    }
}

/// Reads the next line, without its end, into the buffer of an earlier one; false at the end of the input.
pub(crate) fn next_line<R: BufRead>(reader: &mut R, line: &mut Vec<u8>) -> Result<bool, RunFault>
    ensures line { IfOk result (λ more. IsTrue more → TakesLines (R.remaining reader.old)
        (line.new.items ∷ []) (R.remaining reader.new)) }
    ensures end { IfOk result (λ more. IsTrue (not more)
        → MeetsEnd (R.remaining reader.old) (R.remaining reader.new)) }
    ensures begun { OnErr result (BeginsLine (R.remaining reader.old) (R.remaining reader.new)) }
    ensures fault { IfErr result (λ fault. IsReadFault fault) }
{
    line.clear();
    match reader.read_until(b'\n', line) {
        Ok(0) => Ok(false),
        Err(error) if !is_ended(line.as_slice()) => Err(fault_of(error.kind())),
        // A whole line counts even if the read failed: the next read shows the failure.
        _ => {
            drop_line_end(line);
            Ok(true)
        }
    }
}
