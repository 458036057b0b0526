//! Writing what a line prints, and a message.
ghost use Rattle.std.specs.Prelude.{◌≡◌, ℕ, ◌<◌, ◌≤◌, length, take, ◌++◌, IfOk, IfErr, OnOk, MatchResult};
ghost use Rattle.std.specs.Io.KnownBytes.{Appends, WriteAppends};
ghost use Rattle.calc_lines.specs.Written.{WritesBeginning};
ghost use Rattle.calc_lines.specs.Started.{WritesPrefix};

use crate::RunFault;
use std::io::{ErrorKind, Write};

/// Writes some of the bytes, and returns how many. Retries when a signal interrupts. On error nothing is written.
fn write_some<W: Write>(writer: &mut W, bytes: &[u8]) -> Result<usize, RunFault>
    ensures bound { IfOk result (λ count. (0 < count) × (count ≤ length bytes.now)) }
    ensures bytes { WriteAppends (W.contents writer.old) (W.contents writer.new) result bytes.now }
    ensures fault { IfErr result (λ fault. fault ≡ RunFault.Write) }
{
    for _ in 0..u64::MAX {
        match writer.write(bytes) {
            Ok(0) => return Err(RunFault::Write),
            Ok(count) => return Ok(count),
            Err(error) => {
                if error.kind() != ErrorKind::Interrupted {
                    return Err(RunFault::Write);
                }
            }
        }
    }
    Err(RunFault::Write)
}

/// Writes all the bytes. On error a proper prefix is written.
pub(crate) fn put<W: Write>(writer: &mut W, bytes: &[u8]) -> Result<(), RunFault>
    ensures written { MatchResult result
        (λ _. Appends (W.contents writer.old) (W.contents writer.new) bytes.now)
        (λ _. WritesBeginning (W.contents writer.old) (W.contents writer.new) bytes.now) }
    ensures fault { IfErr result (λ fault. fault ≡ RunFault.Write) }
{
    let mut rest = bytes;
    while !rest.is_empty() {
        let count = write_some(writer, rest)?;
        rest = &rest[count..];
    }
    Ok(())
}

/// Writes a message in three parts, without allocating. On error a prefix is written.
pub fn put_message<W: Write>(
    writer: &mut W,
    prefix: &str,
    name: &str,
    end: &str,
) -> Result<(), RunFault>
    ensures whole { OnOk result (Appends (W.contents writer.old) (W.contents writer.new)
        (prefix.now ++ name.now ++ end.now)) }
    ensures prefix { WritesPrefix (W.contents writer.old) (W.contents writer.new)
        (prefix.now ++ name.now ++ end.now) }
    ensures fault { IfErr result (λ fault. fault ≡ RunFault.Write) }
{
    put(writer, prefix.as_bytes())?;
    put(writer, name.as_bytes())?;
    put(writer, end.as_bytes())
}
