//! The row of the program `calc` with failing streams.

use crate::broken::Broken;
use crate::tally::Tally;
use calc_core::sessions::run;
use calc_lines::RunFault;
use std::alloc::{AllocError, Global};
use std::io::{BufReader, Error, ErrorKind, Read, Result as IoResult, Write};

/// A reader that returns its bytes, and then fails.
#[derive(Drop)]
struct Ending<'a>(&'a [u8]);

impl Read for Ending<'_> {
    fn read(&mut self, buf: &mut [u8]) -> IoResult<usize> {
        if self.0.is_empty() {
            return Err(Error::from(ErrorKind::UnexpectedEof));
        }
        self.0.read(buf)
    }
}

/// A writer that takes as many bytes as it has room for, and then fails.
#[derive(Drop)]
struct Full {
    taken: Vec<u8>,
    room: usize,
}

impl Write for Full {
    fn write(&mut self, buf: &[u8]) -> IoResult<usize> {
        let count = buf.len().min(self.room);
        if count == 0 {
            return Err(Error::from(ErrorKind::StorageFull));
        }
        self.taken.extend_from_slice(&buf[..count])?;
        self.room -= count;
        Ok(count)
    }

    fn flush(&mut self) -> IoResult<()> {
        Ok(())
    }
}

/// How many bytes a failing writer has allocated.
const ROOM: usize = 32;

/// A writer that fails after this many bytes.
fn full_after(alloc: Global, room: usize) -> Result<Full, AllocError> {
    let mut taken = Vec::new(alloc);
    taken.reserve(ROOM)?;
    Ok(Full { taken, room })
}

/// Checks the end of a session of the line `size a` and another, which should end in a fault, and what it printed.
///
/// It may print `out of memory` for the first line instead, or run out of memory itself, and then ends earlier.
fn note_end(tally: &mut Tally, came_to: Result<(), RunFault>, fault: RunFault, written: &Full) {
    let taken = written.taken.as_slice();
    let is_answered = taken == b"miss 0\n".as_slice();
    if is_answered && came_to == Err(fault) {
        return;
    }
    tally.refuse();
    let is_full = written.room == 0 && b"out of memory\n".as_slice().starts_with(taken);
    let is_refused = is_full || taken == b"out of memory\n".as_slice();
    if came_to == Err(RunFault::Memory) {
        tally.hold(is_answered || is_refused || taken.is_empty());
    } else {
        tally.hold(is_refused && came_to == Err(fault));
    }
}

/// Checks a line that is answered before the reader fails.
fn a_reader_that_fails(alloc: Global, tally: &mut Tally) -> Result<(), Broken> {
    let mut writer = full_after(alloc, ROOM)?;
    let Ok(mut reader) = BufReader::new(alloc, Ending(b"size a\n")) else {
        return Err(Broken);
    };
    let came_to = run(alloc, &mut reader, &mut writer);
    note_end(tally, came_to, RunFault::Read, &writer);
    Ok(())
}

/// Checks a line that is answered before one that is not UTF-8.
fn a_line_that_is_no_text(alloc: Global, tally: &mut Tally) -> Result<(), Broken> {
    let mut writer = full_after(alloc, ROOM)?;
    let came_to = run(alloc, &mut b"size a\n\xff\n".as_slice(), &mut writer);
    note_end(tally, came_to, RunFault::NotText, &writer);
    Ok(())
}

/// Checks two answers: the first is written, and the writer fails at the second.
fn a_writer_that_fails(alloc: Global, tally: &mut Tally) -> Result<(), Broken> {
    let mut writer = full_after(alloc, 7)?;
    let came_to = run(alloc, &mut b"size a\nsize a\n".as_slice(), &mut writer);
    note_end(tally, came_to, RunFault::Write, &writer);
    Ok(())
}

/// Whether a failing stream, or a line that is not UTF-8, ends a run with its own fault, after all earlier answers were
/// written.
pub(crate) fn what_was_answered_was_written(alloc: Global) -> Result<bool, Broken> {
    let mut tally = Tally::new();
    let read = a_reader_that_fails(alloc, &mut tally);
    let text = a_line_that_is_no_text(alloc, &mut tally);
    let written = a_writer_that_fails(alloc, &mut tally);
    if read.is_err() || text.is_err() || written.is_err() {
        tally.refuse();
    }
    tally.came_to()
}
