//! The output of the program of the rows, and its status.

use bench_rows::{Broken, Outcome, run_rows, start};
use std::alloc::{AllocError, Global};
use std::io::{Error, ErrorKind, Result as IoResult, Write};
use std::rt::Clock;
use std::sync::Wait;
use std::thread::Threads;

/// Takes as many bytes as it has room for, and then fails.
#[derive(Drop)]
struct Full {
    taken: Vec<u8>,
    room: usize,
}

impl Write for Full {
    fn write(&mut self, buf: &[u8]) -> IoResult<usize> {
        let count = buf.len().min(self.room);
        if count == 0 {
            return Err(Error::from(ErrorKind::StorageFull));
        }
        self.taken.extend_from_slice(&buf[..count])?;
        self.room -= count;
        Ok(count)
    }

    fn flush(&mut self) -> IoResult<()> {
        Ok(())
    }
}

/// The words, each as a text of its own.
fn owned(alloc: Global, words: &[&str]) -> Result<Vec<String>, AllocError> {
    let mut owned = Vec::new(alloc);
    for word in words {
        owned.push(String::from_str(alloc, *word)?)?;
    }
    Ok(owned)
}

/// Whether the program with these words, and with this room for its output and its errors, has this status, this output
/// and these errors.
fn runs<R: Threads + Wait + Clock + Sync>(
    rt: &R,
    alloc: Global,
    words: &[&str],
    room: usize,
    status: u8,
    (printed, said): (&str, &str),
) -> bool {
    let Ok(words) = owned(alloc, words) else {
        return false;
    };
    let taken = Vec::new(alloc);
    let mut writer = Full { taken, room };
    let taken = Vec::new(alloc);
    let mut errors = Full { taken, room };
    let is_status = start(rt, alloc, words.as_slice(), &mut writer, &mut errors) == status;
    let is_printed = writer.taken.as_slice() == printed.as_bytes();
    let is_said = errors.taken.as_slice() == said.as_bytes();
    is_status && is_printed && is_said
}

/// Whether the first row that fails, with this result, is named, and no other.
fn names_the_first(alloc: Global, wrong: Result<bool, Broken>) -> bool {
    let mut rows = Outcome::new();
    rows.row("1", Ok(true));
    rows.row("13", wrong);
    rows.row("14", Ok(false));
    rows.row("16", Err(Broken));
    rows.row("17", Ok(true));
    let mut printed: Vec<u8> = Vec::new(alloc);
    let status = rows.report(&mut printed);
    status == 1 && printed.as_slice() == b"row 13 failed\n".as_slice()
}

#[test]
fn the_first_row_that_fails_is_named(rt: HostRuntime) {
    let alloc = rt.alloc();
    assert!(rt; names_the_first(alloc, Ok(false)));
    assert!(rt; names_the_first(alloc, Err(Broken)));
}

#[test]
fn a_row_that_fails_after_the_others_is_named(rt: HostRuntime) {
    let alloc = rt.alloc();
    let mut rows = run_rows(&rt, alloc);
    rows.row("26", Ok(false));
    let mut printed: Vec<u8> = Vec::new(alloc);
    let status = rows.report(&mut printed);
    let is_named = printed.as_slice() == b"row 26 failed\n".as_slice();
    assert!(rt; status == 1 && is_named);
}

#[test]
fn fuzz_and_threads_end_well(rt: HostRuntime) {
    let calls: &[(&[&str], &str)] = &[
        // A cache and a plain list give the same answers.
        (&["fuzz", "1", "10000"], "fuzz ok\n"),
        (&["fuzz", "2", "10000"], "fuzz ok\n"),
        (&["fuzz", "18446744073709551615", "0010"], "fuzz ok\n"),
        (&["fuzz", "0", "0"], "fuzz ok\n"),
        // The workers' outputs are right.
        (&["threads", "1", "0"], "threads ok\n"),
        (&["threads", "8", "1000"], "threads ok\n"),
        (&["threads", "16", "2000"], "threads ok\n"),
        (&["threads", "016", "1"], "threads ok\n"),
    ];
    for (call, printed) in calls {
        assert!(rt; runs(&rt, rt.alloc(), *call, 99, 0, (*printed, "")));
    }
}

/// The program's usage.
const USAGE: &str = "usage: bench rows | fuzz SEED STEPS | threads WORKERS CALLS\n";

#[test]
fn other_words_are_told_how_to_call(rt: HostRuntime) {
    let calls: &[&[&str]] = &[
        &[],
        &["row"],
        &["rows "],
        &["rows", "rows"],
        &[""],
        &["fuzz"],
        &["fuzz", "1"],
        &["fuzz", "1", "2", "3"],
        &["fuzz", "+1", "2"],
        &["fuzz", "1", "-2"],
        &["fuzz", "", "2"],
        &["fuzz", "1", " 2"],
        &["fuzz", "18446744073709551616", "2"],
        &["fuzz", "1", "4294967296"],
        &["threads", "1"],
        &["threads", "0", "2"],
        &["threads", "17", "2"],
        &["threads", "+1", "2"],
        &["threads", "1", "4294967296"],
        &["threads", "1", "2", "3"],
    ];
    for call in calls {
        assert!(rt; runs(&rt, rt.alloc(), *call, 99, 2, ("", USAGE)));
    }
}

#[test]
fn a_failure_to_write_changes_no_status(rt: HostRuntime) {
    let alloc = rt.alloc();
    assert!(rt; runs(&rt, alloc, &["rows"], 3, 0, ("row", "")));
    assert!(rt; runs(&rt, alloc, &["rows", "rows"], 3, 2, ("", "usa")));
}
