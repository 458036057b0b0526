//! The line loop: which lines it asks, what it writes, and what holds after each fault.
use calc_lines::{RunFault, Session, run, start};
use std::alloc::{AllocError, Global};
use std::io::{BufReader, Error, ErrorKind, Read, Result as IoResult, Write};
use std::slice;
use std::test::Fail;

/// Answers `>LINE` for each line, prints nothing for `quiet`, and is out of memory for `large`.
#[derive(Drop)]
struct Echo {
    alloc: Global,
    asked: u8,
}

impl Echo {
    fn new(alloc: Global) -> Echo {
        Echo { alloc, asked: 0 }
    }
}

impl Session for Echo {
    ghost answers = { λ _ _ _ _. Unit {0} };

    ghost refuses = { λ _ _ _. Unit {0} };

    fn answer(&mut self, line: &str) -> Result<String, AllocError> {
        self.asked = self.asked.saturating_add(1);
        match line {
            "quiet" => Ok(String::new(self.alloc)),
            "large" => Err(AllocError),
            _ => format!(in self.alloc; ">{line}\n"),
        }
    }
}

/// Returns its first bytes, fails once in this way, and then returns the others.
#[derive(Drop)]
struct Torn<'a> {
    front: &'a [u8],
    fault: Option<ErrorKind>,
    back: &'a [u8],
}

impl Read for Torn<'_> {
    fn read(&mut self, buf: &mut [u8]) -> IoResult<usize> {
        if !self.front.is_empty() {
            return self.front.read(buf);
        }
        match self.fault.take() {
            Some(kind) => Err(Error::from(kind)),
            None => self.back.read(buf),
        }
    }
}

/// Takes as many bytes as it has room for, and then fails, or takes none if that is wanted.
#[derive(Drop)]
struct Full {
    taken: Vec<u8>,
    room: usize,
    fails: bool,
}

impl Write for Full {
    fn write(&mut self, buf: &[u8]) -> IoResult<usize> {
        let count = buf.len().min(self.room);
        if count == 0 && self.fails {
            return Err(Error::from(ErrorKind::StorageFull));
        }
        self.taken.extend_from_slice(&buf[..count])?;
        self.room -= count;
        Ok(count)
    }

    fn flush(&mut self) -> IoResult<()> {
        Ok(())
    }
}

/// Takes one byte at a time, and before each is interrupted by a signal.
#[derive(Drop)]
struct Slow {
    taken: Vec<u8>,
    is_ready: bool,
}

impl Write for Slow {
    fn write(&mut self, buf: &[u8]) -> IoResult<usize> {
        self.is_ready = !self.is_ready;
        if !self.is_ready {
            return Err(Error::from(ErrorKind::Interrupted));
        }
        let Some(byte) = buf.first() else {
            return Ok(0);
        };
        self.taken.push(*byte)?;
        Ok(1)
    }

    fn flush(&mut self) -> IoResult<()> {
        Ok(())
    }
}

/// How a run ended, what it wrote, what it left of its input, and how many lines it asked.
#[derive(Clone, Copy)]
struct Ran<'a> {
    ended: Result<(), RunFault>,
    wrote: &'a str,
    left: &'a [u8],
    asked: u8,
}

/// Whether a run over these bytes, with a writer of this room, ends so.
fn runs(alloc: Global, input: &[u8], room: usize, fails: bool, want: Ran<'_>) -> bool {
    let taken = Vec::new(alloc);
    let mut full = Full { taken, room, fails };
    let mut echo = Echo::new(alloc);
    let mut input = input;
    let is_ended = run(alloc, &mut input, &mut full, &mut echo) == want.ended;
    let is_written = full.taken.as_slice() == want.wrote.as_bytes();
    is_ended && is_written && input == want.left && echo.asked == want.asked
}

#[test]
fn answers_each_line(rt: HostRuntime) {
    let alloc = rt.alloc();
    let cases: &[(&[u8], &str, u8)] = &[
        (b"a\n\nb", ">a\n>b\n", 2),
        (b"a\r\n\nb", ">a\n>b\n", 2),
        (b"", "", 0),
        (b"\n\n\r\n\n", "", 0),
        (b"a\nb", ">a\n>b\n", 2),
        (b"a\nb\n", ">a\n>b\n", 2),
        (b"a\r", ">a\r\n", 1),
        (b"\r", ">\r\n", 1),
        (b"a\r\r\n", ">a\r\n", 1),
        (b"a\rb\n", ">a\rb\n", 1),
        (b"quiet\na\n", ">a\n", 2),
        (b"a\nlarge\nb\n", ">a\nout of memory\n>b\n", 3),
    ];
    for (input, wrote, asked) in cases {
        let want = Ran {
            ended: Ok(()),
            wrote: *wrote,
            left: b"",
            asked: *asked,
        };
        assert!(rt; runs(alloc, *input, 99, true, want), "for {input:?}");
    }
}

#[test]
fn a_failed_write_or_a_line_that_is_no_text_ends_the_run(rt: HostRuntime) {
    let alloc = rt.alloc();
    let cases: &[(&[u8], usize, bool, RunFault, &str)] = &[
        (b"a\nb\nc\n", 3, true, RunFault::Write, ">a\n"),
        (b"a\nb\nc\n", 5, true, RunFault::Write, ">a\n>b"),
        (b"a\nb\nc\n", 3, false, RunFault::Write, ">a\n"),
        (b"a\nb\n\xff\nc\n", 99, true, RunFault::NotText, ">a\n>b\n"),
    ];
    for (input, room, fails, fault, wrote) in cases {
        let want = Ran {
            ended: Err(*fault),
            wrote: *wrote,
            left: b"c\n",
            asked: 2,
        };
        let is_so = runs(alloc, *input, *room, *fails, want);
        assert!(rt; is_so, "for {fault:?} at {room}");
    }
}

/// Whether a run over an input that fails once in this way ends with this fault, and a second run answers everything
/// after the lost line.
fn loses_one(alloc: Global, kind: ErrorKind, fault: RunFault) -> bool {
    let torn = Torn {
        front: b"a\nquiet\nb\nlo",
        fault: Some(kind),
        back: b"st\nc\n",
    };
    let Ok(mut reader) = BufReader::new(alloc, torn) else {
        return false;
    };
    let taken = Vec::new(alloc);
    let mut full = Full {
        taken,
        room: 99,
        fails: true,
    };
    let mut echo = Echo::new(alloc);
    let is_fault = run(alloc, &mut reader, &mut full, &mut echo) == Err(fault);
    let is_begun = full.taken.as_slice() == b">a\n>b\n".as_slice();
    let are_three = echo.asked == 3;
    let is_well = run(alloc, &mut reader, &mut full, &mut echo) == Ok(());
    let is_whole = full.taken.as_slice() == b">a\n>b\n>st\n>c\n".as_slice();
    is_fault && is_begun && are_three && is_well && is_whole
}

#[test]
fn a_failed_read_ends_the_run_and_loses_one_line(rt: HostRuntime) {
    let alloc = rt.alloc();
    let cases: &[(ErrorKind, RunFault)] = &[
        (ErrorKind::Other, RunFault::Read),
        (ErrorKind::InvalidData, RunFault::Read),
        (ErrorKind::OutOfMemory, RunFault::Memory),
    ];
    for (kind, fault) in cases {
        assert!(rt; loses_one(alloc, *kind, *fault), "for {fault:?}");
    }
}

#[test]
fn a_slow_writer_gets_all(rt: HostRuntime) {
    let alloc = rt.alloc();
    let taken = Vec::new(alloc);
    let mut slow = Slow {
        taken,
        is_ready: true,
    };
    let mut echo = Echo::new(alloc);
    let mut input = b"a\nlarge\n".as_slice();
    let is_well = run(alloc, &mut input, &mut slow, &mut echo) == Ok(());
    let is_whole = slow.taken.as_slice() == b">a\nout of memory\n".as_slice();
    assert!(rt; is_well && is_whole);
}

/// Whether a program with these words, over an input that fails in this way, if any, and with writers of this room for
/// its output and its errors, has this status, and wrote these texts.
fn starts(
    alloc: Global,
    words: &[String],
    (input, fault): (&[u8], Option<ErrorKind>),
    (room, errors_room): (usize, usize),
    (want, wrote, said): (u8, &str, &str),
) -> bool {
    let torn = Torn {
        front: input,
        fault,
        back: b"",
    };
    let Ok(mut reader) = BufReader::new(alloc, torn) else {
        return false;
    };
    let fails = true;
    let taken = Vec::new(alloc);
    let mut full = Full { taken, room, fails };
    let taken = Vec::new(alloc);
    let mut errors = Full {
        taken,
        room: errors_room,
        fails,
    };
    let mut echo = Echo::new(alloc);
    let status = start(
        alloc,
        "echo",
        words,
        &mut reader,
        &mut full,
        &mut errors,
        &mut echo,
    );
    let is_written = full.taken.as_slice() == wrote.as_bytes();
    let is_said = errors.taken.as_slice() == said.as_bytes();
    status == want && is_written && is_said
}

#[test]
fn starts_and_says_what_failed(rt: HostRuntime) -> Result<(), Fail> {
    let alloc = rt.alloc();
    let other = Some(ErrorKind::Other);
    let memory = Some(ErrorKind::OutOfMemory);
    let end = Some(ErrorKind::UnexpectedEof);
    let cases: &[(&[u8], Option<ErrorKind>, usize, usize, u8, &str, &str)] = &[
        (b"a\n", None, 9, 99, 0, ">a\n", ""),
        (b"a\n\xff\n", None, 9, 99, 1, ">a\n", "echo: not UTF-8\n"),
        (b"a\n", other, 9, 99, 1, ">a\n", "echo: cannot read\n"),
        (b"a\n", memory, 9, 99, 1, ">a\n", "echo: out of memory\n"),
        (b"a\n", None, 2, 99, 1, ">a", "echo: cannot write\n"),
        (b"", end, 9, 99, 1, "", "echo: cannot read\n"),
        // A failure to write errors changes no status.
        (b"\xff", None, 9, 3, 1, "", "ech"),
    ];
    for (input, fault, room, errors_room, status, wrote, said) in cases {
        let rooms = (*room, *errors_room);
        let want = (*status, *wrote, *said);
        let is_so = starts(alloc, &[], (*input, *fault), rooms, want);
        assert!(rt; is_so, "for {said}");
    }
    let word = String::from_str(alloc, "a")?;
    let words = slice::from_ref(&word);
    let usages: &[(usize, &str)] = &[(99, "usage: echo\n"), (3, "usa")];
    for (errors_room, said) in usages {
        let usage = (2, "", *said);
        let is_so = starts(alloc, words, (b"a\n", None), (9, *errors_room), usage);
        assert!(rt; is_so, "for {said}");
    }
    Ok(())
}
