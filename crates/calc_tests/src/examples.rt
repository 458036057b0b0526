//! The examples at the heads of the crates and modules that the program is made of.
use crate::files::is_put;
use calc_core::commands::{Answer, Command};
use calc_core::evaluation::{Eval, evaluate};
use calc_core::files::{FileSize, Files, size};
use calc_core::scripts::{CalcFault, Outcome, Part, Parts, Total};
use calc_core::sessions::{run, start};
use calc_lines::Session;
use comemo::{CacheData, How, Top, Track};
use std::alloc::{AllocError, Global};
use std::slice;
use std::test::Fail;

/// Answers each line with itself.
#[derive(Drop)]
struct Echo {
    alloc: Global,
}

impl Session for Echo {
    ghost answers = { λ _ _ _ _. Unit {0} };

    ghost refuses = { λ _ _ _. Unit {0} };

    fn answer(&mut self, line: &str) -> Result<String, AllocError> {
        format!(in self.alloc; "{line}\n")
    }
}

/// Whether a line loop prints each line.
fn is_echoed(alloc: Global) -> bool {
    let mut printed: Vec<u8> = Vec::new(alloc);
    let mut input = "a\n\nb".as_bytes();
    let is_well = calc_lines::run(alloc, &mut input, &mut printed, &mut Echo { alloc }).is_ok();
    is_well && printed.as_slice() == b"a\nb\n".as_slice()
}

#[test]
fn of_calc_lines(rt: HostRuntime) {
    assert!(rt; is_echoed(rt.alloc()));
}

#[test]
fn of_scripts(rt: HostRuntime) {
    let mut parts = Parts::new("-7 + eval a");
    let is_number = parts.next() == Some(Part::Number(-7));
    let is_call = parts.next() == Some(Part::Eval("a"));
    let is_end = parts.next() == None;
    assert!(rt; is_number && is_call && is_end);

    let mut total = Total::new();
    let most = Outcome {
        value: Ok(i32::MAX),
        height: 1,
    };
    let is_added = total.add(most) == Ok(());
    let is_refused = total.add(most) == Err(CalcFault::Overflow);
    assert!(rt; is_added && is_refused);
}

/// Whether a line asks for a write of this text to this path.
fn asks_for_write(alloc: Global, line: &str, path: &str, text: &str) -> bool {
    match Command::parse(alloc, line) {
        Ok(Some(Command::Write(at, what))) => at.as_str() == path && what.as_str() == text,
        _ => false,
    }
}

/// Whether a line asks for nothing.
fn asks_for_nothing(alloc: Global, line: &str) -> bool {
    matches!(Command::parse(alloc, line), Ok(None))
}

/// Whether an answer prints so.
fn prints(alloc: Global, answer: Answer, want: &str) -> bool {
    match answer.text(alloc) {
        Ok(text) => text.as_str() == want,
        Err(_) => false,
    }
}

#[test]
fn of_commands(rt: HostRuntime) {
    let alloc = rt.alloc();
    assert!(rt; asks_for_write(alloc, "write a 1 + 2", "a", "1 + 2"));
    assert!(rt; asks_for_nothing(alloc, "help"));

    let answer = Answer::Size {
        hit: true,
        bytes: 5,
    };
    assert!(rt; prints(alloc, answer, "hit 5\n"));
}

/// Whether the size of the file `a` is 5, and comes this way.
fn is_five(alloc: Global, sizes: &mut CacheData<FileSize>, files: &Files, how: How) -> bool {
    match size(alloc, sizes, &files.view(alloc), "a", &mut Top::new()) {
        Ok(reply) => reply.output == 5 && reply.how == how,
        Err(_) => false,
    }
}

#[test]
fn of_files(rt: HostRuntime) {
    let alloc = rt.alloc();
    let mut files = Files::new(alloc);
    assert!(rt; is_put(alloc, &mut files, "a", "hello"));
    let mut sizes = CacheData::new(alloc);
    assert!(rt; is_five(alloc, &mut sizes, &files, How::Stored));

    assert!(rt; is_put(alloc, &mut files, "b", "other"));
    assert!(rt; is_five(alloc, &mut sizes, &files, How::Hit));
}

/// Whether a script is 3 under a limit of 8, with this height, and comes this way.
fn is_three(
    alloc: Global,
    cache: &mut CacheData<Eval>,
    files: &Files,
    script: &str,
    height: u64,
    how: How,
) -> bool {
    match evaluate(alloc, cache, &files.view(alloc), script, 8, &mut Top::new()) {
        Ok(reply) => {
            reply.output.value == Ok(3) && reply.output.height == height && reply.how == how
        }
        Err(_) => false,
    }
}

#[test]
fn of_evaluation(rt: HostRuntime) {
    let alloc = rt.alloc();
    let mut files = Files::new(alloc);
    assert!(rt; is_put(alloc, &mut files, "a", "1 + eval b"));
    assert!(rt; is_put(alloc, &mut files, "b", "2"));
    let mut cache = CacheData::new(alloc);
    assert!(rt; is_three(alloc, &mut cache, &files, "eval a", 3, How::Stored));

    // What the run called is stored too.
    assert!(rt; is_three(alloc, &mut cache, &files, "1 + eval b", 2, How::Hit));
}

/// The lines of a session.
const LINES: &str = "write a 1 + eval b\nwrite b 2\neval eval a\nwrite c 7\neval eval a\n";

/// Whether a session over `LINES` prints its answers.
fn is_answered(alloc: Global) -> bool {
    let mut printed: Vec<u8> = Vec::new(alloc);
    let mut input = LINES.as_bytes();
    let is_well = run(alloc, &mut input, &mut printed).is_ok();
    is_well && printed.as_slice() == b"miss 3\nhit 3\n".as_slice()
}

/// Whether the whole program, which takes no words after its name, refuses these.
fn is_refused(alloc: Global, words: &[String]) -> bool {
    let mut printed: Vec<u8> = Vec::new(alloc);
    let mut errors: Vec<u8> = Vec::new(alloc);
    let mut input = LINES.as_bytes();
    let status = start(alloc, words, &mut input, &mut printed, &mut errors);
    status == 2 && errors.as_slice() == b"usage: calc\n".as_slice()
}

#[test]
fn of_sessions(rt: HostRuntime) -> Result<(), Fail> {
    let alloc = rt.alloc();
    assert!(rt; is_answered(alloc));

    let word = String::from_str(alloc, "help")?;
    assert!(rt; is_refused(alloc, slice::from_ref(&word)));
    Ok(())
}
