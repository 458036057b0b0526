//! The program `lang`: checks the modules of a folder, once or whenever they change.
//!
//! | Words | What it does |
//! |---|---|
//! | `check FOLDER` | prints what is wrong; the status is 1 if anything is |
//! | `watch FOLDER` | looks once a second, and prints what is wrong after a change |
//! | `watch FOLDER --explain` | prints also which calls ran and why, and which were hits |
//!
//! A module is a file whose name ends in `.mod`.
#![tactic(auto)]

mod folder;
mod session;

use anyhow::Result;
use session::Session;
use std::process::ExitCode;
use std::rt::Runtime;
use std::sync::Wait;
use std::thread;
use std::time::Duration;

/// How many seconds pass between two looks at the folder.
const PAUSE: u64 = 1;

/// What is printed if the words can't be read.
const USAGE: &str = "lang check FOLDER, or lang watch FOLDER [--explain]";

/// Checks a folder whenever it changes.
fn watch<R: Runtime + AllocGlobal + Wait>(rt: &R, folder: &str, explains: bool) -> Result<()> {
    let mut session = Session::new(rt.alloc(), explains);
    for _ in 0..u64::MAX {
        match session.update(rt, folder) {
            Ok(true) => {
                session.check(rt)?;
            }
            Ok(false) => {}
            // A file may be gone before it is read. The next look tries again.
            Err(error) => eprintln!(rt; "lang: {error:#}")?,
        }
        thread::sleep(rt, Duration::from_secs(PAUSE));
    }
    Ok(())
}

/// Does what the words ask, and gives the status.
fn run<R: Runtime + AllocGlobal + Wait>(rt: &R) -> Result<u8> {
    let words: Vec<String> = std::env::args(rt)?.collect(rt.alloc())?;
    match words.as_slice() {
        [_, command, folder] if command.as_str() == "check" => {
            let mut session = Session::new(rt.alloc(), false);
            session.update(rt, folder.as_str())?;
            let count = session.check(rt)?;
            Ok(if count == 0 { 0 } else { 1 })
        }
        [_, command, folder] if command.as_str() == "watch" => {
            watch(rt, folder.as_str(), false)?;
            Ok(0)
        }
        [_, command, folder, flag] if command.as_str() == "watch" && flag.as_str() == "--explain" =>
            {
                watch(rt, folder.as_str(), true)?;
                Ok(0)
            }
        _ => {
            eprintln!(rt; "{USAGE}")?;
            Ok(2)
        }
    }
}

fn main(rt: HostRuntime) -> ExitCode {
    match run(&rt) {
        Ok(status) => ExitCode::from(status),
        Err(error) => {
            let _ = eprintln!(rt; "lang: {error:#}");
            ExitCode::from(1)
        }
    }
}
