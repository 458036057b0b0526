//! The program `site`: builds a folder of pages, once or whenever they change.
#![tactic(auto)]

mod builder;
mod command;
mod folder;
mod follow;
mod output;

use anyhow::{Context, Error, Result};
use clap::error::ErrorKind;
use command::{Request, Work};
use std::alloc::AllocError;
use std::process::ExitCode;
use std::rt::Runtime;
use std::sync::Wait;
use std::thread::Threads;

/// Does what the words ask. Fails if they cannot be read, or the help not be printed.
fn run<R: Runtime + AllocGlobal + Threads + Wait + Sync>(rt: &R) -> Result<u8> {
    let words: Vec<String> = std::env::args(rt)?.collect(rt.alloc())?;
    let matches = match command::command(rt.alloc())?.try_get_matches_from(words.as_slice()) {
        Ok(matches) => matches,
        Err(error) => {
            if error.kind() == ErrorKind::OutOfMemory {
                return Err(Error::from(AllocError));
            }
            error.print(rt).context("the help")?;
            return Ok(if error.exit_code() == 0 { 0 } else { 2 });
        }
    };
    let Some(request) = Request::of(&matches) else {
        return Ok(2);
    };
    match request.work {
        Work::Build => builder::build(rt, request),
        Work::Watch { explains, rounds } => follow::watch(rt, request, explains, rounds),
    }
}

fn main(rt: HostRuntime) -> ExitCode {
    match run(&rt) {
        Ok(status) => ExitCode::from(status),
        Err(error) => {
            let _ = eprintln!(rt; "site: {error:#}");
            ExitCode::from(1)
        }
    }
}
