//! The program `speed`: how long the library's operations take.
//!
//! Without arguments it times all workloads; with `sums` it prints what they compute, without times. The exit status is
//! 0; 1 if it runs out of memory or its output can't be written; or 2 with any other argument.
#![tactic(auto)]

mod evictions;
mod report;
mod runs;
mod sharing;
mod stopwatch;
mod sums;
mod texts;
mod workload;

use report::{Failure, write_sums, write_times};
use std::alloc::AllocError;
use std::env::Env;
use std::io::{ErrorKind, Write};
use std::process::ExitCode;
use std::{env, io};

/// The program's task.
#[derive(Clone, Copy, Debug, PartialEq, Eq)]
enum Request {
    /// The times of all workloads.
    Times,
    /// Only their sums.
    Sums,
    /// An unknown argument.
    Unknown,
}

/// The task that the arguments ask for.
fn request_of<R: Env + Alloc>(rt: &R) -> Result<Request, AllocError> {
    let words = match env::args(rt) {
        Ok(words) => words,
        Err(error) if error.kind() == ErrorKind::OutOfMemory => return Err(AllocError),
        Err(_) => return Ok(Request::Unknown),
    };
    let mut request = Request::Times;
    for word in words.skip(1) {
        request = match request {
            Request::Times if word.as_str() == "sums" => Request::Sums,
            _ => Request::Unknown,
        };
    }
    Ok(request)
}

fn main(rt: HostRuntime) -> ExitCode {
    let alloc = rt.alloc();
    let mut errors = rt.stderr();
    let mut writer = io::writer(&rt);
    let written = match request_of(&rt) {
        Ok(Request::Times) => write_times(&rt, alloc, &mut writer),
        Ok(Request::Sums) => write_sums(&rt, alloc, &mut writer),
        Ok(Request::Unknown) => {
            let _ = errors.write_all(b"usage: speed [sums]\n");
            return ExitCode::from(2);
        }
        Err(_) => Err(Failure::Memory),
    };
    match written {
        Ok(()) => ExitCode::from(0),
        Err(Failure::Memory) => {
            let _ = errors.write_all(b"speed: out of memory\n");
            ExitCode::from(1)
        }
        Err(Failure::Output) => {
            let _ = errors.write_all(b"speed: cannot write\n");
            ExitCode::from(1)
        }
    }
}
