//! The program `calc`, which takes no words here: its stored run is long sessions, one after another. They stand apart
//! from `calc`, whose own stored run is a short one.
#![tactic(auto)]

use std::io::{self, BufReader, Write};
use std::process::ExitCode;

fn main(rt: HostRuntime) -> ExitCode {
    let alloc = rt.alloc();
    let mut errors = rt.stderr();
    let Ok(mut reader) = BufReader::new(alloc, rt.reader()) else {
        let _ = errors.write_all(b"calc: out of memory\n");
        return ExitCode::from(1);
    };
    let mut writer = io::writer(&rt);
    let status = calc_core::sessions::start(alloc, &[], &mut reader, &mut writer, &mut errors);
    ExitCode::from(status)
}
