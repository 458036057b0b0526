//! The program `calc`: commands in, one on a line, and answers out. All of it but its streams is
//! `calc_core::sessions::start`.
#![tactic(auto)]

use std::alloc::AllocError;
use std::env::Env;
use std::io::{BufReader, ErrorKind, Write};
use std::process::ExitCode;
use std::{env, io};

/// What is said where there is no memory even to begin.
const OUT_OF_MEMORY: &[u8] = b"calc: out of memory\n";

/// The words after the program's name; one empty word where they are not text.
fn words_of<R: Env + Alloc>(rt: &R) -> Result<Vec<String<R::A>, R::A>, AllocError> {
    let mut words = Vec::new(rt.alloc());
    match env::args(rt) {
        Ok(all) => {
            for word in all.skip(1) {
                words.push(word)?;
            }
        }
        Err(error) if error.kind() == ErrorKind::OutOfMemory => return Err(AllocError),
        Err(_) => words.push(String::new(rt.alloc()))?,
    }
    Ok(words)
}

fn main(rt: HostRuntime) -> ExitCode {
    let alloc = rt.alloc();
    let mut errors = rt.stderr();
    let Ok(words) = words_of(&rt) else {
        let _ = errors.write_all(OUT_OF_MEMORY);
        return ExitCode::from(1);
    };
    let Ok(mut reader) = BufReader::new(alloc, rt.reader()) else {
        let _ = errors.write_all(OUT_OF_MEMORY);
        return ExitCode::from(1);
    };
    let mut writer = io::writer(&rt);
    let status = calc_core::sessions::start(
        alloc,
        words.as_slice(),
        &mut reader,
        &mut writer,
        &mut errors,
    );
    ExitCode::from(status)
}
