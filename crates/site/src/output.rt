//! The files of documents.

use crate::command::Request;
use anyhow::{Context, Error, Result};
use comemo_site::html::Html;
use comemo_site::names::document_path;
use comemo_site::report::{Fate, fate_of};
use std::fs::File;
use std::io::Write;
use std::path::Path;
use std::rt::Runtime;
use std::{fs, io};

/// How many names are tried for a file beside another.
const NAMES: u32 = 16;

/// The bytes of a file; `None` if there is none. A link that leads nowhere is there, and cannot be read.
fn bytes_at<R: Runtime + AllocGlobal>(rt: &R, path: &str) -> io::Result<Option<Vec<u8>>> {
    match fs::read(rt, path) {
        Ok(bytes) => Ok(Some(bytes)),
        Err(error) => {
            if error.kind() == io::ErrorKind::NotFound && fs::symlink_metadata(rt, path).is_err() {
                return Ok(None);
            }
            Err(error)
        }
    }
}

/// Makes a new file beside another. Gives it with its path.
fn file_beside<R: Runtime + AllocGlobal>(rt: &R, path: &str) -> io::Result<(R::File, String)> {
    for number in 0..NAMES {
        let beside = format!(in rt.alloc(); "{path}.new{number}")?;
        match File::create_new(rt, beside.as_str()) {
            Ok(file) => return Ok((file, beside)),
            Err(error) => {
                if error.kind() != io::ErrorKind::AlreadyExists {
                    return Err(error);
                }
            }
        }
    }
    Err(io::Error::from(io::ErrorKind::AlreadyExists))
}

/// Writes bytes to a new file and gives it the name of another. Fails before that one changes.
fn replace<R: Runtime + AllocGlobal>(rt: &R, path: &str, bytes: &[u8]) -> io::Result<()> {
    let (mut file, beside) = file_beside(rt, path)?;
    let written = match file.write_all(bytes) {
        Ok(()) => fs::rename(rt, beside.as_str(), path),
        Err(error) => Err(error),
    };
    if written.is_err() {
        let _ = fs::remove_file(rt, beside.as_str());
    }
    written
}

/// Writes a document to the file of a path if that holds another, and says whether it did. Fails if the file is no
/// document and may not be replaced.
fn write_at<R: Runtime + AllocGlobal>(
    rt: &R,
    path: &str,
    document: &Html,
    is_forced: bool,
) -> Result<bool> {
    let there = match bytes_at(rt, path) {
        Ok(there) => there,
        Err(error) => {
            if !is_forced {
                return Err(Error::from(error));
            }
            None
        }
    };
    let there = there.as_ref().map(|bytes| bytes.as_slice());
    match fate_of(there, document, is_forced) {
        Fate::Unchanged => return Ok(false),
        Fate::Kept => return Err(Error::msg("site did not write it, and --force replaces it")),
        Fate::Written => {}
    }
    if let Some(parent) = Path::new(path).parent() {
        fs::create_dir_all(rt, parent)?;
    }
    replace(rt, path, document.as_bytes())?;
    Ok(true)
}

/// Writes the document of a page if its file holds another, and says whether it did. Fails if the file is no document
/// and may not be replaced.
pub fn write<R: Runtime + AllocGlobal>(
    rt: &R,
    request: Request<'_>,
    name: &str,
    document: &Html,
) -> Result<bool> {
    let below = document_path(rt.alloc(), name)?;
    let path = Path::new(request.output).join(rt.alloc(), below.as_str())?;
    let path = path.as_str();
    write_at(rt, path, document, request.is_forced).context(format_args!("{path}"))
}
