//! The modules of a folder, and how they differ from those of the last look.

use anyhow::{Context, Result};
use std::collections::BTreeMap;
use std::fs;
use std::rt::Runtime;
use std::time::SystemTime;

/// What tells a file from its earlier states without reading it.
#[derive(Clone, Copy, PartialEq, Eq)]
pub struct Stamp {
    modified: Option<SystemTime>,
    len: u64,
}

/// The files of modules, by the names of these.
pub type Stamps = BTreeMap<String, Stamp>;

/// Looks at the files of modules in a folder. Fails if the folder or one of its files can't be read.
pub fn look<R: Runtime + AllocGlobal>(rt: &R, folder: &str) -> Result<Stamps> {
    let alloc = rt.alloc();
    let mut stamps = BTreeMap::new(alloc);
    for entry in fs::read_dir(rt, folder).context(format_args!("{folder}"))? {
        let entry = entry.context(format_args!("{folder}"))?;
        let Some(name) = entry.file_name().strip_suffix(".mod") else {
            continue;
        };
        let metadata = entry.metadata().context(format_args!("{name}"))?;
        let stamp = Stamp {
            modified: metadata.modified().ok(),
            len: metadata.len(),
        };
        stamps.insert(String::from_str(alloc, name)?, stamp)?;
    }
    Ok(stamps)
}

/// The text of a module. Fails if its file can't be read.
pub fn read<R: Runtime + AllocGlobal>(rt: &R, folder: &str, name: &str) -> Result<String> {
    let path = format!(in rt.alloc(); "{folder}/{name}.mod")?;
    let text = fs::read_to_string(rt, path.as_str()).context(format_args!("{path}"))?;
    Ok(text)
}
