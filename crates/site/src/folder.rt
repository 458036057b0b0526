//! The files of a folder, and how they differ from those of the last look.

use anyhow::{Context, Result};
use comemo_site::names::page_name;
use std::alloc::Global;
use std::collections::{BTreeMap, HashMap};
use std::fs::{DirEntry, Metadata};
use std::rt::Runtime;
use std::time::SystemTime;
use std::{fs, io};

/// What tells a file from its earlier states without reading it.
#[derive(Clone, Copy, PartialEq, Eq)]
pub struct Stamp {
    modified: Option<SystemTime>,
    len: u64,
}

/// A file of a page as it was when it was last read.
#[derive(Drop)]
struct File {
    stamp: Stamp,
    /// The last look that saw it.
    look: u64,
}

/// The files of pages as they were when they were last read, by their paths below the folder.
#[derive(Drop)]
pub struct Known {
    files: HashMap<String, File>,
    /// The number of the last look.
    look: u64,
}

/// How a folder differs from what is known of it.
#[derive(Drop)]
pub struct Found {
    /// The files that are gone, in order.
    pub gone: Vec<String>,
    /// The files that are new or have another stamp.
    pub fresh: BTreeMap<String, Stamp>,
    /// What could not be read, each with its path.
    pub problems: Vec<String>,
}

/// A look that has not ended.
#[derive(Drop)]
struct Walk {
    found: Found,
    /// The folders that were not read yet.
    folders: Vec<String>,
    /// The folder that is read; empty for the first.
    below: String,
    /// The path of the file at hand. All files share its memory.
    path: String,
}

/// What is known of a file. A link is the file that it leads to; `None` if that is a folder.
fn metadata_of<R: Runtime + AllocGlobal>(
    rt: &R,
    entry: &DirEntry<R, R::A>,
) -> io::Result<Option<Metadata>> {
    let metadata = entry.metadata()?;
    if !metadata.is_symlink() {
        return Ok(Some(metadata));
    }
    let metadata = fs::metadata(rt, entry.path())?;
    Ok(if metadata.is_dir() {
        None
    } else {
        Some(metadata)
    })
}

impl Walk {
    /// A look at the folder itself.
    fn new(alloc: Global) -> Self {
        Walk {
            found: Found {
                gone: Vec::new(alloc),
                fresh: BTreeMap::new(alloc),
                problems: Vec::new(alloc),
            },
            folders: Vec::new(alloc),
            below: String::new(alloc),
            path: String::new(alloc),
        }
    }

    /// Goes on to a file of the folder that is read.
    fn enter(&mut self, name: &str) -> Result<()> {
        self.path.clear();
        if !self.below.is_empty() {
            self.path.push_str(self.below.as_str())?;
            self.path.push('/')?;
        }
        self.path.push_str(name)?;
        Ok(())
    }
}

impl Known {
    /// No files.
    pub fn new(alloc: Global) -> Self {
        Known {
            files: HashMap::new(alloc),
            look: 0,
        }
    }

    /// Notes that a file is there, and says whether it is new or has another stamp.
    fn is_fresh(&mut self, path: &str, stamp: Stamp) -> bool {
        match self.files.get_mut(path) {
            Some(file) => {
                file.look = self.look;
                file.stamp != stamp
            }
            None => true,
        }
    }

    /// Takes a file or a folder in. A folder is put off.
    fn take<R: Runtime + AllocGlobal>(
        &mut self,
        rt: &R,
        entry: io::Result<DirEntry<R, R::A>>,
        walk: &mut Walk,
    ) -> Result<()> {
        let alloc = rt.alloc();
        let entry = match entry {
            Ok(entry) => entry,
            Err(error) => {
                let what = format!(in alloc; "a file of {:?}: {error}", walk.below.as_str())?;
                walk.found.problems.push(what)?;
                return Ok(());
            }
        };
        let name = entry.file_name();
        if name.starts_with('.') {
            return Ok(());
        }
        walk.enter(name)?;
        let path = walk.path.as_str();
        match metadata_of(rt, &entry) {
            Ok(Some(metadata)) if metadata.is_dir() => {
                walk.folders.push(String::from_str(alloc, path)?)?;
            }
            Ok(Some(metadata)) if page_name(path).is_some() => {
                let stamp = Stamp {
                    modified: metadata.modified().ok(),
                    len: metadata.len(),
                };
                if self.is_fresh(path, stamp) {
                    let own = String::from_str(alloc, path)?;
                    walk.found.fresh.insert(own, stamp)?;
                }
            }
            Ok(_) => {}
            Err(error) => {
                let what = format!(in alloc; "{path}: {error}")?;
                walk.found.problems.push(what)?;
            }
        }
        Ok(())
    }

    /// Takes in the folders that were put off, and the folders in them.
    fn take_folders<R: Runtime + AllocGlobal>(
        &mut self,
        rt: &R,
        folder: &str,
        walk: &mut Walk,
    ) -> Result<()> {
        for _ in 0..u64::MAX {
            let Some(below) = walk.folders.pop() else {
                break;
            };
            let path = format!(in rt.alloc(); "{folder}/{below}")?;
            walk.below = below;
            match fs::read_dir(rt, path) {
                Ok(entries) => {
                    for entry in entries {
                        self.take(rt, entry, walk)?;
                    }
                }
                Err(error) => {
                    let what = format!(in rt.alloc(); "{}: {error}", walk.below.as_str())?;
                    walk.found.problems.push(what)?;
                }
            }
        }
        Ok(())
    }

    /// Compares the files of pages in a folder and in the folders in it with those that are known. Fails if the folder
    /// itself cannot be read.
    pub fn look<R: Runtime + AllocGlobal>(&mut self, rt: &R, folder: &str) -> Result<Found> {
        self.look = self.look.wrapping_add(1);
        let mut walk = Walk::new(rt.alloc());
        for entry in fs::read_dir(rt, folder).context(format_args!("{folder}"))? {
            self.take(rt, entry, &mut walk)?;
        }
        self.take_folders(rt, folder, &mut walk)?;
        let mut found = walk.found;
        for (path, file) in &self.files {
            if file.look != self.look {
                found.gone.push(path.clone()?)?;
            }
        }
        found.gone.sort()?;
        Ok(found)
    }

    /// Takes over what was found.
    pub fn keep(&mut self, found: Found) -> Result<()> {
        for path in &found.gone {
            self.files.remove(path.as_str());
        }
        for (path, stamp) in found.fresh {
            let look = self.look;
            self.files.insert(path, File { stamp, look })?;
        }
        Ok(())
    }
}
