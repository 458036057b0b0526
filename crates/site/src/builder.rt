//! Builds: from the files of pages to those of documents.
ghost use Rattle.std.specs.Prelude.{◌<◌};

use crate::command::Request;
use crate::folder::{Found, Known};
use crate::output;
use anyhow::{Context, Result};
use comemo::{Cache, Fault, MultiCall};
use comemo_dependents::Dependents;
use comemo_site::log::Warning;
use comemo_site::names::page_name;
use comemo_site::parse::parse;
use comemo_site::publish::{Published, Settings, SharedBuilt, publish_all};
use comemo_site::report::{Summary, warning_line};
use comemo_site::site::{Site, SiteCall};
use comemo_site::tally::Tally;
use comemo_text::Text;
use std::alloc::Global;
use std::collections::{BTreeMap, BTreeSet};
use std::path::Path;
use std::rt::Runtime;
use std::sync::Wait;
use std::thread::Threads;
use std::{fs, io, mem};

/// How deep includes go.
const LIMIT: u64 = 8;

/// What is old is dropped after each page was published so many times, on average.
const TIMES: usize = 4;

/// For so many pages a thread is worth its start.
const SHARE: usize = 8;

/// Calls that the site answers otherwise than before, as the reads of pages have them.
type Changed = Vec<MultiCall<SiteCall, Warning>>;

/// A page that was read.
#[derive(Drop)]
struct Owned {
    /// Its file.
    path: String,
    /// Its name.
    name: Text,
}

/// The pages as they were last read, and what is kept of them.
#[derive(Drop)]
pub struct Builder<'a> {
    pub request: Request<'a>,
    explains: bool,
    site: Site,
    shared: SharedBuilt,
    /// The files as they were when they were last read.
    known: Known,
    /// The files that could not be read.
    broken: BTreeSet<String>,
    /// The pages by their names.
    pages: BTreeMap<String, Owned>,
    /// The pages whose documents are not written, or may be others now.
    due: BTreeSet<Text>,
    /// What the text and the warnings of each document that is written rest on.
    dependents: Dependents<Text, MultiCall<SiteCall, Warning>>,
    /// Whether there was a round.
    is_begun: bool,
    /// How many pages were published since what is old was dropped.
    published: usize,
    /// What became of the last round.
    pub summary: Summary,
}

/// Says what is wrong with a file.
pub fn complain<R: Runtime>(rt: &R, what: &str) -> Result<()> {
    rt.eprintln(format_args!("site: {what}"))
        .context("standard error")
}

/// Says why a page was rendered again, if it was.
fn give_reason<R: Runtime + AllocGlobal>(rt: &R, name: &Text, page: &Published) -> Result<()> {
    if let Some(reason) = &page.reason {
        let line = reason.line(rt.alloc(), name.as_str())?;
        println!(rt; "{line}").context("standard output")?;
    }
    Ok(())
}

/// What is wrong with a file that cannot be read.
fn unread<R: AllocGlobal>(rt: &R, file: &str, error: &io::Error) -> Result<String> {
    if error.kind() == io::ErrorKind::InvalidData {
        return Ok(format!(in rt.alloc(); "{file}: not UTF-8")?);
    }
    Ok(format!(in rt.alloc(); "{file}: {error}")?)
}

impl<'a> Builder<'a> {
    /// No pages.
    pub fn new<R: AllocGlobal>(rt: &R, request: Request<'a>, explains: bool) -> Self {
        let alloc = rt.alloc();
        Builder {
            request,
            explains,
            site: Site::new(alloc),
            shared: (Cache::new(alloc), Cache::new(alloc)),
            known: Known::new(alloc),
            broken: BTreeSet::new(alloc),
            pages: BTreeMap::new(alloc),
            due: BTreeSet::new(alloc),
            dependents: Dependents::new(alloc),
            is_begun: false,
            published: 0,
            summary: Summary::new(),
        }
    }

    /// Counts a failure, and says it.
    fn fail<R: Runtime>(&mut self, rt: &R, what: &str) -> Result<()> {
        self.summary.failed = self.summary.failed.saturating_add(1);
        complain(rt, what)
    }

    /// Drops the page of a file that is gone or cannot be read.
    fn forget(&mut self, alloc: Global, path: &str, changed: &mut Changed) -> Result<()> {
        self.broken.remove(path);
        let Some(name) = page_name(path) else {
            return Ok(());
        };
        if self
            .pages
            .get(name)
            .is_some_and(|page| page.path.as_str() == path)
        {
            self.pages.remove(name);
            self.site.remove(name);
            let name = Text::from_str(alloc, name)?;
            self.due.remove(&name);
            self.dependents.remove(&name);
            changed.push(MultiCall::A(SiteCall::TitleOf(name.clone()?)))?;
            changed.push(MultiCall::A(SiteCall::BlocksOf(name)))?;
        }
        Ok(())
    }

    /// What is wrong with a file whose page is another file's; `None` if it isn't.
    fn taken<R: AllocGlobal>(
        &self,
        rt: &R,
        file: &str,
        path: &str,
        name: &str,
    ) -> Result<Option<String>> {
        match self.pages.get(name) {
            Some(page) if page.path.as_str() != path => Ok(Some(format!(in rt.alloc();
                "{file}: the page {name} is in {} already",
                page.path.as_str()
            )?)),
            _ => Ok(None),
        }
    }

    /// The text of a file; `None`, and it is said why, if it cannot be read or its page is another file's.
    fn text_of<R: Runtime + AllocGlobal>(
        &mut self,
        rt: &R,
        path: &str,
        name: &str,
    ) -> Result<Option<String>> {
        let file = Path::new(self.request.source).join(rt.alloc(), path)?;
        let file = file.as_str();
        if let Some(what) = self.taken(rt, file, path, name)? {
            self.fail(rt, what.as_str())?;
            return Ok(None);
        }
        let what = match fs::read_to_string(rt, file) {
            Ok(text) => return Ok(Some(text)),
            Err(error) => unread(rt, file, &error)?,
        };
        self.fail(rt, what.as_str())?;
        Ok(None)
    }

    /// Reads the file of a page, and lists the calls that the site answers otherwise since.
    fn read<R: Runtime + AllocGlobal>(
        &mut self,
        rt: &R,
        path: &str,
        changed: &mut Changed,
    ) -> Result<()> {
        let alloc = rt.alloc();
        let Some(name) = page_name(path) else {
            return Ok(());
        };
        let Some(text) = self.text_of(rt, path, name)? else {
            self.forget(alloc, path, changed)?;
            self.broken.insert(String::from_str(alloc, path)?)?;
            return Ok(());
        };
        self.broken.remove(path);
        let page = parse(alloc, name, text.as_str())?;
        let own = Text::from_str(alloc, name)?;
        let old = self.site.get(name);
        if !old.is_some_and(|old| old.title == page.title) {
            // The document shows it, but the text does not ask for it.
            self.due.insert(own.clone()?)?;
            changed.push(MultiCall::A(SiteCall::TitleOf(own.clone()?)))?;
        }
        if !old.is_some_and(|old| old.blocks == page.blocks) {
            changed.push(MultiCall::A(SiteCall::BlocksOf(own.clone()?)))?;
        }
        self.site.set(String::from_str(alloc, name)?, page)?;
        let owned = Owned {
            path: String::from_str(alloc, path)?,
            name: own,
        };
        self.pages.insert(String::from_str(alloc, name)?, owned)?;
        Ok(())
    }

    /// Looks at the folder of the pages. Fails if it cannot be read.
    pub fn look<R: Runtime + AllocGlobal>(&mut self, rt: &R) -> Result<Found> {
        self.known.look(rt, self.request.source)
    }

    /// Reads what changed in the folder, and lists the calls that the site answers otherwise since.
    fn update<R: Runtime + AllocGlobal>(&mut self, rt: &R, found: &Found) -> Result<Changed> {
        let alloc = rt.alloc();
        let mut changed = Changed::new(alloc);
        for path in &found.gone {
            self.forget(alloc, path.as_str(), &mut changed)?;
        }
        // A file that could not be read is tried again.
        let broken = mem::replace(&mut self.broken, BTreeSet::new(alloc));
        for path in &broken {
            self.read(rt, path.as_str(), &mut changed)?;
        }
        for path in found.fresh.keys() {
            if !broken.contains(path) {
                self.read(rt, path.as_str(), &mut changed)?;
            }
        }
        Ok(changed)
    }

    /// The names of the pages whose documents are not written, or may be others after these calls changed.
    fn names_due<R: AllocGlobal>(&mut self, rt: &R, changed: &Changed) -> Result<Vec<Text>> {
        for name in self.dependents.reached(changed.as_slice())? {
            self.due.insert(name.clone()?)?;
        }
        let mut names = Vec::new(rt.alloc());
        for name in &self.due {
            names.push(name.clone()?)?;
        }
        let stay = self.pages.len().saturating_sub(names.len());
        self.summary.unchanged = u64::try_from(stay).unwrap_or(u64::MAX);
        Ok(names)
    }

    /// Writes the document of a page, and says what is wrong with the page.
    fn write<R: Runtime + AllocGlobal>(
        &mut self,
        rt: &R,
        name: &Text,
        page: Published,
    ) -> Result<()> {
        for warning in &page.warnings {
            let line = warning_line(rt.alloc(), name.as_str(), warning)?;
            complain(rt, line.as_str())?;
            self.summary.warnings = self.summary.warnings.saturating_add(1);
        }
        let request = self.request;
        match output::write(rt, request, name.as_str(), &page.document) {
            Ok(true) => self.summary.written = self.summary.written.saturating_add(1),
            Ok(false) => self.summary.unchanged = self.summary.unchanged.saturating_add(1),
            Err(error) => {
                let what = format!(in rt.alloc(); "{error:#}")?;
                return self.fail(rt, what.as_str());
            }
        }
        self.dependents.note(name.clone()?, &page.reads)?;
        self.due.remove(name);
        Ok(())
    }

    /// How so many pages are published.
    fn settings(&self, pages: usize, explains: bool) -> Settings
        ensures { 0 < result.jobs }
    {
        Settings {
            limit: LIMIT,
            jobs: self.request.jobs.min(pages / SHARE).max(1),
            explains,
        }
    }

    /// Calls for all pages, and drops what was not used since the last time.
    fn sweep<R: Runtime + AllocGlobal + Threads + Wait + Sync>(&mut self, rt: &R) -> Result<()> {
        let alloc = rt.alloc();
        let mut names = Vec::new(alloc);
        for page in self.pages.values() {
            names.push(page.name.clone()?)?;
        }
        let settings = self.settings(names.len(), false);
        let names = names.as_slice();
        publish_all(rt, alloc, &self.shared, &self.site, names, settings)?;
        self.shared.0.evict(rt, 1);
        self.shared.1.evict(rt, 1);
        self.published = 0;
        Ok(())
    }

    /// Publishes what may be another after these calls changed, writes what is, and says how many calls ran.
    fn publish<R: Runtime + AllocGlobal + Threads + Wait + Sync>(
        &mut self,
        rt: &R,
        changed: &Changed,
    ) -> Result<Tally> {
        let alloc = rt.alloc();
        let names = self.names_due(rt, changed)?;
        let pages = publish_all(
            rt,
            alloc,
            &self.shared,
            &self.site,
            names.as_slice(),
            self.settings(names.len(), self.explains),
        )?;
        for (name, page) in names.iter().zip(&pages) {
            if let Ok(page) = page {
                give_reason(rt, name, page)?;
            }
        }
        let mut tally = Tally::new();
        for (name, page) in names.iter().zip(pages) {
            match page {
                Ok(page) => {
                    tally.add(page.tally);
                    self.write(rt, name, page)?;
                }
                Err(_) => {
                    let what = format!(in alloc; "{}: out of memory", name.as_str())?;
                    self.fail(rt, what.as_str())?;
                }
            }
        }
        self.published = self.published.saturating_add(names.len());
        if self.published > self.pages.len().saturating_mul(TIMES) {
            self.sweep(rt)?;
        }
        Ok(tally)
    }

    /// Says that no page was found, if so.
    fn say_if_empty<R: Runtime + AllocGlobal>(&self, rt: &R) -> Result<()> {
        if !self.pages.is_empty() || self.summary.failed != 0 {
            return Ok(());
        }
        let source = self.request.source;
        let what = format!(in rt.alloc(); "no page found in {source}")?;
        complain(rt, what.as_str())
    }

    /// Builds what changed. Gives how many files did and how many calls ran; `None` if nothing changed.
    pub fn round<R: Runtime + AllocGlobal + Threads + Wait + Sync>(
        &mut self,
        rt: &R,
        found: Found,
    ) -> Result<Option<(u64, Tally)>> {
        let count = found.gone.len().saturating_add(found.fresh.len());
        if self.is_begun && count == 0 {
            return Ok(None);
        }
        self.is_begun = true;
        self.summary = Summary::new();
        for problem in &found.problems {
            self.fail(rt, problem.as_str())?;
        }
        let changed = self.update(rt, &found)?;
        self.known.keep(found)?;
        let tally = self.publish(rt, &changed)?;
        self.say_if_empty(rt)?;
        Ok(Some((u64::try_from(count).unwrap_or(u64::MAX), tally)))
    }
}

/// Builds the pages once. The status is 1 if a page failed.
pub fn build<R: Runtime + AllocGlobal + Threads + Wait + Sync>(
    rt: &R,
    request: Request<'_>,
) -> Result<u8> {
    let mut builder = Builder::new(rt, request, false);
    let found = builder.look(rt)?;
    builder.round(rt, found)?;
    let line = builder.summary.line(rt.alloc())?;
    println!(rt; "{line}").context("standard output")?;
    Ok(if builder.summary.failed == 0 { 0 } else { 1 })
}
