//! The documents of a site as it is, with their warnings, by threads that share caches.
ghost use Rattle.std.specs.Prelude.{◌≡◌, ℕ, ◌<◌, length, IfOk, slice_index_or, map, ◌++◌, ◌∷◌, [], OnOk};
ghost use Rattle.comemo.specs.Multi.{second_call, seconds};
ghost use Rattle.comemo_site.specs.Html.{document_html};
ghost use Rattle.comemo_site.specs.Pages.{page_html, page_warnings, title_or_name};
ghost use Rattle.comemo_site.specs.Publishing.{IsBuilt, IsPublished, Outlives, StaysPublished};
ghost use Rattle.comemo_site.specs.Sites.{site_answer};

use crate::build::{Build, built};
use crate::html::{Html, Rendered};
use crate::log::{Log, Warning};
use crate::reason::{Reason, reason_now};
use crate::site::{Site, SiteAnswer, SiteCall};
use crate::tally::Tally;
use crate::title::Title;
use comemo::internal::CallSequence;
use comemo::{
    Cache, Constraint, Fault, Hold, MultiAnswer, MultiCall, ReadAndWrite, RecorderMut, Track,
    memoized,
};
use comemo_text::Text;
use std::alloc::{AllocError, Global};
use std::sync::Wait;
use std::thread::{Threads, for_each_mut};

/// How pages are published.
#[derive(Clone, Copy, Debug, PartialEq, Eq)]
pub struct Settings {
    /// How deep includes go.
    pub limit: u64,
    /// How many threads there are.
    pub jobs: usize,
    /// Whether reasons are found.
    pub explains: bool,
}

/// A page that was published.
#[derive(Drop)]
pub struct Published {
    /// The document.
    pub document: Html,
    /// What is wrong with the page, and with the pages in it.
    pub warnings: Vec<Warning>,
    /// Why it was rendered again; `None` also if reasons are not found.
    pub reason: Option<Reason>,
    /// What its text and its warnings rest on.
    pub reads: Reads,
    /// How many calls ran.
    pub tally: Tally,
}

/// What was asked of a site, with the answers.
pub type Reads = CallSequence<MultiCall<SiteCall, Warning>, MultiAnswer<SiteAnswer, ()>>;

/// The caches that threads share: of pages with their warnings, and of titles.
pub type SharedBuilt = (Cache<Build>, Cache<Title>);

/// The HTML of a page of a site as it is, with its warnings, and what both rest on.
pub fn page_built<B: Hold<Build>, T: Hold<Title>>(
    alloc: Global,
    kept: &mut (B, T),
    tally: &mut Tally,
    site: &Site,
    name: Text,
    limit: u64,
) -> Result<(Rendered, Vec<Warning>, Reads), Fault>
    ensures { IfOk result (λ page. Outlives page.2.pairs (site_answer site.now.pages)
        (IsBuilt limit name page.0 page.1.items)) }
{
    let mut log = Log::new(alloc);
    let mut both = ReadAndWrite {
        first: site.view(alloc),
        second: &mut log,
    };
    let (html, reads, writes) = page_recorded(alloc, kept, tally, &mut both, name, limit)?;
    let warnings = warnings_in(alloc, writes.as_slice())?;
    Ok((html, warnings, reads))
}

/// The HTML of a page of a site as it is, with what was asked and what was written to the log.
fn page_recorded<'a, B: Hold<Build>, T: Hold<Title>>(
    alloc: Global,
    kept: &mut (B, T),
    tally: &mut Tally,
    both: &mut ReadAndWrite<'a, Site, Log>,
    name: Text,
    limit: u64,
) -> Result<(Rendered, Reads, Vec<MultiCall<SiteCall, Warning>>), Fault>
    ensures { IfOk result (λ page. Outlives page.1.pairs (site_answer both.old.first.pages)
        (λ site. (page.0 ≡ page_html site limit name)
        × (page.2.items ≡ map second_call (page_warnings site limit name)))) }
{
    let mut recording = Constraint::new(alloc);
    let mut recorder = RecorderMut::new(alloc, both, &mut recording);
    let html = built(alloc, kept, tally, name, limit, &mut recorder)?;
    let (reads, writes) = recording.into_parts();
    Ok((html, reads, writes))
}

/// The warnings among writes, in their order.
fn warnings_in(
    alloc: Global,
    writes: &[MultiCall<SiteCall, Warning>],
) -> Result<Vec<Warning>, AllocError>
    ensures { IfOk result (λ warnings. warnings.items ≡ seconds writes.now) }
{
    let mut warnings = Vec::new(alloc);
    for write in writes {
        push_warning(&mut warnings, write)?;
    }
    Ok(warnings)
}

/// Appends a write if it is a warning. Fails if out of memory; then nothing is appended.
fn push_warning(
    warnings: &mut Vec<Warning>,
    write: &MultiCall<SiteCall, Warning>,
) -> Result<(), AllocError>
    ensures { OnOk result (warnings.new.items
        ≡ warnings.old.items ++ seconds (write.now ∷ [])) }
{
    match write {
        MultiCall::A(_) => Ok(()),
        MultiCall::B(warning) => {
            let own = warning.clone()?;
            Ok(warnings.push(own)?)
        }
    }
}

/// The document of a page around its HTML, with its title or else its name.
fn document_around<T: Hold<Title>>(
    alloc: Global,
    titles: &mut T,
    site: &Site,
    name: &Text,
    html: &Rendered,
) -> Result<Html, Fault>
    ensures { IfOk result (λ document. document
        ≡ document_html (title_or_name (site_answer site.now.pages) name.now) name.now html.now) }
{
    let reply = memoized(alloc, titles, (name.clone()?, ()), site)?;
    match reply.output {
        Some(title) => Ok(Html::document(alloc, &title, name, html)?),
        None => Ok(Html::document(alloc, name, name, html)?),
    }
}

/// Why a page would be rendered again, if reasons are found.
fn reason_asked<B: Hold<Build>>(
    alloc: Global,
    cache: &mut B,
    site: &Site,
    name: &Text,
    settings: Settings,
) -> Result<Option<Reason>, AllocError> {
    if !settings.explains {
        return Ok(None);
    }
    reason_now(alloc, cache, site, name, settings.limit)
}

/// The document of a page of a site as it is, with its warnings, through caches.
pub fn publish_page<B: Hold<Build>, T: Hold<Title>>(
    alloc: Global,
    kept: &mut (B, T),
    site: &Site,
    name: &Text,
    settings: Settings,
) -> Result<Published, Fault>
    ensures published { IfOk result
        (IsPublished (site_answer site.now.pages) settings.limit name.now) }
    ensures stays { IfOk result
        (StaysPublished (site_answer site.now.pages) settings.limit name.now) }
{
    let reason = reason_asked(alloc, &mut kept.0, site, name, settings)?;
    let mut tally = Tally::new();
    let own = name.clone()?;
    let (html, warnings, reads) = page_built(alloc, kept, &mut tally, site, own, settings.limit)?;
    let document = document_around(alloc, &mut kept.1, site, name, &html)?;
    Ok(Published {
        document,
        warnings,
        reason,
        reads,
        tally,
    })
}

/// The document of a page of a site as it is, through caches that threads share.
fn publish_shared<R: Wait>(
    rt: &R,
    alloc: Global,
    shared: &SharedBuilt,
    site: &Site,
    name: &Text,
    settings: Settings,
) -> Result<Published, Fault>
    ensures published { IfOk result
        (IsPublished (site_answer site.now.pages) settings.limit name.now) }
    ensures stays { IfOk result
        (StaysPublished (site_answer site.now.pages) settings.limit name.now) }
{
    let mut kept = (shared.0.hold(rt), shared.1.hold(rt));
    publish_page(alloc, &mut kept, site, name, settings)
}

/// Publishes the pages of these names, each to its place, by so many threads.
fn fill<R: Threads + Wait + Sync>(
    rt: &R,
    alloc: Global,
    shared: &SharedBuilt,
    site: &Site,
    names: &[Text],
    settings: Settings,
    pages: &mut [Result<Published, Fault>],
)
    requires jobs { 0 < settings.jobs }
    requires len { length pages.old ≡ length names.now }
    ensures len { length pages.new ≡ length pages.old }
    ensures published { (i : ℕ) (d : _) (e : _) → i < length names.now
        → IfOk (slice_index_or pages.new i e) (IsPublished (site_answer site.now.pages)
        settings.limit (slice_index_or names.now i d)) }
    ensures stays { (i : ℕ) (d : _) (e : _) → i < length names.now
        → IfOk (slice_index_or pages.new i e) (StaysPublished (site_answer site.now.pages)
        settings.limit (slice_index_or names.now i d)) }
{
    for_each_mut(
        rt,
        pages,
        settings.jobs,
        &|i, page|
            requires { i < length names.now }
            ensures published { (d : _) → IfOk page.new (IsPublished
                (site_answer site.entry.now.pages) settings.limit
                (slice_index_or names.entry.now i d)) }
            ensures stays { (d : _) → IfOk page.new (StaysPublished
                (site_answer site.entry.now.pages) settings.limit
                (slice_index_or names.entry.now i d)) }
        { *page = publish_shared(rt, alloc, shared, site, &names[i], settings) },
    );
}

/// Publishes the pages of these names, in their order, by threads. Fails if out of memory for the list.
pub fn publish_all<R: Threads + Wait + Sync>(
    rt: &R,
    alloc: Global,
    shared: &SharedBuilt,
    site: &Site,
    names: &[Text],
    settings: Settings,
) -> Result<Vec<Result<Published, Fault>>, AllocError>
    requires { 0 < settings.jobs }
    ensures published { IfOk result (λ pages. (i : ℕ) (d : _) (e : _) → i < length names.now
        → IfOk (slice_index_or pages.items i e) (IsPublished (site_answer site.now.pages)
        settings.limit (slice_index_or names.now i d))) }
    ensures stays { IfOk result (λ pages. (i : ℕ) (d : _) (e : _) → i < length names.now
        → IfOk (slice_index_or pages.items i e) (StaysPublished (site_answer site.now.pages)
        settings.limit (slice_index_or names.now i d))) }
{
    let mut pages: Vec<Result<Published, Fault>> = Vec::new(alloc);
    pages.resize_with(names.len(), || Err(Fault::Memory))?;
    fill(
        rt,
        alloc,
        shared,
        site,
        names,
        settings,
        pages.as_mut_slice(),
    );
    Ok(pages)
}
