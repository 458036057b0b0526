//! Pages that threads render through caches that they share.
ghost use Rattle.std.specs.Prelude.{◌≡◌, ℕ, ◌<◌, length, IfOk, slice_index_or};
ghost use Rattle.comemo_site.specs.Sites.{site_answer};
ghost use Rattle.comemo_site.specs.Pages.{page_html};

use crate::html::Rendered;
use crate::render::{Render, page_now};
use crate::site::Site;
use crate::title::Title;
use comemo::{Cache, Fault};
use comemo_text::Text;
use std::alloc::{AllocError, Global};
use std::sync::Wait;
use std::thread::{Threads, map_indices};

/// The caches that threads share: of pages and of titles.
pub type SharedPages = (Cache<Render>, Cache<Title>);

/// The HTML of a page of a site as it is, through caches that threads share.
pub fn shared_page<R: Wait>(
    rt: &R,
    alloc: Global,
    shared: &SharedPages,
    site: &Site,
    name: &Text,
    limit: u64,
) -> Result<Rendered, Fault>
    ensures { IfOk result (λ html. html ≡ page_html (site_answer site.now.pages) limit name.now) }
{
    let mut kept = (shared.0.hold(rt), shared.1.hold(rt));
    page_now(alloc, &mut kept, site, name.clone()?, limit)
}

/// The HTML of the pages of these names, in their order: a table that threads fill.
///
/// Fails if out of memory for the table. A page whose call fails has its fault in the table.
pub fn table<R: Threads + Wait + Sync>(
    rt: &R,
    alloc: Global,
    shared: &SharedPages,
    site: &Site,
    names: &[Text],
    limit: u64,
) -> Result<Vec<Result<Rendered, Fault>>, AllocError>
    ensures { IfOk result (λ pages. (i : ℕ) (d : _) (e : _) → i < length names.now
        → IfOk (slice_index_or pages.items i e) (λ html. html
        ≡ page_html (site_answer site.now.pages) limit (slice_index_or names.now i d))) }
{
    map_indices(
        rt,
        alloc,
        names.len(),
        &|i| shared_page(rt, alloc, shared, site, &names[i], limit),
    )
}
