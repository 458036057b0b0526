//! A page as HTML: a function that only reads, and that calls itself through its own cache and another
//! function.
ghost use Rattle.std.specs.Prelude.{◌≡◌, IfOk};
ghost use Rattle.std.proofs.Common.{rules};
ghost use Rattle.comemo.specs.Recursive.{TellsOwn};
ghost use Rattle.comemo_site.specs.Sites.{site_answer};
ghost use Rattle.comemo_site.specs.Pages.{block_html, page_html};

use crate::block::Block;
use crate::html::{Html, Rendered};
use crate::site::{Site, SiteAnswer, SiteCall};
use crate::title::Title;
use comemo::internal::Told;
use comemo::{Begun, CacheData, Fault, Function, Hold, Recorder, Track};
use comemo_text::Text;
use std::alloc::Global;

/// The HTML of a page, with the pages that it includes. The key is a name and the depth up to which it goes.
pub struct Render;

impl Function for Render {
    type Key = (Text, u64);

    type Call = SiteCall;

    type Answer = SiteAnswer;

    type Out = Rendered;

    ghost means = { λ key m out. out ≡ page_html m key.1 key.0 };

    ghost laws = { Prim.search rules };
}

/// The caches of rendering: of pages and of titles.
pub type Kept = (CacheData<Render>, CacheData<Title>);

/// The HTML of a page, through caches, with what it includes up to a depth of `limit`.
#[cycle(rendering)]
#[tactic(auto, using(comemo::proofs::Recursions::own_memory))]
pub fn rendered<P: Hold<Render>, T: Hold<Title>>(
    alloc: Global,
    kept: &mut (P, T),
    name: Text,
    limit: u64,
    site: &mut Recorder<'_, Site>,
) -> Result<Rendered, Fault>
    ensures { TellsOwn ⟦<Site as Told>⟧.fits site.old site.new result
        (λ html m. html ≡ page_html m limit name) }
{
    if limit == 0 {
        return Ok(Rendered::new());
    }
    let key = (name, limit);
    let mut run = match site.begin(&mut kept.0, &key)? {
        Begun::Hit(html) => return Ok(html),
        Begun::Run(run) => run,
    };
    // The run's own recorder: what is asked through it is stored with the run.
    let recorder = &mut run.recorder;
    let answer = recorder.ask(SiteCall::BlocksOf(key.0.clone()?))?;
    let mut html = Html::new(alloc);
    for block in answer.blocks() {
        let part = block_rendered(alloc, kept, block, limit - 1, recorder)?;
        html.push(part.as_bytes())?;
    }
    site.finish(&mut kept.0, &key, run, html.finish()?)
}

/// The HTML of a block, with the page that it includes up to a depth of `limit`.
#[cycle(rendering)]
fn block_rendered<P: Hold<Render>, T: Hold<Title>>(
    alloc: Global,
    kept: &mut (P, T),
    block: &Block,
    limit: u64,
    site: &mut Recorder<'_, Site>,
) -> Result<Rendered, Fault>
    ensures { TellsOwn ⟦<Site as Told>⟧.fits site.old site.new result
        (λ html m. html ≡ block_html m (page_html m limit) block.now) }
{
    match block {
        Block::Plain(plain) => Ok(Rendered::of_plain(alloc, plain)?),
        Block::Include(name) => rendered(alloc, kept, name.clone()?, limit, site),
        Block::Link(name) => {
            let title = site.call_other(&mut kept.1, &mut (), (name.clone()?, ()))?;
            Ok(Rendered::link(alloc, title, name)?)
        }
        Block::Entry(name) => {
            let title = site.call_other(&mut kept.1, &mut (), (name.clone()?, ()))?;
            Ok(Rendered::entry(alloc, title, name)?)
        }
    }
}

/// The HTML of a page of a site as it is, with what it includes up to this depth.
pub fn page_now<P: Hold<Render>, T: Hold<Title>>(
    alloc: Global,
    kept: &mut (P, T),
    site: &Site,
    name: Text,
    limit: u64,
) -> Result<Rendered, Fault>
    ensures { IfOk result (λ html. html ≡ page_html (site_answer site.now.pages) limit name) }
{
    let mut recorder = Recorder::new(alloc, site.view(alloc));
    rendered(alloc, kept, name, limit, &mut recorder)
}
