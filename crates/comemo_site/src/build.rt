//! A page as HTML, with its warnings: a function that reads one value, writes another, and calls itself and another
//! function.
ghost use Rattle.std.specs.Prelude.{◌≡◌, ◌+◌, map};
ghost use Rattle.std.proofs.Common.{rules};
ghost use Rattle.comemo.specs.FunctionMut.{lent};
ghost use Rattle.comemo.specs.MeaningLaws.{exact_laws};
ghost use Rattle.comemo.specs.Multi.{second_call};
ghost use Rattle.comemo_site.specs.Pages.{OnSite, block_html, block_warnings, page_html, page_warnings};

use crate::block::Block;
use crate::html::{Html, Rendered};
use crate::link::{entry_built, link_built};
use crate::log::{Log, Warning};
use crate::site::{Site, SiteAnswer, SiteCall};
use crate::tally::Tally;
use crate::title::Title;
use crate::warns::Warns;
use comemo::{
    Begun, CacheData, Fault, First, Function, Hold, MultiAnswer, MultiCall, ReadAndWrite,
    RecorderMut, RunMut, Second,
};
use comemo_text::Text;
use std::alloc::Global;

/// The HTML of a page, with the pages that it includes down to a limit, and the warnings about them.
pub struct Build;

impl Function for Build {
    type Call = MultiCall<SiteCall, Warning>;

    type Key = (Text, u64);

    type Answer = MultiAnswer<SiteAnswer, ()>;

    type Out = Rendered;

    ghost means = { λ key m html. OnSite m (λ site. html ≡ page_html site key.1 key.0) };

    ghost writes = { λ key m _ W. OnSite m
        (λ site. W ≡ map second_call (page_warnings site key.1 key.0)) };

    ghost laws = { exact_laws (Prim.search rules) };
}

/// What building keeps: the pages and the titles.
pub type Built = (CacheData<Build>, CacheData<Title>);

/// The HTML of a page, kept, with what it includes down to a limit. It warns of what is wrong.
#[cycle(building)]
pub fn built<'a, B: Hold<Build>, T: Hold<Title>>(
    alloc: Global,
    kept: &mut (B, T),
    tally: &mut Tally,
    name: Text,
    limit: u64,
    both: &mut RecorderMut<'_, '_, ReadAndWrite<'a, Site, Log>>,
) -> Result<Rendered, Fault>
    requires agrees { ⟦<ReadAndWrite<'a, Site, Log> as Warns>⟧.agrees
        (lent both.now.value both.now.recording) }
    ensures agrees { ⟦<ReadAndWrite<'a, Site, Log> as Warns>⟧.agrees
        (lent both.new.value both.new.recording) }
    ensures tells { ⟦<ReadAndWrite<'a, Site, Log> as Warns>⟧.tells
        (lent both.old.value both.old.recording) (lent both.new.value both.new.recording) result
        (λ site. page_html site limit name) (λ site. page_warnings site limit name) }
{
    if limit == 0 {
        both.write_part(Second::new(), Warning::TooDeep(name))?;
        return Ok(Rendered::new());
    }
    let key = (name, limit);
    let run = match both.begin(&mut kept.0, &key)? {
        Begun::Hit(html) => {
            tally.count_hit();
            return Ok(html);
        }
        Begun::Run(run) => run,
    };
    tally.count_run();
    let ran = draft(alloc, kept, tally, &key.0, limit - 1, both);
    both.finish(&mut kept.0, &key, run, ran)
}

/// The run of it: the blocks of the page, with the pages that they include down to a limit.
#[cycle(building)]
fn draft<'a, B: Hold<Build>, T: Hold<Title>>(
    alloc: Global,
    kept: &mut (B, T),
    tally: &mut Tally,
    name: &Text,
    limit: u64,
    both: &mut RecorderMut<'_, '_, ReadAndWrite<'a, Site, Log>>,
) -> Result<Rendered, Fault>
    requires agrees { ⟦<ReadAndWrite<'a, Site, Log> as Warns>⟧.agrees
        (lent both.now.value both.now.recording) }
    ensures agrees { ⟦<ReadAndWrite<'a, Site, Log> as Warns>⟧.agrees
        (lent both.new.value both.new.recording) }
    ensures tells { ⟦<ReadAndWrite<'a, Site, Log> as Warns>⟧.tells
        (lent both.old.value both.old.recording) (lent both.new.value both.new.recording) result
        (λ site. page_html site (limit + 1) name.now)
        (λ site. page_warnings site (limit + 1) name.now) }
{
    let SiteAnswer::Blocks(blocks) = both.ask_part(First::new(), SiteCall::BlocksOf(name.clone()?))?
    else {
        both.write_part(Second::new(), Warning::Missing(name.clone()?))?;
        return Ok(Rendered::new());
    };
    let mut html = Html::new(alloc);
    for block in blocks.as_slice() {
        let part = block_built(alloc, kept, tally, block, limit, both)?;
        html.push(part.as_bytes())?;
    }
    Ok(html.finish()?)
}

/// The HTML of a block, with the page that it includes down to a limit.
#[cycle(building)]
fn block_built<'a, B: Hold<Build>, T: Hold<Title>>(
    alloc: Global,
    kept: &mut (B, T),
    tally: &mut Tally,
    block: &Block,
    limit: u64,
    both: &mut RecorderMut<'_, '_, ReadAndWrite<'a, Site, Log>>,
) -> Result<Rendered, Fault>
    requires agrees { ⟦<ReadAndWrite<'a, Site, Log> as Warns>⟧.agrees
        (lent both.now.value both.now.recording) }
    ensures agrees { ⟦<ReadAndWrite<'a, Site, Log> as Warns>⟧.agrees
        (lent both.new.value both.new.recording) }
    ensures tells { ⟦<ReadAndWrite<'a, Site, Log> as Warns>⟧.tells
        (lent both.old.value both.old.recording) (lent both.new.value both.new.recording) result
        (λ site. block_html site (page_html site limit) block.now)
        (λ site. block_warnings site (page_warnings site limit) block.now) }
{
    match block {
        Block::Plain(plain) => Ok(Rendered::of_plain(alloc, plain)?),
        Block::Include(name) => built(alloc, kept, tally, name.clone()?, limit, both),
        Block::Link(name) => link_built(alloc, &mut kept.1, name, both),
        Block::Entry(name) => entry_built(alloc, &mut kept.1, name, both),
    }
}

/// The HTML of a page, with its warnings, as a function that is called like any.
///
/// The run calls `built`. After a fault the log has a prefix of the warnings.
pub struct Publish;

impl Function for Publish {
    type Call = MultiCall<SiteCall, Warning>;

    type Key = (Text, u64);

    type Answer = MultiAnswer<SiteAnswer, ()>;

    type Out = Rendered;

    ghost means = { ⟦<Build as Function>⟧.means };

    ghost writes = { ⟦<Build as Function>⟧.writes };

    ghost laws = { exact_laws (Prim.search rules) };
}

impl<'a> RunMut<ReadAndWrite<'a, Site, Log>, (Global, Built)> for Publish {
    fn run(
        key: &(Text, u64),
        both: &mut RecorderMut<'_, '_, ReadAndWrite<'a, Site, Log>>,
        needs: &mut (Global, Built),
    ) -> Result<Rendered, Fault> {
        let (alloc, kept) = needs;
        built(*alloc, kept, &mut Tally::new(), key.0.clone()?, key.1, both)
    }
}
