//! A link with its warning: a function that reads one value and writes to another.
ghost use Rattle.std.specs.Prelude.{◌≡◌, codes, [], map, OnOk};
ghost use Rattle.std.proofs.Common.{rules};
ghost use Rattle.comemo.specs.FunctionMut.{lent};
ghost use Rattle.comemo.specs.MeaningLaws.{exact_laws};
ghost use Rattle.comemo.specs.Multi.{second_call};
ghost use Rattle.comemo_site.specs.Pages.{OnSite, link_html, missing};
ghost use Rattle.comemo_site.specs.Sites.{title_in};
ghost use Rattle.comemo_site.specs.declared.site.SiteCall.TheVariants.{TitleOf};

use crate::html::Rendered;
use crate::log::{Log, Warning};
use crate::site::{Site, SiteAnswer, SiteCall};
use crate::title::Title;
use crate::warns::Warns;
use comemo::{
    CacheData, Fault, First, Function, Hold, MultiAnswer, MultiCall, ReadAndWrite, RecorderMut,
    RunMut, Second,
};
use comemo_text::Text;
use std::alloc::Global;

/// A link to the page of a name: its title, or the name and a warning if there is no such page.
pub struct Link;

impl Function for Link {
    type Call = MultiCall<SiteCall, Warning>;

    type Key = Text;

    type Answer = MultiAnswer<SiteAnswer, ()>;

    type Out = Rendered;

    ghost means = { λ name m html. OnSite m (λ site. html ≡ link_html site (codes "p") name) };

    ghost writes = { λ name m _ W. OnSite m
        (λ site. W ≡ map second_call (missing name (title_in (site (TitleOf name))))) };

    ghost laws = { exact_laws (Prim.search rules) };
}

impl<'a> RunMut<ReadAndWrite<'a, Site, Log>, (Global, CacheData<Title>)> for Link {
    fn run(
        name: &Text,
        both: &mut RecorderMut<'_, '_, ReadAndWrite<'a, Site, Log>>,
        needs: &mut (Global, CacheData<Title>),
    ) -> Result<Rendered, Fault> {
        let (alloc, titles) = needs;
        link_built(*alloc, titles, name, both)
    }
}

/// A link, by the titles that are kept. It warns where there is no such page.
pub fn link_built<'a, T: Hold<Title>>(
    alloc: Global,
    titles: &mut T,
    name: &Text,
    both: &mut RecorderMut<'_, '_, ReadAndWrite<'a, Site, Log>>,
) -> Result<Rendered, Fault>
    requires agrees { ⟦<ReadAndWrite<'a, Site, Log> as Warns>⟧.agrees
        (lent both.now.value both.now.recording) }
    ensures agrees { ⟦<ReadAndWrite<'a, Site, Log> as Warns>⟧.agrees
        (lent both.new.value both.new.recording) }
    ensures tells { ⟦<ReadAndWrite<'a, Site, Log> as Warns>⟧.tells
        (lent both.old.value both.old.recording) (lent both.new.value both.new.recording) result
        (λ site. link_html site (codes "p") name.now)
        (λ site. missing name.now (title_in (site (TitleOf name.now)))) }
{
    let title = both.call_part(First::new(), titles, &mut (), (name.clone()?, ()))?;
    match title {
        Some(title) => Ok(Rendered::link(alloc, Some(title), name)?),
        None => {
            let html = Rendered::link(alloc, None, name)?;
            both.write_part(Second::new(), Warning::Missing(name.clone()?))?;
            Ok(html)
        }
    }
}

/// An item of a list that links to the page of a name, by the titles that are kept.
pub fn entry_built<'a, T: Hold<Title>>(
    alloc: Global,
    titles: &mut T,
    name: &Text,
    both: &mut RecorderMut<'_, '_, ReadAndWrite<'a, Site, Log>>,
) -> Result<Rendered, Fault>
    requires agrees { ⟦<ReadAndWrite<'a, Site, Log> as Warns>⟧.agrees
        (lent both.now.value both.now.recording) }
    ensures agrees { ⟦<ReadAndWrite<'a, Site, Log> as Warns>⟧.agrees
        (lent both.new.value both.new.recording) }
    ensures tells { ⟦<ReadAndWrite<'a, Site, Log> as Warns>⟧.tells
        (lent both.old.value both.old.recording) (lent both.new.value both.new.recording) result
        (λ site. link_html site (codes "li") name.now) (λ site. []) }
{
    let title = both.call_part(First::new(), titles, &mut (), (name.clone()?, ()))?;
    Ok(Rendered::entry(alloc, title, name)?)
}
