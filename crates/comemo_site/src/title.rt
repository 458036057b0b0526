//! The title of a page: a memoized function.
ghost use Rattle.std.specs.Prelude.{◌≡◌};
ghost use Rattle.std.proofs.Common.{rules};
ghost use Rattle.comemo_site.specs.Sites.{title_in};
ghost use Rattle.comemo_site.specs.declared.site.SiteCall.TheVariants.{TitleOf};

use crate::site::{Site, SiteAnswer, SiteCall};
use comemo::{Fault, Function, Recorder, Run};
use comemo_text::Text;

/// The title of the page of a name; `None` if there is no such page.
pub struct Title;

impl Function for Title {
    type Key = (Text, ());

    type Call = SiteCall;

    type Answer = SiteAnswer;

    type Out = Option<Text>;

    ghost means = { λ key m out. out ≡ title_in (m (TitleOf key.0)) };

    ghost laws = { Prim.search rules };
}

impl Run<Site, ()> for Title {
    #[tactic(auto, using(crate::specs::SiteLaws::title_alike))]
    fn run(
        key: &(Text, ()),
        site: &mut Recorder<'_, Site>,
        _: &mut (),
    ) -> Result<Option<Text>, Fault> {
        let answer = site.ask(SiteCall::TitleOf(key.0.clone()?))?;
        Ok(answer.into_title())
    }
}
