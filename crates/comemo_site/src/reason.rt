//! Why a page is rendered again.
ghost use Rattle.std.specs.Prelude.{◌≡◌, ◌++◌, codes, true, IfOk, string_bytes};
ghost use Rattle.comemo.specs.Held.{Held};
ghost use Rattle.comemo.specs.Meaning.{invocation};
ghost use Rattle.comemo.specs.Multi.{part_answers};
ghost use Rattle.comemo.specs.Explaining.{Explains};
ghost use Rattle.comemo_site.specs.Reasons.{reason_of, reason_text};
ghost use Rattle.comemo_site.specs.Sites.{site_answer};

use crate::build::Build;
use crate::log::{Log, Warning};
use crate::site::{Site, SiteAnswer, SiteCall};
use comemo::internal::Meant;
use comemo::{Explanation, Hold, MultiAnswer, MultiCall, ReadAndWrite, Track, explain};
use comemo_text::Text;
use std::alloc::{AllocError, Global};

/// Why a page is rendered again.
#[derive(Clone, Drop, Debug, PartialEq, Eq)]
pub enum Reason {
    /// Nothing is kept of it.
    New,
    /// The text of the page of this name changed: its own, or that of a page in it.
    Text(Text),
    /// The title of the page of this name changed.
    Title(Text),
}

impl Reason {
    /// The reason in an explanation; `None` if the page is a hit.
    pub fn of(
        said: Explanation<MultiCall<SiteCall, Warning>, MultiAnswer<SiteAnswer, ()>>,
    ) -> Option<Self>
        ensures { result ≡ reason_of said }
    {
        match said {
            Explanation::Hit => None,
            Explanation::NeverKept => Some(Reason::New),
            Explanation::Changed { call, .. } => match call {
                MultiCall::A(SiteCall::TitleOf(name)) => Some(Reason::Title(name)),
                MultiCall::A(SiteCall::BlocksOf(name)) => Some(Reason::Text(name)),
                // A warning is never asked.
                MultiCall::B(_) => None,
            },
        }
    }

    /// The line that says why the page of a name is rendered again.
    pub fn line(&self, alloc: Global, page: &str) -> Result<String, AllocError>
        ensures { IfOk result (λ line. string_bytes line ≡ reason_text page.now self.now) }
    {
        match self {
            Reason::New => format!(in alloc; "{page}: it is new"),
            Reason::Text(name) if name.as_str() == page => {
                format!(in alloc; "{page}: its text changed")
            }
            Reason::Text(name) => changed(alloc, page, "text", name.as_str()),
            Reason::Title(name) => changed(alloc, page, "title", name.as_str()),
        }
    }
}

/// The line that says what of another page changed.
fn changed(alloc: Global, page: &str, what: &str, name: &str) -> Result<String, AllocError>
    ensures { IfOk result (λ line. string_bytes line ≡ page.now ++ codes ": the " ++ what.now
        ++ codes " of " ++ name.now ++ codes " changed") }
{
    format!(in alloc; "{page}: the {what} of {name} changed")
}

/// Why the page of a name would be rendered again now; `None` if it is a hit. Nothing changes.
pub fn reason_now<B: Hold<Build>>(
    alloc: Global,
    cache: &mut B,
    site: &Site,
    name: &Text,
    limit: u64,
) -> Result<Option<Reason>, AllocError>
    ensures { IfOk result (λ reason. (said : _) × (reason ≡ reason_of said)
        × Held (B.entries cache.old) (λ es. Explains ⟦<Build as Meant>⟧.meaning es
        (invocation (name.now, limit) (part_answers (site_answer site.now.pages) (λ _. tt)) true)
        said)) }
{
    let mut log = Log::new(alloc);
    let both = ReadAndWrite {
        first: site.view(alloc),
        second: &mut log,
    };
    let key = (name.clone()?, limit);
    let said = explain(alloc, cache, &key, &both)?;
    Ok(Reason::of(said))
}
