//! What is written and printed of a build.
ghost use Rattle.std.specs.Prelude.{◌≡◌, IfOk, option_copied, string_bytes};
ghost use Rattle.comemo_site.specs.Reports.{fate_of, round_text, summary_text, warning_text};

use crate::html::{Html, is_marked};
use crate::log::Warning;
use crate::tally::Tally;
use std::alloc::{AllocError, Global};

/// What becomes of the file of a document.
#[derive(Clone, Copy, PartialEq, Eq)]
pub enum Fate {
    /// It holds the document already.
    Unchanged,
    /// The document is written to it.
    Written,
    /// It is no document, and stays.
    Kept,
}

/// What becomes of the file of a document, which holds these bytes: `None` if there is no such file.
///
/// A file that is no document is replaced only if that is forced.
pub fn fate_of(there: Option<&[u8]>, document: &Html, is_forced: bool) -> Fate
    ensures { result ≡ fate_of (option_copied there.entry) document.now is_forced }
{
    let Some(bytes) = there else {
        return Fate::Written;
    };
    if bytes == document.as_bytes() {
        return Fate::Unchanged;
    }
    if is_forced || is_marked(bytes) {
        return Fate::Written;
    }
    Fate::Kept
}

/// The line about a warning of a page.
pub fn warning_line(alloc: Global, page: &str, warning: &Warning) -> Result<String, AllocError>
    ensures { IfOk result (λ line. string_bytes line ≡ warning_text page.now warning.now) }
{
    match warning {
        Warning::Missing(name) => {
            let name = name.as_str();
            format!(in alloc; "{page}: no page is named {name}")
        }
        Warning::TooDeep(name) => {
            let name = name.as_str();
            format!(in alloc; "{page}: {name} is included too deep")
        }
    }
}

/// What became of the pages of a build.
#[derive(Clone, Copy, Debug, PartialEq, Eq)]
pub struct Summary {
    /// The pages whose documents were written.
    pub written: u64,
    /// The pages whose documents were there already.
    pub unchanged: u64,
    /// The pages that were not built or not written.
    pub failed: u64,
    /// The warnings.
    pub warnings: u64,
}

impl Summary {
    /// Of no pages.
    pub fn new() -> Self
        ensures { result ≡ record { written = 0; unchanged = 0; failed = 0; warnings = 0 } }
    {
        Summary {
            written: 0,
            unchanged: 0,
            failed: 0,
            warnings: 0,
        }
    }

    /// The line about a build.
    pub fn line(&self, alloc: Global) -> Result<String, AllocError>
        ensures { IfOk result (λ line. string_bytes line ≡ summary_text self.now) }
    {
        let Summary {
            written,
            unchanged,
            failed,
            warnings,
        } = *self;
        format!(in alloc;
            "written {written}, unchanged {unchanged}, failed {failed}, warnings {warnings}"
        )
    }
}

/// The line about a round: its number, the pages that changed, the calls, and how long it took.
pub fn round_line(
    alloc: Global,
    round: u64,
    changed: u64,
    tally: Tally,
    milliseconds: u64,
) -> Result<String, AllocError>
    ensures { IfOk result
        (λ line. string_bytes line ≡ round_text round changed tally milliseconds) }
{
    let Tally { runs, hits } = tally;
    format!(in alloc;
        "round {round}: pages changed {changed}, calls run {runs}, calls hit {hits}, {milliseconds} ms"
    )
}
