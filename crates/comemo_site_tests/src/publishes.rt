//! A site of ten pages: its documents, its warnings, and what an edit renders again and why.

ghost use Rattle.std.specs.Prelude.{◌<◌};

use crate::builds::is_set;
use crate::sources::is_framed;
use comemo::{Cache, Fault, MultiCall};
use comemo_dependents::Dependents;
use comemo_site::html::Html;
use comemo_site::log::Warning;
use comemo_site::names::{document_path, page_name};
use comemo_site::publish::{Published, Settings, SharedBuilt, publish_all};
use comemo_site::report::{Fate, Summary, fate_of, round_line, warning_line};
use comemo_site::site::{Site, SiteCall};
use comemo_site::tally::Tally;
use comemo_text::Text;
use std::alloc::Global;
use std::collections::BTreeSet;
use std::sync::Wait;
use std::test::Fail;
use std::thread::Threads;

/// The names of the pages, in order, with their sources.
const PAGES: &[(&str, &str)] = &[
    (
        "about",
        "# About us\n\nThree people & one gauge.\n\ninclude footer\n",
    ),
    ("broken", "# Broken\nlink nowhere\ninclude lost\n"),
    ("contact", "# Contact\n- ring\n- write\n\ninclude footer\n"),
    ("empty", ""),
    ("footer", "Made by hand.\n\nlink index\n"),
    ("guide/start", "# Start here\n\nlink guide/units\n"),
    ("guide/units", "# Units\n\n1 inch > 25 mm\n"),
    (
        "index",
        "# The rain gauge\ntoc\ninclude news\nlink about\ninclude footer\n",
    ),
    ("loop", "# Loop\ninclude loop\n"),
    ("news", "## March\nIt rained.\n"),
];

/// The content of `index`.
const INDEX: &[u8] = b"<h1>The rain gauge</h1>\n<ul>\n\
    <li><a href=\"news.html\">news</a></li>\n<li><a href=\"footer.html\">footer</a></li>\n</ul>\n\
    <h2>March</h2>\n<p>It rained.</p>\n<p><a href=\"about.html\">About us</a></p>\n\
    <p>Made by hand.</p>\n<p><a href=\"index.html\">The rain gauge</a></p>\n";

/// The content of `guide/start`.
const START: &[u8] = b"<h1>Start here</h1>\n<p><a href=\"guide/units.html\">Units</a></p>\n";

/// The content of `loop`, which is in itself down to the limit.
const LOOP: &[u8] = b"<h1>Loop</h1>\n<h1>Loop</h1>\n<h1>Loop</h1>\n";

/// Fills a new site with the ten pages, and a list with their names. Returns whether that worked.
fn are_filled(alloc: Global, site: &mut Site, names: &mut Vec<Text>) -> bool {
    for (name, source) in PAGES {
        let Ok(text) = Text::from_str(alloc, *name) else {
            return false;
        };
        if names.push(text).is_err() || !is_set(alloc, site, *name, *source) {
            return false;
        }
    }
    true
}

/// What ends a line.
const LINE_END: &[u8] = b"\n";

/// What stands between two names.
const SPACE: &[u8] = b" ";

/// A text without a word that it begins with and what ends the word; `None` if it doesn't begin so.
fn without<'a>(text: &'a [u8], word: &[u8], end: &[u8]) -> Option<&'a [u8]> {
    text.strip_prefix(word)?.strip_prefix(end)
}

/// Whether the pages were rendered again for these reasons, a line for each.
fn are_explained(
    alloc: Global,
    names: &[Text],
    pages: &[Result<Published, Fault>],
    expected: &str,
) -> bool {
    let mut left = expected.as_bytes();
    for (name, page) in names.iter().zip(pages) {
        let Ok(page) = page else {
            return false;
        };
        if let Some(reason) = &page.reason {
            let Ok(line) = reason.line(alloc, name.as_str()) else {
                return false;
            };
            let Some(rest) = without(left, line.as_bytes(), LINE_END) else {
                return false;
            };
            left = rest;
        }
    }
    left.is_empty()
}

/// How many calls ran and were hits.
fn tally_of(pages: &[Result<Published, Fault>]) -> Tally {
    let mut tally = Tally::new();
    for page in pages {
        if let Ok(page) = page {
            tally.add(page.tally);
        }
    }
    tally
}

/// Whether the document of the page at a place has this base, title and content.
fn is_document(
    pages: &[Result<Published, Fault>],
    place: usize,
    base: &[u8],
    title: &[u8],
    content: &[u8],
) -> bool {
    match pages.get(place) {
        Some(Ok(page)) => is_framed(page.document.as_bytes(), base, title, content),
        _ => false,
    }
}

/// Whether these are the warnings of all pages, a line for each.
fn is_said(
    alloc: Global,
    names: &[Text],
    pages: &[Result<Published, Fault>],
    expected: &str,
) -> bool {
    let mut left = expected.as_bytes();
    for (name, page) in names.iter().zip(pages) {
        let Ok(page) = page else {
            return false;
        };
        for warning in &page.warnings {
            let Ok(line) = warning_line(alloc, name.as_str(), warning) else {
                return false;
            };
            let Some(rest) = without(left, line.as_bytes(), LINE_END) else {
                return false;
            };
            left = rest;
        }
    }
    left.is_empty()
}

const SETTINGS: Settings = Settings {
    limit: 3,
    jobs: 3,
    explains: true,
};

/// The warnings of the ten pages.
const WARNINGS: &str = "broken: no page is named nowhere\nbroken: no page is named lost\n\
    loop: loop is included too deep\n";

/// Whether these are the documents and the warnings of the ten pages.
fn are_ten(alloc: Global, names: &[Text], pages: &[Result<Published, Fault>]) -> bool {
    let are_first = is_document(pages, 3, b"./", b"empty", b"")
        && is_document(pages, 5, b"./../", b"Start here", START);
    let are_last = is_document(pages, 7, b"./", b"The rain gauge", INDEX)
        && is_document(pages, 8, b"./", b"Loop", LOOP);
    pages.len() == 10 && are_first && are_last && is_said(alloc, names, pages, WARNINGS)
}

/// Whether the ten pages of a site are published as such.
fn are_published<R: Threads + Wait + Sync>(
    rt: &R,
    alloc: Global,
    shared: &SharedBuilt,
    site: &Site,
    names: &[Text],
) -> bool {
    match publish_all(rt, alloc, shared, site, names, SETTINGS) {
        Ok(pages) => are_ten(alloc, names, pages.as_slice()),
        Err(_) => false,
    }
}

#[test]
fn ten_pages_are_published(rt: HostRuntime) {
    let alloc = rt.alloc();
    let mut site = Site::new(alloc);
    let mut names = Vec::new(alloc);
    assert!(rt; are_filled(alloc, &mut site, &mut names));
    let names = names.as_slice();
    let shared: SharedBuilt = (Cache::new(alloc), Cache::new(alloc));
    // by runs, and then by hits
    for _ in 0..2 {
        assert!(rt; are_published(&rt, alloc, &shared, &site, names));
    }
}

/// Why the ten pages are rendered if nothing is kept.
const NEW: &str =
    "about: it is new\nbroken: it is new\ncontact: it is new\nempty: it is new\nfooter: it is new\n\
         guide/start: it is new\nguide/units: it is new\nindex: it is new\nloop: it is new\nnews: it is new\n";

/// Edits of the ten pages: the name of a page, or none, its new source, and why pages are rendered again.
const EDITS: &[(&str, &str, &str)] = &[
    // nothing: each page is new
    ("", "", NEW),
    (
        "about",
        "# About us\n\nFour people.\n\ninclude footer\n",
        "about: its text changed\n",
    ),
    (
        "about",
        "# Who we are\n\nFour people.\n\ninclude footer\n",
        "about: its text changed\nindex: the title of about changed\n",
    ),
    (
        "news",
        "It snowed.\n",
        "index: the text of news changed\nnews: its text changed\n",
    ),
    ("lost", "Found.\n", "broken: the text of lost changed\n"),
    ("lost", "Found.\n", ""),
];

/// Whether the pages of a site are rendered again for these reasons. How many calls ran and were hits, too.
fn explains<R: Threads + Wait + Sync>(
    rt: &R,
    alloc: Global,
    shared: &SharedBuilt,
    site: &Site,
    names: &[Text],
    settings: Settings,
    expected: &str,
) -> Option<Tally>
    requires { 0 < settings.jobs }
{
    let Ok(pages) = publish_all(rt, alloc, shared, site, names, settings) else {
        return None;
    };
    if are_explained(alloc, names, pages.as_slice(), expected) {
        Some(tally_of(pages.as_slice()))
    } else {
        None
    }
}

#[test]
fn an_edit_is_explained(rt: HostRuntime) {
    let alloc = rt.alloc();
    let mut site = Site::new(alloc);
    let mut names = Vec::new(alloc);
    assert!(rt; are_filled(alloc, &mut site, &mut names));
    let names = names.as_slice();
    let shared: SharedBuilt = (Cache::new(alloc), Cache::new(alloc));
    for (name, source, expected) in EDITS {
        let is_ready = *name == "" || is_set(alloc, &mut site, *name, *source);
        assert!(rt; is_ready, "{name:?} is {source:?}");
        let said = explains(&rt, alloc, &shared, &site, names, SETTINGS, *expected);
        assert!(rt; said.is_some(), "{name:?} is {source:?}");
    }
    // gone again: as before, so each page is a hit
    site.remove("lost");
    let again = explains(&rt, alloc, &shared, &site, names, SETTINGS, "");
    assert!(rt; again == Some(Tally { runs: 0, hits: 10 }));
    // nothing is kept: the ten pages, the three that are in others, and twice the one that is in itself
    shared.0.evict(&rt, 0);
    let one = Settings {
        jobs: 1,
        ..SETTINGS
    };
    let anew = explains(&rt, alloc, &shared, &site, names, one, NEW);
    assert!(rt; anew == Some(Tally { runs: 15, hits: 2 }));
}

/// Pages by what was asked of the site for them.
type Asked = Dependents<Text, MultiCall<SiteCall, Warning>>;

/// Notes what these pages rest on. Returns whether that worked.
fn are_noted(index: &mut Asked, names: &[Text], pages: &[Result<Published, Fault>]) -> bool {
    for (name, page) in names.iter().zip(pages) {
        let Ok(page) = page else {
            return false;
        };
        let Ok(own) = name.clone() else {
            return false;
        };
        if index.note(own, &page.reads).is_err() {
            return false;
        }
    }
    true
}

/// Whether a change reaches just these pages, each followed by a space.
fn reaches(alloc: Global, index: &Asked, is_title: bool, name: &str, expected: &str) -> bool {
    let Ok(changed) = Text::from_str(alloc, name) else {
        return false;
    };
    let changed = if is_title {
        [MultiCall::A(SiteCall::TitleOf(changed))]
    } else {
        [MultiCall::A(SiteCall::BlocksOf(changed))]
    };
    let Ok(reached) = index.reached(changed.as_slice()) else {
        return false;
    };
    let mut sorted = BTreeSet::new(alloc);
    for name in reached {
        let Ok(own) = name.clone() else {
            return false;
        };
        if sorted.insert(own).is_err() {
            return false;
        }
    }
    let mut left = expected.as_bytes();
    for name in &sorted {
        let Some(rest) = without(left, name.as_str().as_bytes(), SPACE) else {
            return false;
        };
        left = rest;
    }
    left.is_empty()
}

#[test]
fn a_change_reaches_who_asked(rt: HostRuntime) -> Result<(), Fail> {
    let alloc = rt.alloc();
    let mut site = Site::new(alloc);
    let mut names = Vec::new(alloc);
    assert!(rt; are_filled(alloc, &mut site, &mut names));
    let names = names.as_slice();
    let shared: SharedBuilt = (Cache::new(alloc), Cache::new(alloc));
    let pages = publish_all(&rt, alloc, &shared, &site, names, SETTINGS)?;
    let mut index = Dependents::new(alloc);
    // noted again, a page is reached as before
    for _ in 0..2 {
        assert!(rt; are_noted(&mut index, names, pages.as_slice()));
    }
    let changes: &[(bool, &str, &str)] = &[
        (false, "footer", "about contact footer index "),
        (true, "footer", "index "),
        (true, "index", "about contact footer index "),
        (false, "news", "index news "),
        (true, "nowhere", "broken "),
        (false, "lost", "broken "),
        (false, "other", ""),
    ];
    for (is_title, name, expected) in changes {
        let is_so = reaches(alloc, &index, *is_title, *name, *expected);
        assert!(rt; is_so, "{name}, its title: {is_title}");
    }
    Ok(())
}

/// Files of other bytes than those of a document: whether any may be replaced, and what becomes of them.
const FATES: &[(&[u8], bool, Fate)] = &[
    (b"", false, Fate::Kept),
    (b"", true, Fate::Written),
    (b"<!DOCTYPE html>\n<html>\n", false, Fate::Kept),
    (b"<!DOCTYPE html>\n<html>\n", true, Fate::Written),
    (b"<!-- Made by site -->\n", false, Fate::Kept),
    (
        b"<!DOCTYPE html>\n<!-- Made by site -->\n",
        false,
        Fate::Written,
    ),
];

/// Whether the file of a document becomes what it should.
fn has_fates(document: &Html, other: &Html) -> bool {
    let is_new = fate_of(None, document, false) == Fate::Written;
    let is_same = fate_of(Some(document.as_bytes()), document, true) == Fate::Unchanged;
    let is_next = fate_of(Some(other.as_bytes()), document, false) == Fate::Written;
    let mut are_so = is_new && is_same && is_next;
    for (bytes, is_forced, fate) in FATES {
        let came = fate_of(Some(*bytes), document, *is_forced);
        are_so = are_so && came == *fate;
    }
    are_so
}

/// Whether the file of the fourth of these pages becomes what it should.
fn is_written_if_new(pages: &[Result<Published, Fault>]) -> bool {
    let Some(Ok(page)) = pages.get(3) else {
        return false;
    };
    let Some(Ok(other)) = pages.get(5) else {
        return false;
    };
    has_fates(&page.document, &other.document)
}

#[test]
fn a_document_is_written_if_it_is_new(rt: HostRuntime) -> Result<(), Fail> {
    let alloc = rt.alloc();
    let mut site = Site::new(alloc);
    let mut names = Vec::new(alloc);
    assert!(rt; are_filled(alloc, &mut site, &mut names));
    let shared: SharedBuilt = (Cache::new(alloc), Cache::new(alloc));
    let pages = publish_all(&rt, alloc, &shared, &site, names.as_slice(), SETTINGS)?;
    assert!(rt; is_written_if_new(pages.as_slice()));
    Ok(())
}

/// Whether the line of a round is as its documentation says.
fn is_round_line(alloc: Global) -> bool {
    let mut tally = Tally::new();
    tally.count_run();
    tally.count_hit();
    let same = tally;
    tally.add(same);
    let Ok(line) = round_line(alloc, 7, 1, tally, 12) else {
        return false;
    };
    line.as_str() == "round 7: pages changed 1, calls run 2, calls hit 2, 12 ms"
}

/// Whether the line of a summary is as its documentation says.
fn is_summary_line(alloc: Global) -> bool {
    let mut summary = Summary::new();
    summary.written = 3;
    let Ok(line) = summary.line(alloc) else {
        return false;
    };
    line.as_str() == "written 3, unchanged 0, failed 0, warnings 0"
}

/// Whether the path of a document is as its documentation says.
fn is_path(alloc: Global) -> bool {
    let Ok(path) = document_path(alloc, "a/b") else {
        return false;
    };
    path.as_str() == "a/b.html"
}

#[test]
fn reports_are_printed(rt: HostRuntime) {
    let alloc = rt.alloc();
    assert!(rt; is_round_line(alloc));
    assert!(rt; is_summary_line(alloc));
    assert!(rt; is_path(alloc));
    assert!(rt; page_name("a/b.md") == Some("a/b"));
    assert!(rt; page_name("b.txt") == Some("b"));
    assert!(rt; page_name("b.html") == None);
}
