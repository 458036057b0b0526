//! What pages are rendered to, which calls ran, and what was written to the log.

use comemo::{Cache, CacheData, Caches, Fault, How, ReadAndWrite, Top, Track, memoized_mut_with};
use comemo_site::build::{Built, Publish};
use comemo_site::html::Rendered;
use comemo_site::link::Link;
use comemo_site::log::{Log, Warning};
use comemo_site::parse::parse;
use comemo_site::render::{Kept, page_now};
use comemo_site::site::Site;
use comemo_site::table::{SharedPages, table};
use comemo_site::title::Title;
use comemo_text::Text;
use std::alloc::{AllocError, Global};
use std::sync::Wait;
use std::thread::Threads;

const HOME: &str = "# Home\n\nwelcome\n\nlink about\ninclude footer\n";

const FOOTER: &str = "back to\n\nlink home\n";

/// The footer as HTML.
const FOOTER_HTML: &[u8] = b"<p>back to</p>\n<p><a href=\"home.html\">Home</a></p>\n";

/// The page `about` as HTML, with its footer.
const ABOUT_HTML: &[u8] = b"<h1>About us</h1>\n<p>we are</p>\n<p>back to</p>\n\
    <p><a href=\"home.html\">Home</a></p>\n";

/// The page `home` as HTML, with its footer.
const HOME_HTML: &[u8] =
    b"<h1>Home</h1>\n<p>welcome</p>\n<p><a href=\"about.html\">About us</a></p>\n\
    <p>back to</p>\n<p><a href=\"home.html\">Home</a></p>\n";

/// The page `home` as HTML after `about` has another title.
const HOME_AFTER: &[u8] = b"<h1>Home</h1>\n<p>welcome</p>\n<p><a href=\"about.html\">Who</a></p>\n\
    <p>back to</p>\n<p><a href=\"home.html\">Home</a></p>\n";

fn text(alloc: Global, s: &str) -> Result<Text, AllocError> {
    Text::from_str(alloc, s)
}

/// Sets the page of a name to a source. Returns whether that worked.
pub(crate) fn is_set(alloc: Global, site: &mut Site, name: &str, source: &str) -> bool {
    let Ok(key) = String::from_str(alloc, name) else {
        return false;
    };
    let Ok(page) = parse(alloc, name, source) else {
        return false;
    };
    site.set(key, page).is_ok()
}

/// Fills a new site with three pages. Returns whether that worked.
fn is_filled(alloc: Global, site: &mut Site) -> bool {
    let about = "# About us\nwe are\ninclude footer\n";
    is_set(alloc, site, "home", HOME)
        && is_set(alloc, site, "about", about)
        && is_set(alloc, site, "footer", FOOTER)
}

/// Whether a page of the site, after an edit of another or of none, is this HTML, and so many pages and titles are
/// kept.
fn renders(
    alloc: Global,
    kept: &mut Kept,
    site: &mut Site,
    edit: (&str, &str),
    name: &str,
    html: &[u8],
    count: (usize, usize),
) -> bool {
    if edit.0 != "" && !is_set(alloc, site, edit.0, edit.1) {
        return false;
    }
    let Ok(name) = text(alloc, name) else {
        return false;
    };
    let Ok(page) = page_now(alloc, kept, site, name, 4) else {
        return false;
    };
    page.as_bytes() == html && (kept.0.len(), kept.1.len()) == count
}

/// Edits of the small site: the page that changes, if any, and its source; the page that is rendered then, and its
/// HTML; and how many pages and titles are kept.
const EDITS: &[(&str, &str, &str, &[u8], usize, usize)] = &[
    // home at 4 and footer at 3; the titles of about and of home
    ("", "", "home", HOME_HTML, 2, 2),
    // about alone: its footer is a hit
    ("", "", "about", ABOUT_HTML, 3, 2),
    // the words of about alone: home saw its title
    (
        "about",
        "# About us\nwe were\ninclude footer\n",
        "home",
        HOME_HTML,
        3,
        2,
    ),
    // the title of about: home sees it, and the footer doesn't
    (
        "about",
        "# Who\nwe were\ninclude footer\n",
        "home",
        HOME_AFTER,
        4,
        3,
    ),
];

#[test]
fn an_edit_runs_again_what_it_reaches(rt: HostRuntime) {
    let alloc = rt.alloc();
    let mut site = Site::new(alloc);
    assert!(rt; is_filled(alloc, &mut site));
    let mut kept: Kept = (CacheData::new(alloc), CacheData::new(alloc));
    for (edited, source, name, html, pages, titles) in EDITS {
        let edit = (*edited, *source);
        let is_so = renders(
            alloc,
            &mut kept,
            &mut site,
            edit,
            *name,
            *html,
            (*pages, *titles),
        );
        assert!(rt; is_so, "{name} after {edited:?} is {source:?}");
    }
    // neither was used in the last round but home and its footer, and the two titles
    kept.evict_all(1);
    let is_so = renders(
        alloc,
        &mut kept,
        &mut site,
        ("", ""),
        "home",
        HOME_AFTER,
        (4, 3),
    );
    assert!(rt; is_so);
    kept.evict_all(1);
    assert_eq!(rt; (kept.0.len(), kept.1.len()), (1, 0));
}

/// Whether the pages of a table are five, the third is this HTML, and the last is empty.
fn is_table(pages: &[Result<Rendered, Fault>], footer: &[u8]) -> bool {
    let [_, _, Ok(third), _, Ok(last)] = pages else {
        return false;
    };
    third.as_bytes() == footer && last.as_bytes().is_empty()
}

/// Adds the names of five pages, the last of which is missing. Returns whether that worked.
fn are_named(alloc: Global, names: &mut Vec<Text>) -> bool {
    let rows: &[&str] = &["home", "about", "footer", "home", "nowhere"];
    for row in rows {
        let Ok(name) = text(alloc, *row) else {
            return false;
        };
        if names.push(name).is_err() {
            return false;
        }
    }
    true
}

/// Whether threads render a table of these pages, of which the third is this HTML.
fn is_rendered<R: Threads + Wait + Sync>(
    rt: &R,
    alloc: Global,
    shared: &SharedPages,
    site: &Site,
    names: &[Text],
    footer: &[u8],
) -> bool {
    match table(rt, alloc, shared, site, names, 4) {
        Ok(pages) => is_table(pages.as_slice(), footer),
        Err(_) => false,
    }
}

#[test]
fn threads_render_a_table(rt: HostRuntime) {
    let alloc = rt.alloc();
    let mut site = Site::new(alloc);
    assert!(rt; is_filled(alloc, &mut site));
    let mut names = Vec::new(alloc);
    assert!(rt; are_named(alloc, &mut names));
    let names = names.as_slice();
    let shared: SharedPages = (Cache::new(alloc), Cache::new(alloc));
    assert!(rt; is_rendered(&rt, alloc, &shared, &site, names, FOOTER_HTML));
    assert!(rt; is_set(alloc, &mut site, "footer", "go to\n\nlink home\n"));
    let gone: &[u8] = b"<p>go to</p>\n<p><a href=\"home.html\">Home</a></p>\n";
    assert!(rt; is_rendered(&rt, alloc, &shared, &site, names, gone));
}

/// Whether a link to a page is this HTML, comes this way, and leaves so many warnings in the log.
fn links(
    alloc: Global,
    kept: &mut (CacheData<Link>, (Global, CacheData<Title>)),
    site: &Site,
    log: &mut Log,
    name: &str,
    html: &[u8],
    how: How,
    warnings: usize,
) -> bool {
    let Ok(key) = text(alloc, name) else {
        return false;
    };
    let mut both = ReadAndWrite {
        first: site.view(alloc),
        second: log,
    };
    let top = &mut Top::new();
    let Ok(reply) = memoized_mut_with(alloc, &mut kept.0, &mut kept.1, key, &mut both, top, true)
    else {
        return false;
    };
    let is_so = reply.output.as_bytes() == html && reply.how == how;
    is_so && both.second.warnings().len() == warnings
}

/// Whether the last of these warnings is of the page `lost`, which is missing.
fn ends_with_lost(warnings: &[Warning]) -> bool {
    match warnings {
        [.., Warning::Missing(name)] => name.as_str() == "lost",
        _ => false,
    }
}

#[test]
fn a_hit_warns_again(rt: HostRuntime) {
    let alloc = rt.alloc();
    let mut site = Site::new(alloc);
    assert!(rt; is_filled(alloc, &mut site));
    let mut log = Log::new(alloc);
    let mut kept = (CacheData::new(alloc), (alloc, CacheData::new(alloc)));
    let about: &[u8] = b"<p><a href=\"about.html\">About us</a></p>\n";
    let lost: &[u8] = b"<p><a href=\"lost.html\">lost</a></p>\n";
    let out: &[u8] = b"<p>../about</p>\n";
    let calls: &[(&str, &[u8], How, usize)] = &[
        ("about", about, How::Stored, 0),
        ("../about", out, How::Stored, 1),
        ("lost", lost, How::Stored, 2),
        ("lost", lost, How::Hit, 3),
    ];
    for (name, html, how, warnings) in calls {
        let is_so = links(
            alloc, &mut kept, &site, &mut log, *name, *html, *how, *warnings,
        );
        assert!(rt; is_so, "{name}");
    }
    assert!(rt; ends_with_lost(log.warnings()));
}

const ONCE: &[u8] = b"<p>see</p>\n<p><a href=\"nowhere.html\">nowhere</a></p>\n";

/// Whether these are as many copies of `ONCE`.
fn is_repeated(html: &[u8], times: usize) -> bool {
    let mut left = html;
    for _ in 0..times {
        let Some(rest) = left.strip_prefix(ONCE) else {
            return false;
        };
        left = rest;
    }
    left.is_empty()
}

/// Whether the last three warnings are of a page that is missing, of it again, and of a page that is included too deep.
fn ends_too_deep(warnings: &[Warning]) -> bool {
    match warnings {
        [
            ..,
            Warning::Missing(first),
            Warning::Missing(second),
            Warning::TooDeep(third),
        ] => {
            let are_missing = first.as_str() == "nowhere" && second.as_str() == "nowhere";
            are_missing && third.as_str() == "broken"
        }
        _ => false,
    }
}

/// Whether the page `broken`, with what it includes down to a limit, comes this way, as many times `ONCE`, and with so
/// many warnings.
fn publishes(
    alloc: Global,
    cache: &mut CacheData<Publish>,
    needs: &mut (Global, Built),
    site: &Site,
    limit: u64,
    how: How,
    times: usize,
    warnings: usize,
) -> bool {
    let Ok(name) = text(alloc, "broken") else {
        return false;
    };
    let mut log = Log::new(alloc);
    let mut both = ReadAndWrite {
        first: site.view(alloc),
        second: &mut log,
    };
    let key = (name, limit);
    let top = &mut Top::new();
    let Ok(reply) = memoized_mut_with(alloc, cache, needs, key, &mut both, top, true) else {
        return false;
    };
    let is_so = reply.how == how && is_repeated(reply.output.as_bytes(), times);
    let given = both.second.warnings();
    is_so && given.len() == warnings && ends_too_deep(given)
}

#[test]
fn a_page_that_is_a_hit_warns_again(rt: HostRuntime) {
    let alloc = rt.alloc();
    let mut site = Site::new(alloc);
    assert!(rt; is_filled(alloc, &mut site));
    let source = "see\n\nlink nowhere\ninclude broken\n";
    assert!(rt; is_set(alloc, &mut site, "broken", source));
    let mut cache: CacheData<Publish> = CacheData::new(alloc);
    let mut needs = (alloc, (CacheData::new(alloc), CacheData::new(alloc)));
    // pages that are kept stand last: broken at 3 does the warnings of broken at 2 again by a hit
    let calls: &[(u64, How, usize, usize, usize)] = &[
        (2, How::Stored, 2, 3, 2),
        (2, How::Hit, 2, 3, 2),
        (3, How::Stored, 3, 4, 3),
    ];
    for (limit, how, times, warnings, pages) in calls {
        let is_so = publishes(
            alloc, &mut cache, &mut needs, &site, *limit, *how, *times, *warnings,
        );
        assert!(rt; is_so, "{limit} by {how:?}");
        assert_eq!(rt; (needs.1.0.len(), needs.1.1.len()), (*pages, 1));
    }
}
