//! What sources are parsed to, and their documents.

use crate::builds::is_set;
use comemo::CacheData;
use comemo_site::html::{Html, Rendered};
use comemo_site::parse::parse;
use comemo_site::render::{Kept, page_now};
use comemo_site::site::Site;
use comemo_text::Text;
use std::alloc::{AllocError, Global};
use std::test::Fail;

/// Whether a source has this title.
fn is_titled(alloc: Global, source: &str, title: &str) -> bool {
    match parse(alloc, "a", source) {
        Ok(page) => page.title.as_str() == title,
        Err(_) => false,
    }
}

/// Whether a page `a` with this source, in a site with a page `b` whose title is `B & <B>`, is this HTML.
fn is_rendered(alloc: Global, source: &str, html: &[u8]) -> bool {
    let mut site = Site::new(alloc);
    if !is_set(alloc, &mut site, "a", source) || !is_set(alloc, &mut site, "b", "# B & <B>\n") {
        return false;
    }
    let Ok(name) = Text::from_str(alloc, "a") else {
        return false;
    };
    let mut kept: Kept = (CacheData::new(alloc), CacheData::new(alloc));
    match page_now(alloc, &mut kept, &site, name, 4) {
        Ok(came) => came.as_bytes() == html,
        Err(_) => false,
    }
}

#[test]
fn each_line_has_its_block(rt: HostRuntime) {
    let alloc = rt.alloc();
    let cases: &[(&str, &str, &[u8])] = &[
        ("", "a", b""),
        (" \n\r\n\n", "a", b""),
        ("# One\n# Two\n", "One", b"<h1>One</h1>\n<h1>Two</h1>\n"),
        ("## Two\n#  One \n", "One", b"<h2>Two</h2>\n<h1>One</h1>\n"),
        ("#One\n###\n", "a", b"<p>#One\n###</p>\n"),
        (
            "one\r\ntwo\r\n\r\nthree",
            "a",
            b"<p>one\ntwo</p>\n<p>three</p>\n",
        ),
        (
            "- one\n- two\n\n- three\n",
            "a",
            b"<ul>\n<li>one</li>\n<li>two</li>\n</ul>\n<ul>\n<li>three</li>\n</ul>\n",
        ),
        (
            "words\n- one\nwords",
            "a",
            b"<p>words</p>\n<ul>\n<li>one</li>\n</ul>\n<p>words</p>\n",
        ),
        ("-one\n- ", "a", b"<p>-one\n-</p>\n"),
        (
            "a < b & \"c\" > d\n",
            "a",
            b"<p>a &lt; b &amp; &quot;c&quot; &gt; d</p>\n",
        ),
        (
            "caf\u{e9} \u{1f600}\n",
            "a",
            "<p>caf\u{e9} \u{1f600}</p>\n".as_bytes(),
        ),
        (
            "link b\n",
            "a",
            b"<p><a href=\"b.html\">B &amp; &lt;B&gt;</a></p>\n",
        ),
        (
            "link no\"ne\n",
            "a",
            b"<p><a href=\"no%22ne.html\">no&quot;ne</a></p>\n",
        ),
        (
            "include b\nlink me to it\n",
            "a",
            b"<h1>B &amp; &lt;B&gt;</h1>\n<p>link me to it</p>\n",
        ),
        (
            "words\ninclude b\nwords",
            "a",
            b"<p>words</p>\n<h1>B &amp; &lt;B&gt;</h1>\n<p>words</p>\n",
        ),
        (
            "toc\nlink b\n",
            "a",
            b"<p><a href=\"b.html\">B &amp; &lt;B&gt;</a></p>\n",
        ),
        (
            "toc\ninclude none\n",
            "a",
            b"<ul>\n<li><a href=\"none.html\">none</a></li>\n</ul>\n",
        ),
        ("toc\ninclude ../b\n", "a", b"<ul>\n<li>../b</li>\n</ul>\n"),
        ("toc of it\n", "a", b"<p>toc of it</p>\n"),
    ];
    for (source, title, html) in cases {
        let has_title = is_titled(alloc, *source, *title);
        assert!(rt;
            has_title && is_rendered(alloc, *source, *html),
            "for {source:?}"
        );
    }
}

/// Whether a link to this target is a paragraph of this HTML.
fn is_linked(alloc: Global, target: &str, html: &[u8]) -> bool {
    let Ok(source) = format!(in alloc; "link {target}") else {
        return false;
    };
    let mut paragraph = Html::new(alloc);
    let is_made = paragraph.push(b"<p>").is_ok()
        && paragraph.push(html).is_ok()
        && paragraph.push(b"</p>\n").is_ok();
    is_made && is_rendered(alloc, source.as_str(), paragraph.as_bytes())
}

#[test]
fn a_link_has_its_address(rt: HostRuntime) {
    let alloc = rt.alloc();
    // the target of a link, and its HTML
    let cases: &[(&str, &[u8])] = &[
        ("hash#mark", b"<a href=\"hash%23mark.html\">hash#mark</a>"),
        (
            "per%20cent?",
            b"<a href=\"per%2520cent%3F.html\">per%20cent?</a>",
        ),
        (
            "caf\u{e9}/A-z_0.9~",
            "<a href=\"caf%C3%A9/A-z_0.9~.html\">caf\u{e9}/A-z_0.9~</a>".as_bytes(),
        ),
        (
            "https://b.org/?c=1&d=2#e",
            b"<a href=\"https://b.org/?c=1&amp;d=2#e\">https://b.org/?c=1&amp;d=2#e</a>",
        ),
        ("http:b", b"<a href=\"http:b\">http:b</a>"),
        (
            "mailto:me@b.org",
            b"<a href=\"mailto:me@b.org\">mailto:me@b.org</a>",
        ),
        (
            "javascript:b()",
            b"<a href=\"javascript%3Ab%28%29.html\">javascript:b()</a>",
        ),
        ("/b", b"/b"),
        ("//b.org", b"//b.org"),
        ("../b", b"../b"),
        ("c/../..", b"c/../.."),
        ("..b/c..", b"<a href=\"..b/c...html\">..b/c..</a>"),
    ];
    for (target, html) in cases {
        assert!(rt; is_linked(alloc, *target, *html), "for {target:?}");
    }
}

/// What a document has before its base, before its title, before its content and at its end.
const HEAD: &[u8] =
    b"<!DOCTYPE html>\n<!-- Made by site -->\n<html lang=\"en\">\n<head>\n<meta charset=\"utf-8\">\n\
    <meta name=\"viewport\" content=\"width=device-width, initial-scale=1\">\n<style>\n\
    :root { color-scheme: light dark; }\n\
    body { max-width: 42rem; margin: auto; padding: 1rem; font-family: system-ui, sans-serif; \
    line-height: 1.5; overflow-wrap: break-word; }\n</style>\n<base href=\"";

const TITLE: &[u8] = b"\">\n<title>";

const BODY: &[u8] = b"</title>\n</head>\n<body>\n<main>\n";

const END: &[u8] = b"</main>\n</body>\n</html>\n";

/// Whether a document has this base, title and content.
pub(crate) fn is_framed(document: &[u8], base: &[u8], title: &[u8], content: &[u8]) -> bool {
    let parts: &[&[u8]] = &[HEAD, base, TITLE, title, BODY, content, END];
    let mut left = document;
    for part in parts {
        let Some(rest) = left.strip_prefix(*part) else {
            return false;
        };
        left = rest;
    }
    left.is_empty()
}

/// Whether the document of a page of this name, whose title is `R&D`, has this base.
fn has_base(alloc: Global, name: &str, body: &Rendered, base: &[u8]) -> bool {
    let Ok(title) = Text::from_str(alloc, "R&D") else {
        return false;
    };
    let Ok(name) = Text::from_str(alloc, name) else {
        return false;
    };
    let Ok(document) = Html::document(alloc, &title, &name, body) else {
        return false;
    };
    is_framed(document.as_bytes(), base, b"R&amp;D", b"<p>x</p>\n")
}

/// The paragraph `x`.
fn paragraph(alloc: Global) -> Result<Rendered, AllocError> {
    let mut body = Html::new(alloc);
    body.push(b"<p>x</p>\n")?;
    body.finish()
}

#[test]
fn a_document_has_its_title_and_the_way_up(rt: HostRuntime) -> Result<(), Fail> {
    let alloc = rt.alloc();
    let body = paragraph(alloc)?;
    assert!(rt; has_base(alloc, "a", &body, b"./"));
    assert!(rt; has_base(alloc, "b/c/a", &body, b"./../../"));
    Ok(())
}
