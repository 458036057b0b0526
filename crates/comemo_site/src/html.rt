//! HTML, and what blocks, links and documents are in it.
ghost use Rattle.std.specs.Prelude.{◌≡◌, ◌++◌, [], codes, unwrap_or, OnOk, OnErr, IfOk};
ghost use Rattle.comemo_site.specs.Addresses.{encode, encoded};
ghost use Rattle.comemo_site.specs.Html.{escape, escaped, element, anchor_html, outside_html, plain_html, upward, upwards, is_marked, document_html};

use crate::address::{is_unreserved, leads_out};
use crate::block::Plain;
use comemo_text::Text;
use percent_encoding::percent_encode_byte;
use std::alloc::{AllocError, Global};
use std::marker::Model;
use std::sync::ArcSlice;

/// The first lines of each document, by which it is known.
const MARK: &[u8] = b"<!DOCTYPE html>\n<!-- Made by site -->\n";

/// A document up to the way to the folder of its site.
const HEAD: &[u8] =
    b"<!DOCTYPE html>\n<!-- Made by site -->\n<html lang=\"en\">\n<head>\n<meta charset=\"utf-8\">\n\
    <meta name=\"viewport\" content=\"width=device-width, initial-scale=1\">\n\
    <style>\n:root { color-scheme: light dark; }\n\
    body { max-width: 42rem; margin: auto; padding: 1rem; font-family: system-ui, sans-serif; \
    line-height: 1.5; overflow-wrap: break-word; }\n</style>\n<base href=\"./";

/// What follows, up to the title.
const TITLE: &[u8] = b"\">\n<title>";

/// What follows, up to the page.
const BODY: &[u8] = b"</title>\n</head>\n<body>\n<main>\n";

/// The end of a document.
const END: &[u8] = b"</main>\n</body>\n</html>\n";

/// Whether bytes begin as a document does.
pub fn is_marked(bytes: &[u8]) -> bool
    ensures { result ≡ is_marked bytes.now }
{
    bytes.starts_with(MARK)
}

/// HTML that grows. Contracts see its bytes.
#[derive(Drop)]
pub struct Html {
    bytes: Vec<u8>,
}

impl Model for Html {
    ghost use Rattle.std.specs.Prelude.{ℕ, List};

    ghost Value = { List ℕ };

    ghost view = { λ html. html.bytes.items };
}

/// HTML that is finished: contracts see its bytes, and its clones share them.
#[derive(Drop)]
pub struct Rendered {
    // The bytes; none if there is nothing.
    shared: Option<ArcSlice<u8>>,
}

impl Model for Rendered {
    ghost use Rattle.std.specs.Prelude.{ℕ, List, [], option_map, unwrap_or};
    ghost use Rattle.std.specs.Arc.{arc_slice_items};

    ghost Value = { List ℕ };

    ghost view = { λ html. unwrap_or (option_map arc_slice_items html.shared) [] };
}

impl Clone for Rendered {
    ghost is_clone = { λ html copy. copy ≡ html };

    fn clone(&self) -> Result<Self, AllocError> {
        let shared = self.shared.clone()?;
        Ok(Rendered { shared })
    }
}

impl Rendered {
    /// Nothing. Does not allocate.
    pub fn new() -> Self
        ensures { result ≡ [] }
    {
        Rendered { shared: None }
    }

    /// The bytes.
    pub fn as_bytes(&self) -> &[u8]
        ensures { result.now ≡ self.now }
    {
        match &self.shared {
            Some(bytes) => bytes.as_slice(),
            None => &[],
        }
    }

    /// A block that prints the same whatever the site is.
    pub fn of_plain(alloc: Global, plain: &Plain) -> Result<Self, AllocError>
        ensures { IfOk result (λ html. html ≡ plain_html plain.now) }
    {
        Html::of_plain(alloc, plain)?.finish()
    }

    /// A link to a page as a paragraph: its title, or its name if it is missing.
    pub fn link(alloc: Global, title: Option<Text>, page: &Text) -> Result<Self, AllocError>
        ensures { IfOk result (λ html. html
            ≡ element (codes "p") (anchor_html (unwrap_or title page.now) page.now)) }
    {
        Html::of_link(alloc, "p", title, page)?.finish()
    }

    /// A link to a page in a list: its title, or its name if it is missing.
    pub fn entry(alloc: Global, title: Option<Text>, page: &Text) -> Result<Self, AllocError>
        ensures { IfOk result (λ html. html
            ≡ element (codes "li") (anchor_html (unwrap_or title page.now) page.now)) }
    {
        Html::of_link(alloc, "li", title, page)?.finish()
    }
}

impl Html {
    /// Nothing. Does not allocate.
    pub fn new(alloc: Global) -> Self
        ensures { result ≡ [] }
    {
        Html {
            bytes: Vec::new(alloc),
        }
    }

    /// A text, escaped.
    pub fn of_text(alloc: Global, text: &str) -> Result<Self, AllocError>
        ensures { IfOk result (λ html. html ≡ escaped text.now) }
    {
        let mut html = Html::new(alloc);
        html.push_text(text)?;
        Ok(html)
    }

    /// The bytes.
    pub fn as_bytes(&self) -> &[u8]
        ensures { result.now ≡ self.now }
    {
        self.bytes.as_slice()
    }

    /// This HTML, finished. Its bytes are not copied. Fails if out of memory.
    pub fn finish(self) -> Result<Rendered, AllocError>
        ensures { IfOk result (λ html. html ≡ self) }
    {
        let shared = ArcSlice::from_vec(self.bytes)?;
        Ok(Rendered {
            shared: Some(shared),
        })
    }

    /// Appends HTML. Fails if out of memory; then nothing is appended.
    pub fn push(&mut self, html: &[u8]) -> Result<(), AllocError>
        ensures ok { OnOk result (self.new ≡ self.old ++ html.now) }
        ensures err { OnErr result (self.new ≡ self.old) }
    {
        self.bytes.extend_from_slice(html)
    }

    /// Appends a text, escaped. Fails if out of memory; then a part of it is appended.
    pub fn push_text(&mut self, text: &str) -> Result<(), AllocError>
        ensures { OnOk result (self.new ≡ self.old ++ escaped text.now) }
    {
        for byte in text.as_bytes() {
            self.push_byte(*byte)?;
        }
        Ok(())
    }

    /// Appends a byte of a text, escaped. Fails if out of memory; then nothing is appended.
    fn push_byte(&mut self, byte: u8) -> Result<(), AllocError>
        ensures { OnOk result (self.new ≡ self.old ++ escape byte) }
    {
        match byte {
            b'&' => self.push(b"&amp;"),
            b'<' => self.push(b"&lt;"),
            b'>' => self.push(b"&gt;"),
            b'"' => self.push(b"&quot;"),
            _ => self.push(&[byte]),
        }
    }

    /// Appends a name as it stands in an address. Fails if out of memory; then a part of it is appended.
    fn push_name(&mut self, name: &str) -> Result<(), AllocError>
        ensures { OnOk result (self.new ≡ self.old ++ encoded name.now) }
    {
        for byte in name.as_bytes() {
            self.push_name_byte(*byte)?;
        }
        Ok(())
    }

    /// Appends a byte of a name as it stands in an address. Fails if out of memory.
    fn push_name_byte(&mut self, byte: u8) -> Result<(), AllocError>
        ensures { OnOk result (self.new ≡ self.old ++ encode byte) }
    {
        if is_unreserved(byte) {
            return self.push(&[byte]);
        }
        self.push(percent_encode_byte(byte).as_bytes())
    }

    /// An element of this name around HTML, on lines of its own.
    fn tagged(alloc: Global, name: &str, inner: &Html) -> Result<Self, AllocError>
        ensures { IfOk result (λ html. html ≡ element name.now inner.now) }
    {
        let mut html = Html::new(alloc);
        html.push(b"<")?;
        html.push(name.as_bytes())?;
        html.push(b">")?;
        html.push(inner.as_bytes())?;
        html.push(b"</")?;
        html.push(name.as_bytes())?;
        html.push(b">\n")?;
        Ok(html)
    }

    /// An element of this name around a text.
    fn of_words(alloc: Global, name: &str, words: &Text) -> Result<Self, AllocError>
        ensures { IfOk result (λ html. html ≡ element name.now (escaped words.now)) }
    {
        let inner = Html::of_text(alloc, words.as_str())?;
        Html::tagged(alloc, name, &inner)
    }

    /// A block that prints the same whatever the site is.
    fn of_plain(alloc: Global, plain: &Plain) -> Result<Self, AllocError>
        ensures { IfOk result (λ html. html ≡ plain_html plain.now) }
    {
        match plain {
            Plain::Heading(words) => Html::of_words(alloc, "h1", words),
            Plain::Subheading(words) => Html::of_words(alloc, "h2", words),
            Plain::Paragraph(words) => Html::of_words(alloc, "p", words),
            Plain::Outside(address) => Html::of_outside(alloc, address),
            Plain::ListStart => Html::of_markup(alloc, b"<ul>\n"),
            Plain::Item(words) => Html::of_words(alloc, "li", words),
            Plain::ListEnd => Html::of_markup(alloc, b"</ul>\n"),
        }
    }

    /// HTML as it stands.
    fn of_markup(alloc: Global, markup: &[u8]) -> Result<Self, AllocError>
        ensures { IfOk result (λ html. html ≡ markup.now) }
    {
        let mut html = Html::new(alloc);
        html.push(markup)?;
        Ok(html)
    }

    /// A paragraph of a link to an address, which prints it.
    fn of_outside(alloc: Global, address: &Text) -> Result<Self, AllocError>
        ensures { IfOk result (λ html. html
            ≡ element (codes "p") (outside_html address.now)) }
    {
        let mut html = Html::new(alloc);
        html.push(b"<a href=\"")?;
        html.push_text(address.as_str())?;
        html.push(b"\">")?;
        html.push_text(address.as_str())?;
        html.push(b"</a>")?;
        Html::tagged(alloc, "p", &html)
    }

    /// A link to the page of a name that prints this title. If the name leads out of the site, the title alone.
    fn anchor(alloc: Global, title: &Text, name: &Text) -> Result<Self, AllocError>
        ensures { IfOk result (λ html. html ≡ anchor_html title.now name.now) }
    {
        if leads_out(name.as_str()) {
            return Html::of_text(alloc, title.as_str());
        }
        let mut html = Html::new(alloc);
        html.push(b"<a href=\"")?;
        html.push_name(name.as_str())?;
        html.push(b".html\">")?;
        html.push_text(title.as_str())?;
        html.push(b"</a>")?;
        Ok(html)
    }

    /// An element around a link to a page: its title, or its name if it is missing.
    fn of_link(
        alloc: Global,
        name: &str,
        title: Option<Text>,
        page: &Text,
    ) -> Result<Self, AllocError>
        ensures { IfOk result (λ html. html
            ≡ element name.now (anchor_html (unwrap_or title page.now) page.now)) }
    {
        let inner = match title {
            Some(title) => Html::anchor(alloc, &title, page)?,
            None => Html::anchor(alloc, page, page)?,
        };
        Html::tagged(alloc, name, &inner)
    }

    /// The document of a page of this name and title. Its links lead from the folder of the site.
    pub fn document(
        alloc: Global,
        title: &Text,
        name: &Text,
        body: &Rendered,
    ) -> Result<Self, AllocError>
        ensures { IfOk result (λ html. html ≡ document_html title.now name.now body.now) }
    {
        let mut html = Html::new(alloc);
        html.push(HEAD)?;
        html.push_upwards(name.as_str())?;
        html.push(TITLE)?;
        html.push_text(title.as_str())?;
        html.push(BODY)?;
        html.push(body.as_bytes())?;
        html.push(END)?;
        Ok(html)
    }

    /// Appends the way from a page's folder to the site's. Fails if out of memory, with a part of it.
    fn push_upwards(&mut self, name: &str) -> Result<(), AllocError>
        ensures { OnOk result (self.new ≡ self.old ++ upwards name.now) }
    {
        for byte in name.as_bytes() {
            self.push_upward(*byte)?;
        }
        Ok(())
    }

    /// Appends the way out of a folder, at the byte that ends its name. Fails if out of memory.
    fn push_upward(&mut self, byte: u8) -> Result<(), AllocError>
        ensures { OnOk result (self.new ≡ self.old ++ upward byte) }
    {
        if byte == b'/' {
            return self.push(b"../");
        }
        Ok(())
    }
}
