//! The source of a page: a line says a heading, an item of a list, a page that is included or linked, or words.
//!
//! | Line | Block |
//! |---|---|
//! | `# TITLE` | a heading; the first one is the page's title |
//! | `## HEADING` | a heading below it |
//! | `- ITEM` | an item of a list, which goes on with the next such line |
//! | `include PAGE` | that page, in this place |
//! | `link PAGE` | a link to that page |
//! | `link ADDRESS` | a link to an address that begins with `https:`, `http:` or `mailto:` |
//! | `toc` | a list of links to the pages that this page includes |
//! | an empty line | the end of a paragraph or of a list |
//! | any other | words of a paragraph |
//!
//! A page's name has no spaces: `include me too` is words. `specs/Lines.antt` defines the blocks of a source.
ghost use Rattle.std.specs.Prelude.{◌≡◌, ℕ, List, [], ◌∷◌, ◌++◌, false, true, string_bytes, IfOk, MatchOption};
ghost use Rattle.comemo_site.specs.Addresses.{begins};
ghost use Rattle.comemo_site.specs.Lines as lines;
ghost use Rattle.comemo_site.specs.Lines.{Part, Contents, Single, Words, included, is_name, linked, names, past, part_of, part_blocks, pages_of, blocks_of};
ghost use Rattle.comemo_site.specs.Parsing.{part_in, ending, whole};
ghost use Rattle.comemo_site.specs.Sources.{title_of};

use crate::address::is_outside;
use crate::block::{Block, Plain};
use crate::site::Page;
use comemo_text::{Items, Text};
use std::alloc::{AllocError, Global};

/// What a line of a source says.
#[derive(Clone, Copy)]
enum Line<'a> {
    /// The end of a paragraph or of a list.
    Empty,
    Heading(&'a str),
    Subheading(&'a str),
    Item(&'a str),
    Include(&'a str),
    Link(&'a str),
    Outside(&'a str),
    Contents,
    Words(&'a str),
}

/// What follows a mark at the start of a line; `None` if the line begins otherwise.
fn after<'a>(line: &'a str, mark: &str) -> Option<&'a str>
    ensures { MatchOption result (begins mark.now line.now ≡ false)
        (λ words. (begins mark.now line.now ≡ true) × (words.now ≡ past mark.now line.now)) }
{
    let words = line.strip_prefix(mark)?;
    Some(words.trim_start())
}

/// Whether a text is one word.
fn is_name(text: &str) -> bool
    ensures { result ≡ is_name text.now }
{
    !text.is_empty() && !text.chars().any(char::is_whitespace)
}

/// The word after a mark; `None` if the line begins otherwise or goes on after the word.
fn name_after<'a>(line: &'a str, mark: &str) -> Option<&'a str>
    ensures { MatchOption result (names mark.now line.now ≡ false)
        (λ name. (names mark.now line.now ≡ true) × (name.now ≡ past mark.now line.now)) }
{
    let name = after(line, mark)?;
    if !is_name(name) {
        return None;
    }
    Some(name)
}

/// What a line says that links to this page or address.
fn link_to(target: &str) -> Line<'_>
    ensures { part_in result ≡ Single (linked target.now) }
{
    if is_outside(target) {
        Line::Outside(target)
    } else {
        Line::Link(target)
    }
}

/// What a line says.
fn line_of(line: &str) -> Line<'_>
    ensures { part_in result ≡ part_of line.now }
{
    let line = line.trim();
    if line.is_empty() {
        return Line::Empty;
    }
    if line == "toc" {
        return Line::Contents;
    }
    if let Some(words) = after(line, "# ") {
        return Line::Heading(words);
    }
    if let Some(words) = after(line, "## ") {
        return Line::Subheading(words);
    }
    if let Some(words) = after(line, "- ") {
        return Line::Item(words);
    }
    if let Some(name) = name_after(line, "include ") {
        return Line::Include(name);
    }
    if let Some(target) = name_after(line, "link ") {
        return link_to(target);
    }
    Line::Words(line)
}

/// Appends the name of the page that a line includes, if it includes one.
fn push_page(alloc: Global, pages: &mut Vec<Text>, line: &str) -> Result<(), AllocError>
    ensures { IfOk result (λ _. pages.new.items ≡ pages.old.items ++ included (part_of line.now)) }
{
    match line_of(line) {
        Line::Include(name) => {
            let name = Text::from_str(alloc, name)?;
            Ok(pages.push(name)?)
        }
        _ => Ok(()),
    }
}

/// The names of the pages that a source includes, in order.
fn pages_in(alloc: Global, source: &str) -> Result<Vec<Text>, AllocError>
    ensures { IfOk result (λ pages. pages.items ≡ pages_of source.now) }
{
    let mut pages = Vec::new(alloc);
    for line in source.lines() {
        push_page(alloc, &mut pages, line)?;
    }
    Ok(pages)
}

/// What has not ended.
#[derive(Clone, Copy)]
enum Unended {
    Nothing,
    /// A paragraph, which has the parser's words.
    Paragraph,
    List,
}

/// The blocks so far.
#[derive(Drop)]
struct Parser {
    alloc: Global,
    blocks: Vec<Block>,
    unended: Unended,
    /// The words of a paragraph that has not ended.
    words: String,
}

impl Parser {
    /// Nothing so far. Does not allocate.
    fn new(alloc: Global) -> Self
        ensures empty { result.blocks.items ≡ [] }
        ensures unended { result.unended ≡ Unended.Nothing }
    {
        Parser {
            alloc,
            blocks: Vec::new(alloc),
            unended: Unended::Nothing,
            words: String::new(alloc),
        }
    }

    /// Appends a block.
    fn push(&mut self, block: Block) -> Result<(), AllocError>
        ensures appended { IfOk result (λ _.
            self.new.blocks.items ≡ self.old.blocks.items ++ block ∷ []) }
        ensures unended { self.new.unended ≡ self.old.unended }
        ensures words { self.new.words ≡ self.old.words }
    {
        Ok(self.blocks.push(block)?)
    }

    /// Ends a paragraph or a list.
    fn end(&mut self) -> Result<(), AllocError>
        ensures appended { IfOk result (λ _. self.new.blocks.items
            ≡ self.old.blocks.items ++ ending self.old.unended (string_bytes self.old.words)) }
        ensures unended { self.new.unended ≡ Unended.Nothing }
    {
        let unended = self.unended;
        self.unended = Unended::Nothing;
        match unended {
            Unended::Nothing => Ok(()),
            Unended::Paragraph => {
                let words = Text::from_str(self.alloc, self.words.as_str())?;
                self.push(Block::Plain(Plain::Paragraph(words)))
            }
            Unended::List => self.push(Block::Plain(Plain::ListEnd)),
        }
    }

    /// Ends a paragraph or a list, and appends a block.
    fn push_single(&mut self, block: Block) -> Result<(), AllocError>
        ensures appended { IfOk result (λ _. self.new.blocks.items
            ≡ self.old.blocks.items ++ ending self.old.unended (string_bytes self.old.words) ++ block ∷ []) }
        ensures unended { IfOk result (λ _. self.new.unended ≡ Unended.Nothing) }
    {
        self.end()?;
        self.push(block)
    }

    /// Appends an item, in a list.
    fn push_item(&mut self, words: &str) -> Result<(), AllocError>
        ensures { IfOk result (λ _. (pages : List (List ℕ)) (parts : List Part)
            → whole pages self.new parts
            ≡ whole pages self.old (lines.Items (words.now ∷ []) ∷ parts)) }
    {
        match self.unended {
            Unended::List => {}
            Unended::Nothing | Unended::Paragraph => {
                self.push_single(Block::Plain(Plain::ListStart))?;
                self.unended = Unended::List;
            }
        }
        let words = Text::from_str(self.alloc, words)?;
        self.push(Block::Plain(Plain::Item(words)))
    }

    /// Appends words to a paragraph.
    fn push_words(&mut self, words: &str) -> Result<(), AllocError>
        ensures { IfOk result (λ _. (pages : List (List ℕ)) (parts : List Part)
            → whole pages self.new parts ≡ whole pages self.old (Words words.now ∷ parts)) }
    {
        match self.unended {
            Unended::Paragraph => self.words.push('\n')?,
            Unended::Nothing | Unended::List => {
                self.end()?;
                self.words.clear();
                self.unended = Unended::Paragraph;
            }
        }
        self.words.push_str(words)
    }

    /// Appends a list of the pages that the source includes; nothing if it includes none.
    fn push_contents(&mut self, source: &str) -> Result<(), AllocError>
        ensures appended { IfOk result (λ _. self.new.blocks.items
            ≡ self.old.blocks.items ++ ending self.old.unended (string_bytes self.old.words)
            ++ part_blocks (pages_of source.now) Contents) }
        ensures unended { IfOk result (λ _. self.new.unended ≡ Unended.Nothing) }
    {
        self.end()?;
        let pages = pages_in(self.alloc, source)?;
        if pages.is_empty() {
            return Ok(());
        }
        self.push(Block::Plain(Plain::ListStart))?;
        for page in pages {
            self.push(Block::Entry(page))?;
        }
        self.push(Block::Plain(Plain::ListEnd))
    }

    /// Appends what a line of the source says.
    fn push_line(&mut self, line: Line<'_>, source: &str) -> Result<(), AllocError>
        ensures { IfOk result (λ _. (parts : List Part)
            → whole (pages_of source.now) self.new parts
            ≡ whole (pages_of source.now) self.old (part_in line.entry ∷ parts)) }
    {
        match line {
            Line::Empty => self.end(),
            Line::Contents => self.push_contents(source),
            Line::Heading(words) => {
                let words = Text::from_str(self.alloc, words)?;
                self.push_single(Block::Plain(Plain::Heading(words)))
            }
            Line::Subheading(words) => {
                let words = Text::from_str(self.alloc, words)?;
                self.push_single(Block::Plain(Plain::Subheading(words)))
            }
            Line::Include(name) => {
                let name = Text::from_str(self.alloc, name)?;
                self.push_single(Block::Include(name))
            }
            Line::Link(name) => {
                let name = Text::from_str(self.alloc, name)?;
                self.push_single(Block::Link(name))
            }
            Line::Outside(address) => {
                let address = Text::from_str(self.alloc, address)?;
                self.push_single(Block::Plain(Plain::Outside(address)))
            }
            Line::Item(words) => self.push_item(words),
            Line::Words(words) => self.push_words(words),
        }
    }
}

/// The first heading; the name of the page if there is none.
fn title_in_blocks(alloc: Global, name: &str, blocks: &[Block]) -> Result<Text, AllocError>
    ensures { IfOk result (λ title. title ≡ title_of name.now blocks.now) }
{
    for block in blocks {
        if let Some(words) = block.heading() {
            return words.clone();
        }
    }
    Text::from_str(alloc, name)
}

/// The page of a name that has this source.
pub fn parse(alloc: Global, name: &str, source: &str) -> Result<Page, AllocError>
    ensures title { IfOk result (λ page. page.title ≡ title_of name.now page.blocks) }
    ensures body { IfOk result (λ page. page.blocks ≡ blocks_of source.now) }
{
    let mut parser = Parser::new(alloc);
    for line in source.lines() {
        parser.push_line(line_of(line), source)?;
    }
    parser.end()?;
    let Parser { blocks, .. } = parser;
    let title = title_in_blocks(alloc, name, blocks.as_slice())?;
    let blocks = Items::new(blocks)?;
    Ok(Page { title, blocks })
}
