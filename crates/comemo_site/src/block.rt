//! The blocks of a page, in the order in which they are printed.

ghost use Rattle.std.specs.Prelude.{◌≡◌, option_copied};
ghost use Rattle.comemo_site.specs.Sources.{heading_of};

use comemo_text::Text;

/// A block of a page.
#[derive(Clone, Drop, Debug, PartialEq, Eq, PartialOrd, Ord)]
pub enum Block {
    /// What is printed without a question to the site.
    Plain(Plain),
    /// The page of this name, rendered in this place.
    Include(Text),
    /// A link to the page of this name, which prints its title.
    Link(Text),
    /// An item of a list that links to the page of this name: of the contents of the page that includes it.
    Entry(Text),
}

/// A block that prints the same whatever the site is.
#[derive(Clone, Drop, Debug, PartialEq, Eq, PartialOrd, Ord)]
pub enum Plain {
    /// A heading.
    Heading(Text),
    /// A heading below another.
    Subheading(Text),
    /// Lines of words.
    Paragraph(Text),
    /// A link to an address of another place than the site, which prints it.
    Outside(Text),
    /// The start of a list.
    ListStart,
    /// An item of a list.
    Item(Text),
    /// The end of a list.
    ListEnd,
}

impl Block {
    /// The words of a heading; `None` if the block is none.
    pub fn heading(&self) -> Option<&Text>
        ensures { option_copied result ≡ heading_of self.now }
    {
        match self {
            Block::Plain(Plain::Heading(words)) => Some(words),
            _ => None,
        }
    }
}
