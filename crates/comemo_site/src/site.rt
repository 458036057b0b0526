//! A site of pages by name: a tracked value that is only read.
ghost use Rattle.std.specs.Prelude.{◌≡◌, ℕ, List, None, Some, false, bytes_eq, if◌then◌else◌, string_bytes, unwrap_or, [], IfOk, OnOk, OnErr, option_copied};
ghost use Rattle.std.proofs.Common.{rules};
ghost use Rattle.comemo_site.specs.Sites.{page_of, title_answer, blocks_answer, title_in, blocks_in};

use crate::block::Block;
use comemo::{Answer, Call, Track};
use comemo_text::{Items, Text};
use std::alloc::{AllocError, Global};
use std::collections::HashMap;

/// What can be asked of a site.
#[derive(Clone, Drop, Debug, PartialEq, Eq, Hash)]
pub enum SiteCall {
    /// The title of the page of a name.
    TitleOf(Text),
    /// The blocks of the page of a name.
    BlocksOf(Text),
}

impl Call for SiteCall {
    ghost is_write = { λ _. false };

    ghost touches = { λ _ _. false };

    ghost laws = { Prim.search rules };

    fn is_mutable(&self) -> bool {
        false
    }

    fn touches(&self, _read: &SiteCall) -> bool {
        false
    }
}

/// What a site answers.
#[derive(Clone, Drop, Debug, PartialEq, Eq, PartialOrd, Ord)]
pub enum SiteAnswer {
    /// No page has that name.
    Missing,
    /// Its title.
    Title(Text),
    /// Its blocks.
    Blocks(Items<Block>),
}

impl Answer for SiteAnswer {
    ghost use Rattle.comemo_site.specs.SiteLaws.{answer_refl};

    ghost clones = { λ x y h. Prim.search (rules, answer_refl) };
}

impl SiteAnswer {
    /// The title; `None` if there is no such page.
    pub fn into_title(self) -> Option<Text>
        ensures { result ≡ title_in self }
    {
        match self {
            SiteAnswer::Title(title) => Some(title),
            SiteAnswer::Missing | SiteAnswer::Blocks(_) => None,
        }
    }

    /// The blocks; empty if there is no such page.
    pub fn blocks(&self) -> &[Block]
        ensures { result.now ≡ unwrap_or (blocks_in self.now) [] }
    {
        match self {
            SiteAnswer::Blocks(blocks) => blocks.as_slice(),
            SiteAnswer::Missing | SiteAnswer::Title(_) => &[],
        }
    }
}

/// A page.
#[derive(Clone, Drop, Debug)]
pub struct Page {
    /// Its title.
    pub title: Text,
    /// Its blocks.
    pub blocks: Items<Block>,
}

/// A site: the pages by their names.
#[derive(Drop)]
pub struct Site {
    pages: HashMap<String, Page>,
}

impl Site {
    /// A site without pages. Does not allocate.
    pub fn new(alloc: Global) -> Self
        ensures { (name : List ℕ) → page_of result.pages name ≡ None }
    {
        Site {
            pages: HashMap::new(alloc),
        }
    }

    #[tactic(auto, using(std::proofs::lemmas::Map::Text::text_keys))]
    /// Sets a page. Fails if out of memory; then the site is unchanged.
    pub fn set(&mut self, name: String, page: Page) -> Result<(), AllocError>
        ensures ok { OnOk result ((q : List ℕ) → page_of self.new.pages q
            ≡ (if bytes_eq q (string_bytes name) then Some page else page_of self.old.pages q)) }
        ensures err { OnErr result
            ((q : List ℕ) → page_of self.new.pages q ≡ page_of self.old.pages q) }
    {
        match self.pages.insert(name, page) {
            Ok(_) => Ok(()),
            Err(_) => Err(AllocError),
        }
    }

    #[tactic(auto, using(std::proofs::lemmas::Map::Text::text_keys))]
    /// Removes the page of a name, if there is one.
    pub fn remove(&mut self, name: &str)
        ensures { (q : List ℕ) → page_of self.new.pages q
            ≡ (if bytes_eq q name.now then None else page_of self.old.pages q) }
    {
        self.pages.remove(name);
    }

    /// The page of a name; `None` if there is no such page.
    pub fn get(&self, name: &str) -> Option<&Page>
        ensures { option_copied result ≡ page_of self.now.pages name.now }
    {
        self.pages.get(name)
    }

    /// The answer with a page's title.
    fn title(&self, name: &str) -> Result<SiteAnswer, AllocError>
        ensures { IfOk result (λ answer. answer ≡ title_answer (page_of self.now.pages name.now)) }
    {
        let Some(page) = self.pages.get(name) else {
            return Ok(SiteAnswer::Missing);
        };
        let title = page.title.clone()?;
        Ok(SiteAnswer::Title(title))
    }

    /// The answer with a page's blocks.
    fn blocks(&self, name: &str) -> Result<SiteAnswer, AllocError>
        ensures { IfOk result (λ answer. answer ≡ blocks_answer (page_of self.now.pages name.now)) }
    {
        let Some(page) = self.pages.get(name) else {
            return Ok(SiteAnswer::Missing);
        };
        let blocks = page.blocks.clone()?;
        Ok(SiteAnswer::Blocks(blocks))
    }
}

impl Track for Site {
    type Call = SiteCall;

    type Answer = SiteAnswer;

    ghost use Rattle.comemo_site.specs.Sites.{site_answer};
    ghost use Rattle.comemo_site.specs.SiteLaws.{site_alike};

    ghost answers = { λ s call. site_answer s.pages call };

    ghost alike = { λ s. site_alike s.pages };

    #[tactic(auto, using(crate::specs::SiteLaws::answer_refl))]
    fn ask(&self, call: &SiteCall) -> Result<SiteAnswer, AllocError> {
        match call {
            SiteCall::TitleOf(name) => self.title(name.as_str()),
            SiteCall::BlocksOf(name) => self.blocks(name.as_str()),
        }
    }
}
