//! A sheet of cells by name, as a tracked value.
ghost use Rattle.std.specs.Prelude.{◌≡◌, ℕ, List, false, string_bytes, bytes_eq, if◌then◌else◌, IsTrue, IfOk, OnOk, OnErr};
ghost use Rattle.std.proofs.Common.{rules};
ghost use Rattle.comemo_sheet.specs.Sheets.{content_of, number_in};

use comemo::{Answer, Call, Track};
use std::alloc::{AllocError, Global};
use std::collections::HashMap;

/// What can be asked of a sheet.
#[derive(Clone, Drop, Debug, PartialEq, Eq, Hash)]
pub enum SheetCall {
    /// The content of the cell of a name.
    Cell(String),
}

impl Call for SheetCall {
    ghost is_write = { λ _. false };

    ghost touches = { λ _ _. false };

    ghost laws = { Prim.search rules };

    fn is_mutable(&self) -> bool {
        false
    }

    fn touches(&self, _read: &SheetCall) -> bool {
        false
    }
}

/// The content of a cell.
#[derive(Clone, Drop, Debug, PartialEq, Eq, PartialOrd, Ord)]
pub enum Content {
    /// Nothing.
    Empty,
    /// A number.
    Number(i64),
    /// The sum of the cells of these names.
    Sum(Vec<String>),
}

impl Answer for Content {
    ghost use Rattle.comemo_sheet.specs.SheetLaws.{content_clones};

    ghost clones = { content_clones };
}

impl Content {
    /// The number that the cell holds itself; 0 if none.
    pub fn number(&self) -> i64
        ensures { result ≡ number_in self.now }
    {
        match self {
            Content::Number(number) => *number,
            Content::Empty | Content::Sum(_) => 0,
        }
    }
}

/// A sheet: the content of each cell. A cell that was never set is empty.
#[derive(Drop)]
pub struct Sheet {
    cells: HashMap<String, Content>,
}

impl Sheet {
    /// A sheet of empty cells. Does not allocate.
    pub fn new(alloc: Global) -> Self
        ensures { (name : List ℕ) → content_of result.cells name ≡ Content.Empty }
    {
        Sheet {
            cells: HashMap::new(alloc),
        }
    }

    /// A copy of the content of the cell of a name. Fails if out of memory.
    fn content(&self, name: &str) -> Result<Content, AllocError>
        ensures { IfOk result (λ content.
            IsTrue (⟦<Content as PartialEq>⟧.eq (content_of self.now.cells name.now) content)) }
    {
        let Some(content) = self.cells.get(name) else {
            return Ok(Content::Empty);
        };
        let own = content.clone()?;
        Ok(own)
    }

    #[tactic(auto, using(std::proofs::lemmas::Map::Text::text_keys))]
    /// Sets a cell. Fails if out of memory; then the sheet is unchanged.
    pub fn set(&mut self, name: String, content: Content) -> Result<(), AllocError>
        ensures ok { OnOk result ((q : List ℕ) → content_of self.new.cells q
            ≡ (if bytes_eq q (string_bytes name) then content else content_of self.old.cells q)) }
        ensures err { OnErr result
            ((q : List ℕ) → content_of self.new.cells q ≡ content_of self.old.cells q) }
    {
        match self.cells.insert(name, content) {
            Ok(_) => Ok(()),
            Err(_) => Err(AllocError),
        }
    }
}

impl Track for Sheet {
    type Call = SheetCall;

    type Answer = Content;

    ghost use Rattle.comemo_sheet.specs.Sheets.{cell_answer};
    ghost use Rattle.comemo_sheet.specs.SheetLaws.{cells_alike};

    ghost answers = { λ s call. cell_answer s.cells call };

    ghost alike = { λ s. cells_alike s.cells };

    fn ask(&self, call: &SheetCall) -> Result<Content, AllocError> {
        match call {
            SheetCall::Cell(name) => self.content(name.as_str()),
        }
    }
}
