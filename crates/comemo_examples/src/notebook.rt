//! A tracked value that is read and written: an owner, and a limited number of lines.
ghost use Rattle.std.specs.Prelude.{◌≡◌, ◌++◌, [], false};
ghost use Rattle.std.proofs.Common.{rules};
ghost use Rattle.comemo_examples.specs.Notebooks.{is_note};

use comemo::{Call, Track};
use std::alloc::{AllocError, Global};
use std::hash::Hash;
use std::marker::Model;

/// A call to a notebook.
#[derive(Clone, Copy, Drop, Debug, PartialEq, Eq, Hash)]
pub enum NotebookCall {
    /// Whose it is: a read.
    Owner,
    /// Appends a line with a number: a write.
    Note(u64),
}

impl Call for NotebookCall {
    ghost is_write = { is_note };

    ghost touches = { λ _ _. false };

    ghost laws = { Prim.search rules };

    fn is_mutable(&self) -> bool {
        match self {
            NotebookCall::Owner => false,
            NotebookCall::Note(_) => true,
        }
    }

    fn touches(&self, _read: &NotebookCall) -> bool {
        false
    }
}

/// A notebook: a number for its owner, which is read, and numbers on lines, which are written until it is full.
///
/// A write fails if the notebook is full or out of memory; then nothing is written.
#[derive(Drop)]
pub struct Notebook {
    owner: u64,
    lines: Vec<u64>,
    room: usize,
}

impl Model for Notebook {
    ghost use Rattle.comemo_examples.specs.Notebooks.{Noted, noted_code};

    ghost Value = { Noted };

    ghost coded = { noted_code };

    ghost view = { λ s. record { owner = s.owner; lines = s.lines.items; room = s.room } };
}

impl Notebook {
    /// An empty notebook with room for this many lines. Does not allocate.
    pub fn new(alloc: Global, owner: u64, room: usize) -> Self
        ensures owner { result.owner ≡ owner }
        ensures lines { result.lines ≡ [] }
        ensures room { result.room ≡ room }
    {
        Notebook {
            owner,
            lines: Vec::new(alloc),
            room,
        }
    }

    /// The numbers on the lines, in order.
    pub fn lines(&self) -> &[u64]
        ensures { result.now ≡ self.now.lines }
    {
        self.lines.as_slice()
    }
}

impl Track for Notebook {
    type Call = NotebookCall;

    type Answer = u64;

    ghost use Rattle.comemo_examples.specs.Notebooks.{noted};

    ghost answers = { λ s _. s.owner };

    ghost wrote = { λ s call t. (t.owner ≡ s.owner)
        × (t.lines ≡ s.lines ++ noted call) };

    ghost alike = { λ s x y h. Prim.search rules };

    fn ask(&self, _call: &NotebookCall) -> Result<u64, AllocError> {
        Ok(self.owner)
    }

    fn call_mut(&mut self, call: &NotebookCall) -> Result<(), AllocError> {
        match call {
            NotebookCall::Owner => Ok(()),
            NotebookCall::Note(number) => {
                if self.lines.len() >= self.room {
                    return Err(AllocError);
                }
                Ok(self.lines.push(*number)?)
            }
        }
    }
}
