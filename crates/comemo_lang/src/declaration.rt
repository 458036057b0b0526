//! The declarations of a module.

use comemo_text::{Items, Text};

/// What a line of a module declares.
#[derive(Clone, Drop, Debug, PartialEq, Eq, PartialOrd, Ord)]
pub enum Declaration {
    /// The exports of the module of this name are known here.
    Import(Text),
    /// A name, which the module exports, and the names in its expression.
    Define(Text, Items<Text>),
}
