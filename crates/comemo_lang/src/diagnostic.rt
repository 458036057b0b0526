//! What can be wrong with a module.

use comemo_text::Text;

/// What is wrong with a module.
#[derive(Clone, Drop, Debug, PartialEq, Eq, PartialOrd, Ord)]
pub enum Diagnostic {
    /// It imports a module of this name, and there is none.
    MissingModule(Text),
    /// It uses this name, which neither it nor an imported module defines.
    UndefinedName(Text),
}
