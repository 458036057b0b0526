//! The syntax of a module.
//!
//! | Line | Declares |
//! |---|---|
//! | `import MODULE` | that the exports of that module are known |
//! | `NAME = EXPRESSION` | a name |
//! | any other | nothing: it is a comment |
//!
//! An expression is terms joined by `+`. A name begins with a letter of ASCII; any other term is a number.
ghost use Rattle.std.specs.Prelude.{◌≡◌, ◌++◌, IfOk};
ghost use Rattle.comemo_lang.specs.Syntax.{parsed, declared_by, names_in, named, is_name};

use crate::declaration::Declaration;
use comemo_text::{Items, Text};
use std::alloc::{AllocError, Global};

/// The declarations of a module of this text.
pub fn parse(alloc: Global, text: &str) -> Result<Items<Declaration>, AllocError>
    ensures { IfOk result (λ declarations. declarations ≡ parsed text.now) }
{
    let mut declarations = Vec::new(alloc);
    for line in text.lines() {
        push_declaration(alloc, &mut declarations, line.trim())?;
    }
    Items::new(declarations)
}

/// Appends what a line declares.
fn push_declaration(
    alloc: Global,
    declarations: &mut Vec<Declaration>,
    line: &str,
) -> Result<(), AllocError>
    ensures { IfOk result (λ _. declarations.new.items
        ≡ declarations.old.items ++ declared_by line.now) }
{
    if let Some(name) = line.strip_prefix("import ") {
        let name = Text::from_str(alloc, name.trim())?;
        return Ok(declarations.push(Declaration::Import(name))?);
    }
    if !is_name(line) {
        return Ok(());
    }
    let Some((name, expression)) = line.split_once('=') else {
        return Ok(());
    };
    let name = Text::from_str(alloc, name.trim())?;
    let names = names(alloc, expression)?;
    Ok(declarations.push(Declaration::Define(name, names))?)
}

/// The names in an expression.
fn names(alloc: Global, expression: &str) -> Result<Items<Text>, AllocError>
    ensures { IfOk result (λ names. names ≡ names_in expression.now) }
{
    let mut names = Vec::new(alloc);
    for term in expression.split('+') {
        push_name(alloc, &mut names, term.trim())?;
    }
    Items::new(names)
}

/// Appends the name that a term is, if it is one.
fn push_name(alloc: Global, names: &mut Vec<Text>, term: &str) -> Result<(), AllocError>
    ensures { IfOk result (λ _. names.new.items ≡ names.old.items ++ named term.now) }
{
    if !is_name(term) {
        return Ok(());
    }
    let name = Text::from_str(alloc, term)?;
    Ok(names.push(name)?)
}

/// Whether a text begins as a name does.
fn is_name(text: &str) -> bool
    ensures { result ≡ is_name text.now }
{
    match text.as_bytes() {
        [first, ..] => first.is_ascii_alphabetic(),
        [] => false,
    }
}
