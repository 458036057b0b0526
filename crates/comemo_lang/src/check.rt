//! What is wrong with declarations, by what the modules export that they import.
ghost use Rattle.std.specs.Prelude.{◌≡◌, ◌++◌, ℕ, List, bytes_eq, IfOk};
ghost use Rattle.std.specs.List.{flat_map};
ghost use Rattle.std.specs.HashSet.{contains};
ghost use Rattle.comemo_lang.specs.Checking.{brought, known, missing, unknown, unknown_in, diagnosed};

use crate::declaration::Declaration;
use crate::diagnostic::Diagnostic;
use crate::names::{defined_names, push_all};
use comemo_text::{Items, Text};
use std::alloc::{AllocError, Global};
use std::collections::HashSet;

/// A module that is imported.
#[derive(Drop)]
pub struct Imported {
    /// Its name.
    pub name: Text,
    /// What it exports; `None` if there is no such module.
    pub exports: Option<Items<Text>>,
}

/// What is wrong with declarations that import these modules. First come the modules that are missing.
pub fn diagnose(
    alloc: Global,
    declarations: &[Declaration],
    imports: &[Imported],
) -> Result<Items<Diagnostic>, AllocError>
    ensures { IfOk result (λ all. all ≡ diagnosed declarations.now imports.now) }
{
    let known = known_names(alloc, declarations, imports)?;
    let mut diagnostics = Vec::new(alloc);
    push_missing(&mut diagnostics, imports)?;
    push_unknown(&mut diagnostics, &known, declarations)?;
    Items::new(diagnostics)
}

/// The names that declarations may use: those that they define, and those that the imported modules export.
fn known_names(
    alloc: Global,
    declarations: &[Declaration],
    imports: &[Imported],
) -> Result<HashSet<Text>, AllocError>
    ensures { IfOk result (λ set. (name : List ℕ)
        → contains bytes_eq set name ≡ known declarations.now imports.now name) }
{
    let mut names = defined_names(alloc, declarations)?;
    push_exports(&mut names, imports)?;
    names.into_iter().collect(alloc)
}

/// Appends what modules export.
#[tactic(auto, using(crate::proofs::Lists::flat_map_next))]
fn push_exports(names: &mut Vec<Text>, imports: &[Imported]) -> Result<(), AllocError>
    ensures { IfOk result (λ _. names.new.items ≡ names.old.items ++ flat_map brought imports.now) }
{
    for import in imports {
        push_brought(names, import)?;
    }
    Ok(())
}

/// Appends what a module exports.
fn push_brought(names: &mut Vec<Text>, import: &Imported) -> Result<(), AllocError>
    ensures { IfOk result (λ _. names.new.items ≡ names.old.items ++ brought import.now) }
{
    match &import.exports {
        Some(exports) => push_all(names, exports.as_slice()),
        None => Ok(()),
    }
}

/// Appends a diagnostic for each module that is missing.
#[tactic(auto, using(crate::proofs::Lists::flat_map_next))]
fn push_missing(diagnostics: &mut Vec<Diagnostic>, imports: &[Imported]) -> Result<(), AllocError>
    ensures { IfOk result (λ _.
        diagnostics.new.items ≡ diagnostics.old.items ++ flat_map missing imports.now) }
{
    for import in imports {
        if import.exports.is_none() {
            let name = import.name.clone()?;
            diagnostics.push(Diagnostic::MissingModule(name))?;
        }
    }
    Ok(())
}

/// Appends a diagnostic for each use of a name that is not known.
#[tactic(auto, using(crate::proofs::Lists::flat_map_next))]
fn push_unknown(
    diagnostics: &mut Vec<Diagnostic>,
    known: &HashSet<Text>,
    declarations: &[Declaration],
) -> Result<(), AllocError>
    ensures { IfOk result (λ _. diagnostics.new.items
        ≡ diagnostics.old.items ++ flat_map (unknown_in (contains bytes_eq known.now)) declarations.now) }
{
    for declaration in declarations {
        if let Declaration::Define(_, names) = declaration {
            push_unknown_names(diagnostics, known, names.as_slice())?;
        }
    }
    Ok(())
}

/// Appends a diagnostic for each of these names that is not known.
#[tactic(auto, using(crate::proofs::Lists::flat_map_next))]
fn push_unknown_names(
    diagnostics: &mut Vec<Diagnostic>,
    known: &HashSet<Text>,
    names: &[Text],
) -> Result<(), AllocError>
    ensures { IfOk result (λ _. diagnostics.new.items
        ≡ diagnostics.old.items ++ flat_map (unknown (contains bytes_eq known.now)) names.now) }
{
    for name in names {
        if !known.contains(name) {
            let own = name.clone()?;
            diagnostics.push(Diagnostic::UndefinedName(own))?;
        }
    }
    Ok(())
}
