//! The names that declarations define, and lists that grow.
ghost use Rattle.std.specs.Prelude.{◌≡◌, ◌++◌, ◌∷◌, [], IfOk};
ghost use Rattle.std.specs.List.{flat_map};
ghost use Rattle.comemo_lang.specs.Checking.{defined};

use crate::declaration::Declaration;
use comemo_text::Text;
use std::alloc::{AllocError, Global};

/// The names that declarations define, in order.
#[tactic(auto, using(crate::proofs::Lists::flat_map_next))]
pub fn defined_names(alloc: Global, declarations: &[Declaration]) -> Result<Vec<Text>, AllocError>
    ensures { IfOk result (λ names. names.items ≡ flat_map defined declarations.now) }
{
    let mut names = Vec::new(alloc);
    for declaration in declarations {
        push_defined(&mut names, declaration)?;
    }
    Ok(names)
}

/// Appends the name that a declaration defines.
fn push_defined(names: &mut Vec<Text>, declaration: &Declaration) -> Result<(), AllocError>
    ensures { IfOk result (λ _. names.new.items ≡ names.old.items ++ defined declaration.now) }
{
    match declaration {
        Declaration::Define(name, _) => {
            let own = name.clone()?;
            Ok(names.push(own)?)
        }
        Declaration::Import(_) => Ok(()),
    }
}

/// Appends names.
#[tactic(auto, using(crate::proofs::Lists::flat_map_next))]
pub fn push_all(names: &mut Vec<Text>, more: &[Text]) -> Result<(), AllocError>
    ensures { IfOk result (λ _. names.new.items ≡ names.old.items ++ more.now) }
{
    for name in more {
        let own = name.clone()?;
        names.push(own)?;
    }
    Ok(())
}

/// Appends an item. Fails if out of memory, and drops the item then.
pub fn push<T: Drop>(list: &mut Vec<T>, item: T) -> Result<(), AllocError>
    ensures { IfOk result (λ _. list.new.items ≡ list.old.items ++ item ∷ []) }
{
    Ok(list.push(item)?)
}
