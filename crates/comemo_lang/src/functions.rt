//! The memoized functions. Each is of a project with the outputs that are known at it.
ghost use Rattle.std.specs.Prelude.{◌≡◌, ◌++◌, map, option_map, IfOk};
ghost use Rattle.std.specs.List.{flat_map};
ghost use Rattle.std.proofs.Common.{rules};
ghost use Rattle.comemo.specs.Function.{Tells};
ghost use Rattle.comemo_lang.specs.Checking.{defined, imported, checked, parsed_source};
ghost use Rattle.comemo_lang.specs.Questions.{asked_source, asked_declarations, asked_exports};

use crate::check::{Imported, diagnose};
use crate::declaration::Declaration;
use crate::diagnostic::Diagnostic;
use crate::frontend::Frontend;
use crate::names::{defined_names, push};
use crate::parse::parse;
use crate::project::{Project, Source};
use crate::question::{Answered, Asked, ask_declarations, ask_exports, ask_source};
use comemo::internal::Told;
use comemo::{Fault, Function, Known, Recorder, Run};
use comemo_text::{Items, Text};
use std::alloc::Global;

/// What a module declares. It asks for the source of the module.
pub struct Parse;

impl Function for Parse {
    type Key = Text;

    type Call = Asked;

    type Answer = Answered;

    type Out = Option<Items<Declaration>>;

    ghost means = { λ name m out. out ≡ parsed_source (asked_source m name) };

    ghost laws = { Prim.search rules };
}

impl<'a> Run<Known<'a, Project, Frontend>, Global> for Parse {
    fn run(
        name: &Text,
        of: &mut Recorder<'_, Known<'a, Project, Frontend>>,
        alloc: &mut Global,
    ) -> Result<Option<Items<Declaration>>, Fault> {
        match ask_source(of, name)? {
            Source::Missing => Ok(None),
            Source::Written(text) => {
                let declarations = parse(*alloc, text.as_str())?;
                Ok(Some(declarations))
            }
        }
    }
}

/// What a module exports: the names that it defines. It asks for the declarations of the module.
pub struct Exports;

impl Function for Exports {
    type Key = Text;

    type Call = Asked;

    type Answer = Answered;

    type Out = Option<Items<Text>>;

    ghost means = { λ name m out.
        out ≡ option_map (flat_map defined) (asked_declarations m name) };

    ghost laws = { Prim.search rules };
}

impl<'a> Run<Known<'a, Project, Frontend>, Global> for Exports {
    fn run(
        name: &Text,
        of: &mut Recorder<'_, Known<'a, Project, Frontend>>,
        alloc: &mut Global,
    ) -> Result<Option<Items<Text>>, Fault> {
        let Some(declarations) = ask_declarations(of, name)? else {
            return Ok(None);
        };
        let names = defined_names(*alloc, declarations.as_slice())?;
        let names = Items::new(names)?;
        Ok(Some(names))
    }
}

/// What is wrong with a module. It asks for its declarations, and for the exports of the modules that it imports.
pub struct Check;

impl Function for Check {
    type Key = Text;

    type Call = Asked;

    type Answer = Answered;

    type Out = Items<Diagnostic>;

    ghost means = { λ name m out. out ≡ checked (asked_declarations m name) (asked_exports m) };

    ghost laws = { Prim.search rules };
}

impl<'a> Run<Known<'a, Project, Frontend>, Global> for Check {
    fn run(
        name: &Text,
        of: &mut Recorder<'_, Known<'a, Project, Frontend>>,
        alloc: &mut Global,
    ) -> Result<Items<Diagnostic>, Fault> {
        let alloc = *alloc;
        let Some(declarations) = ask_declarations(of, name)? else {
            return Ok(Items::new(Vec::new(alloc))?);
        };
        let declarations = declarations.as_slice();
        let imports = ask_imports(alloc, of, declarations)?;
        Ok(diagnose(alloc, declarations, imports.as_slice())?)
    }
}

/// Asks what the modules export that declarations import.
fn ask_imports<'a>(
    alloc: Global,
    of: &mut Recorder<'_, Known<'a, Project, Frontend>>,
    declarations: &[Declaration],
) -> Result<Vec<Imported>, Fault>
    ensures { Tells ⟦<Known<'a, Project, Frontend> as Told>⟧.fits of.old of.new result (λ imports m.
        imports.items ≡ flat_map (imported (asked_exports m)) declarations.now) }
{
    let mut imports = Vec::new(alloc);
    for declaration in declarations {
        ask_import(of, &mut imports, declaration)?;
    }
    Ok(imports)
}

/// Appends the module that a declaration imports, with what it exports.
fn ask_import<'a>(
    of: &mut Recorder<'_, Known<'a, Project, Frontend>>,
    imports: &mut Vec<Imported>,
    declaration: &Declaration,
) -> Result<(), Fault>
    ensures { Tells ⟦<Known<'a, Project, Frontend> as Told>⟧.fits of.old of.new result (λ _ m.
        imports.new.items ≡ imports.old.items ++ imported (asked_exports m) declaration.now) }
{
    match declaration {
        Declaration::Import(name) => {
            let name = name.clone()?;
            let exports = ask_exports(of, &name)?;
            Ok(push(imports, Imported { name, exports })?)
        }
        Declaration::Define(_, _) => Ok(()),
    }
}
