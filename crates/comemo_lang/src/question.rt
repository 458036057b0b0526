//! What the functions ask: a project for sources, and one another for outputs.
ghost use Rattle.std.specs.Prelude.{◌≡◌};
ghost use Rattle.std.proofs.Common.{rules};
ghost use Rattle.comemo.specs.Function.{Tells};
ghost use Rattle.comemo_lang.specs.Questions.{source_in, declarations_in, exports_in, asked_source, asked_declarations, asked_exports};

use crate::declaration::Declaration;
use crate::diagnostic::Diagnostic;
use crate::frontend::Frontend;
use crate::project::{Project, Source, SourceOf};
use comemo::internal::Told;
use comemo::{Answer, At, Fault, Known, MultiAnswer, MultiCall, Recorder};
use comemo_text::{Items, Text};

/// A question about a module, which a function answers.
#[derive(Clone, Drop, Debug, PartialEq, Eq, PartialOrd, Ord, Hash)]
pub enum Question {
    /// What the module of this name declares.
    DeclarationsOf(Text),
    /// What it exports.
    ExportsOf(Text),
    /// What is wrong with it.
    DiagnosticsOf(Text),
}

/// The output of the function that answers a question.
#[derive(Clone, Drop, Debug, PartialEq, Eq, PartialOrd, Ord)]
pub enum Output {
    /// Declarations; `None` if there is no such module.
    Declarations(Option<Items<Declaration>>),
    /// Names; `None` if there is no such module.
    Exports(Option<Items<Text>>),
    /// Diagnostics; none if there is no such module.
    Diagnostics(Items<Diagnostic>),
}

impl Answer for Question {
    ghost use Rattle.comemo_lang.specs.QuestionLaws.{question_refl};

    ghost clones = { λ x y h. Prim.search (rules, question_refl) };
}

impl Answer for Output {
    ghost use Rattle.comemo_lang.specs.QuestionLaws.{output_refl};

    ghost clones = { λ x y h. Prim.search (rules, output_refl) };
}

/// What a run asks: a source, or an output.
pub type Asked = MultiCall<SourceOf, At<Question>>;

/// What it is answered.
pub type Answered = MultiAnswer<Source, Output>;

/// The source in an answer.
fn into_source(answer: Answered) -> Source
    ensures { result ≡ source_in answer }
{
    match answer {
        MultiAnswer::A(source) => source,
        MultiAnswer::B(_) => Source::Missing,
    }
}

/// The declarations in an answer.
fn into_declarations(answer: Answered) -> Option<Items<Declaration>>
    ensures { result ≡ declarations_in answer }
{
    match answer {
        MultiAnswer::B(Output::Declarations(declarations)) => declarations,
        _ => None,
    }
}

/// The exports in an answer.
fn into_exports(answer: Answered) -> Option<Items<Text>>
    ensures { result ≡ exports_in answer }
{
    match answer {
        MultiAnswer::B(Output::Exports(exports)) => exports,
        _ => None,
    }
}

/// Asks the source of a module.
pub fn ask_source<'a>(
    of: &mut Recorder<'_, Known<'a, Project, Frontend>>,
    name: &Text,
) -> Result<Source, Fault>
    ensures { Tells ⟦<Known<'a, Project, Frontend> as Told>⟧.fits of.old of.new result
        (λ source m. source ≡ asked_source m name.now) }
{
    let name = name.clone()?;
    let answer = of.ask(MultiCall::A(SourceOf { name }))?;
    Ok(into_source(answer))
}

/// Asks what a module declares.
pub fn ask_declarations<'a>(
    of: &mut Recorder<'_, Known<'a, Project, Frontend>>,
    name: &Text,
) -> Result<Option<Items<Declaration>>, Fault>
    ensures { Tells ⟦<Known<'a, Project, Frontend> as Told>⟧.fits of.old of.new result
        (λ declarations m. declarations ≡ asked_declarations m name.now) }
{
    let key = Question::DeclarationsOf(name.clone()?);
    let answer = of.ask(MultiCall::B(At { key }))?;
    Ok(into_declarations(answer))
}

/// Asks what a module exports.
pub fn ask_exports<'a>(
    of: &mut Recorder<'_, Known<'a, Project, Frontend>>,
    name: &Text,
) -> Result<Option<Items<Text>>, Fault>
    ensures { Tells ⟦<Known<'a, Project, Frontend> as Told>⟧.fits of.old of.new result
        (λ exports m. exports ≡ asked_exports m name.now) }
{
    let key = Question::ExportsOf(name.clone()?);
    let answer = of.ask(MultiCall::B(At { key }))?;
    Ok(into_exports(answer))
}
