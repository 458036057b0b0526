//! The functions with their caches: checks of whole projects.
ghost use Rattle.std.specs.Prelude.{◌≡◌, map, IfOk};
ghost use Rattle.comemo.specs.Function.{WritesNone};
ghost use Rattle.comemo_lang.specs.Checking.{check_of};
ghost use Rattle.comemo_lang.specs.Projects.{source_of};
ghost use Rattle.comemo_lang.specs.Questions.{output_at};
ghost use Rattle.comemo_lang.specs.QuestionLaws.{output_alike};

use crate::diagnostic::Diagnostic;
use crate::functions::{Check, Exports, Parse};
use crate::names::push;
use crate::project::{Project, Source, SourceOf};
use crate::question::{Output, Question};
use comemo::{
    CacheData, Fault, How, Known, MultiAnswer, Provider, Query, Reasons, Round, RoundError, Run,
    Track, Turn,
};
use comemo_text::{Items, Text};
use std::alloc::Global;

/// The caches of the functions, and a log of the last checks.
#[derive(Drop)]
pub struct Frontend {
    alloc: Global,
    parsed: CacheData<Parse>,
    exported: CacheData<Exports>,
    checked: CacheData<Check>,
    log: Log,
}

/// Why calls were hits or runs, by the questions that they answered.
pub type Why = Reasons<Question, SourceOf, MultiAnswer<Source, Output>>;

/// How calls ended, and why, if that is asked for.
#[derive(Drop)]
struct Log {
    calls: Vec<Ended>,
    reasons: Option<Why>,
}

/// A call that returned an output.
#[derive(Drop, Debug)]
pub struct Ended {
    /// The question that it answered.
    pub question: Question,
    /// Whether it is a hit.
    pub how: How,
}

impl Query<Project> for Frontend {
    type At = Question;

    type Output = Output;

    ghost gives = { λ question m. output_at question (λ name. m (record { name = name })) };

    ghost alike = { λ x y m _ same. output_alike (λ name. m (record { name = name })) x y same };
}

/// Calls a function, and notes how the call ended.
fn call<'r, M: Run<Known<'r, Project, Frontend>, Global>>(
    cache: &mut CacheData<M>,
    log: &mut Log,
    question: &Question,
    key: M::Key,
    turn: &mut Turn<'_, Known<'r, Project, Frontend>>,
) -> Result<M::Out, Fault>
    requires { WritesNone M.writes }
    ensures same { turn.new ≡ turn.old }
    ensures right { IfOk result (λ output. M.means key
        (⟦<Known<'r, Project, Frontend> as Track>⟧.answers turn.old) output) }
{
    let question = question.clone()?;
    if let Some(reasons) = &mut log.reasons {
        let reason = turn.explain(cache, &key)?;
        reasons.note(question.clone()?, reason)?;
    }
    let mut needs = turn.alloc();
    let reply = turn.call(cache, &mut needs, key)?;
    let how = reply.how;
    push(&mut log.calls, Ended { question, how })?;
    Ok(reply.output)
}

impl Provider<Project, Frontend> for Frontend {
    fn provide(
        &mut self,
        question: &Question,
        turn: &mut Turn<'_, Known<'_, Project, Frontend>>,
    ) -> Result<Output, Fault> {
        let log = &mut self.log;
        match question {
            Question::DeclarationsOf(name) => {
                let name = name.clone()?;
                let declarations = call(&mut self.parsed, log, question, name, turn)?;
                Ok(Output::Declarations(declarations))
            }
            Question::ExportsOf(name) => {
                let name = name.clone()?;
                let exports = call(&mut self.exported, log, question, name, turn)?;
                Ok(Output::Exports(exports))
            }
            Question::DiagnosticsOf(name) => {
                let name = name.clone()?;
                let diagnostics = call(&mut self.checked, log, question, name, turn)?;
                Ok(Output::Diagnostics(diagnostics))
            }
        }
    }
}

impl Frontend {
    /// Empty caches. Does not allocate.
    pub fn new(alloc: Global) -> Self {
        Frontend {
            alloc,
            parsed: CacheData::new(alloc),
            exported: CacheData::new(alloc),
            checked: CacheData::new(alloc),
            log: Log {
                calls: Vec::new(alloc),
                reasons: None,
            },
        }
    }

    /// As `new`, with explanations: `reasons` then tells why calls were hits or runs.
    pub fn explaining(alloc: Global) -> Self {
        let mut frontend = Frontend::new(alloc);
        frontend.log.reasons = Some(Reasons::new(alloc));
        frontend
    }

    /// Checks modules: lists what is wrong with each of these names, in order.
    pub fn check_all(
        &mut self,
        project: &Project,
        names: &[Text],
    ) -> Result<Vec<Items<Diagnostic>>, RoundError<Question>>
        ensures { IfOk result
            (λ all. all.items ≡ map (check_of (source_of project.now)) names.now) }
    {
        self.log.calls.clear();
        if self.log.reasons.is_some() {
            self.log.reasons = Some(Reasons::new(self.alloc));
        }
        let mut round = Round::new(self.alloc, project);
        // A check begins anew at each output that isn't known, so the exports come first.
        self.export_all(&mut round, names)?;
        let mut all = Vec::new(self.alloc);
        for name in names {
            let diagnostics = self.check(&mut round, name)?;
            push(&mut all, diagnostics)?;
        }
        Ok(all)
    }

    /// Makes the exports of modules known.
    fn export_all(
        &mut self,
        round: &mut Round<'_, Project, Frontend>,
        names: &[Text],
    ) -> Result<(), RoundError<Question>>
        ensures { round.new.value ≡ round.old.value }
    {
        for name in names {
            let _ = round.output(self, Question::ExportsOf(name.clone()?))?;
        }
        Ok(())
    }

    /// Lists what is wrong with a module.
    fn check(
        &mut self,
        round: &mut Round<'_, Project, Frontend>,
        name: &Text,
    ) -> Result<Items<Diagnostic>, RoundError<Question>>
        ensures same { round.new.value ≡ round.old.value }
        ensures right { IfOk result (λ all. all ≡ check_of (source_of round.old.value) name.now) }
    {
        let question = Question::DiagnosticsOf(name.clone()?);
        match round.output(self, question)? {
            Output::Diagnostics(diagnostics) => Ok(diagnostics),
            Output::Declarations(_) | Output::Exports(_) => unreachable!(),
        }
    }

    /// The calls of the last `check_all` that returned an output, in order.
    pub fn calls(&self) -> &[Ended] {
        self.log.calls.as_slice()
    }

    /// Why the calls of the last `check_all` were hits or runs, if the frontend explains.
    pub fn reasons(&self) -> Option<&Why> {
        self.log.reasons.as_ref()
    }

    /// Drops what was not used in the last checks, as many as `age`.
    pub fn evict(&mut self, age: usize) {
        self.parsed.evict(age);
        self.exported.evict(age);
        self.checked.evict(age);
    }
}
