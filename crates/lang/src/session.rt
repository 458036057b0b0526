//! A project that follows a folder, and what is kept of its checks.

use crate::folder;
use crate::folder::Stamps;
use anyhow::{Context, Result};
use comemo::{Explanation, How, MultiCall};
use comemo_lang::diagnostic::Diagnostic;
use comemo_lang::frontend::{Frontend, Why};
use comemo_lang::project::Project;
use comemo_lang::question::Question;
use comemo_text::Text;
use std::alloc::Global;
use std::collections::BTreeMap;
use std::rt::Runtime;

/// Checks after which a result that was not used is dropped.
const AGE: usize = 10;

/// A project, the files that it was read from, and the caches of its checks.
#[derive(Drop)]
pub struct Session {
    project: Project,
    stamps: Stamps,
    frontend: Frontend,
}

impl Session {
    /// Of an empty project. Whether checks are explained.
    pub fn new(alloc: Global, explains: bool) -> Self {
        let frontend = if explains {
            Frontend::explaining(alloc)
        } else {
            Frontend::new(alloc)
        };
        Session {
            project: Project::new(alloc),
            stamps: BTreeMap::new(alloc),
            frontend,
        }
    }

    /// Reads what changed in a folder, and says whether anything did.
    pub fn update<R: Runtime + AllocGlobal>(&mut self, rt: &R, folder: &str) -> Result<bool> {
        let mut is_changed = false;
        let stamps = folder::look(rt, folder)?;
        for name in self.stamps.keys() {
            if !stamps.contains_key(name) {
                self.project.remove(name.as_str());
                is_changed = true;
            }
        }
        for (name, stamp) in &stamps {
            if self.stamps.get(name) != Some(stamp) {
                let text = folder::read(rt, folder, name.as_str())?;
                self.project.set(name.clone()?, Text::new(text)?)?;
                is_changed = true;
            }
        }
        self.stamps = stamps;
        Ok(is_changed)
    }

    /// Checks all modules, prints what is wrong, and counts it.
    pub fn check<R: Runtime + AllocGlobal>(&mut self, rt: &R) -> Result<usize> {
        let alloc = rt.alloc();
        let mut names = Vec::new(alloc);
        for name in self.stamps.keys() {
            names.push(Text::from_str(alloc, name.as_str())?)?;
        }
        let Ok(all) = self.frontend.check_all(&self.project, names.as_slice()) else {
            anyhow::bail!("out of memory");
        };
        if self.frontend.reasons().is_some() {
            self.explain(rt)?;
        }
        let mut count: usize = 0;
        for (name, diagnostics) in names.iter().zip(&all) {
            for diagnostic in diagnostics.as_slice() {
                print(rt, name, diagnostic)?;
                count = count.saturating_add(1);
            }
        }
        self.frontend.evict(AGE);
        Ok(count)
    }

    /// Prints which calls of the last checks ran and why, and which were hits.
    fn explain<R: Runtime>(&self, rt: &R) -> Result<()> {
        for call in self.frontend.calls() {
            let how = if call.how == How::Hit { "hit" } else { "ran" };
            let (what, name) = parts(&call.question);
            print!(rt; "{how}: {what} of {name}").context("standard output")?;
            if let Some(reasons) = self.frontend.reasons() {
                print_reason(rt, reasons, &call.question)?;
            }
            println!(rt;).context("standard output")?;
        }
        Ok(())
    }
}

/// What a question asks for, and of which module.
fn parts(question: &Question) -> (&str, &str) {
    match question {
        Question::DeclarationsOf(name) => ("declarations", name.as_str()),
        Question::ExportsOf(name) => ("exports", name.as_str()),
        Question::DiagnosticsOf(name) => ("check", name.as_str()),
    }
}

/// Prints why a call ran: from output to output, down to the text that changed.
fn print_reason<R: Runtime>(rt: &R, reasons: &Why, question: &Question) -> Result<()> {
    let mut at = question;
    for _i in 0..u64::MAX {
        let Some(cause) = reasons.cause(at) else {
            break;
        };
        let (what, name) = parts(cause);
        print!(rt; ": {what} of {name} changed").context("standard output")?;
        at = cause;
    }
    match reasons.get(at) {
        Some(Explanation::NeverKept) => print!(rt; ": never kept").context("standard output"),
        Some(
            Explanation::Changed {
                asked: _,
                call: MultiCall::A(source),
                answer: _,
            },
        ) => print!(rt; ": text of {} changed", source.name.as_str()).context("standard output"),
        _ => Ok(()),
    }
}

/// Prints what is wrong with a module.
fn print<R: Runtime>(rt: &R, name: &Text, diagnostic: &Diagnostic) -> Result<()> {
    let module = name.as_str();
    let printed = match diagnostic {
        Diagnostic::MissingModule(name) => {
            println!(rt; "{module}: missing module {}", name.as_str())
        }
        Diagnostic::UndefinedName(name) => {
            println!(rt; "{module}: undefined name {}", name.as_str())
        }
    };
    printed.context("standard output")
}
