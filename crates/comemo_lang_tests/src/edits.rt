//! Edits of modules, and the calls that run after each.

use comemo::{Explanation, How, MultiCall};
use comemo_lang::frontend::Frontend;
use comemo_lang::project::Project;
use comemo_lang::question::Question;
use comemo_text::Text;
use std::alloc::{AllocError, Global};

/// A module, and its new text, or `None` if the module is removed; then the names of all modules, how many diagnostics
/// there are, how many calls of `Parse`, `Exports` and `Check` ran, and how many calls were hits.
type Edit<'a> = (&'a str, Option<&'a str>, &'a str, usize, [usize; 3], usize);

/// How many calls of `Parse`, `Exports` and `Check` ran, and how many calls were hits.
fn count(frontend: &Frontend) -> ([usize; 3], usize) {
    let mut parsed: usize = 0;
    let mut exported: usize = 0;
    let mut checked: usize = 0;
    let mut hits: usize = 0;
    for call in frontend.calls() {
        if call.how == How::Hit {
            hits = hits.saturating_add(1);
            continue;
        }
        match &call.question {
            Question::DeclarationsOf(_) => parsed = parsed.saturating_add(1),
            Question::ExportsOf(_) => exported = exported.saturating_add(1),
            Question::DiagnosticsOf(_) => checked = checked.saturating_add(1),
        }
    }
    ([parsed, exported, checked], hits)
}

/// Sets or removes a module.
fn edit(
    alloc: Global,
    project: &mut Project,
    name: &str,
    text: Option<&str>,
) -> Result<(), AllocError> {
    let Some(text) = text else {
        project.remove(name);
        return Ok(());
    };
    let text = Text::from_str(alloc, text)?;
    project.set(String::from_str(alloc, name)?, text)
}

/// The words of a text.
fn words(alloc: Global, text: &str) -> Result<Vec<Text>, AllocError> {
    let mut words = Vec::new(alloc);
    for word in text.split_whitespace() {
        words.push(Text::from_str(alloc, word)?)?;
    }
    Ok(words)
}

/// Checks all modules after an edit: whether there are so many diagnostics, and so many calls ran and hit.
fn is_as_said(
    alloc: Global,
    project: &mut Project,
    frontend: &mut Frontend,
    said: &Edit<'_>,
) -> bool {
    let (name, text, names, wrong, ran, hits) = said;
    if edit(alloc, project, name, *text).is_err() {
        return false;
    }
    let Ok(names) = words(alloc, names) else {
        return false;
    };
    let Ok(all) = frontend.check_all(project, names.as_slice()) else {
        return false;
    };
    let mut found: usize = 0;
    for diagnostics in &all {
        found = found.saturating_add(diagnostics.as_slice().len());
    }
    let counted = count(frontend);
    found == *wrong && counted.0 == *ran && counted.1 == *hits
}

/// Sets modules: their names and texts.
fn is_set(alloc: Global, project: &mut Project, modules: &[(&str, &str)]) -> bool {
    for (name, text) in modules {
        if edit(alloc, project, name, Some(text)).is_err() {
            return false;
        }
    }
    true
}

#[test]
fn an_edit_runs_what_rests_on_it(rt: HostRuntime) {
    let alloc = rt.alloc();
    let mut project = Project::new(alloc);
    let mut frontend = Frontend::new(alloc);
    // a imports b, which imports c; d stands alone.
    let modules: &[(&str, &str)] = &[
        ("a", "import b\nx = y"),
        ("b", "import c\ny = z"),
        ("c", "z = 1"),
    ];
    assert!(rt; is_set(alloc, &mut project, modules));
    let edits: &[Edit<'_>] = &[
        // All is new.
        ("d", Some("w = 2"), "a b c d", 0, [4, 4, 4], 0),
        // The same text.
        ("d", Some("w = 2"), "a b c d", 0, [0, 0, 0], 12),
        // A number, then a comment: the module declares what it did.
        ("c", Some("z = 2"), "a b c d", 0, [1, 0, 0], 11),
        ("c", Some("# for b\nz = 2"), "a b c d", 0, [1, 0, 0], 11),
        // A body: the module exports what it did, so a is not checked.
        ("b", Some("import c\ny = z + q"), "a b c d", 1, [1, 1, 1], 9),
        // An export: the importer b is checked too, and its exports stay.
        ("c", Some("z = 2\nq = 3"), "a b c d", 0, [1, 1, 2], 8),
        // The module is gone, so b misses it, and two names.
        ("c", None, "a b d", 3, [1, 1, 1], 8),
        // The first text again: each function was called so before.
        ("c", Some("z = 1"), "a b c d", 1, [0, 0, 0], 12),
    ];
    for said in edits {
        assert!(rt;
            is_as_said(alloc, &mut project, &mut frontend, said),
            "{}",
            said.0
        );
    }
}

#[test]
fn modules_import_one_another(rt: HostRuntime) {
    let alloc = rt.alloc();
    let mut project = Project::new(alloc);
    let mut frontend = Frontend::new(alloc);
    let modules: &[(&str, &str)] = &[("p", "import q\nx = y + 1")];
    assert!(rt; is_set(alloc, &mut project, modules));
    let edits: &[Edit<'_>] = &[
        ("q", Some("import p\ny = x"), "p q", 0, [2, 2, 2], 0),
        ("q", Some("import p\ny = x + z"), "p q", 1, [1, 1, 1], 3),
        ("q", Some("import p\nw = x"), "p q", 1, [1, 1, 2], 2),
    ];
    for said in edits {
        assert!(rt;
            is_as_said(alloc, &mut project, &mut frontend, said),
            "{}",
            said.0
        );
    }
}

/// The question for the exports of a module.
fn exports_of(alloc: Global, name: &str) -> Option<Question> {
    let name = Text::from_str(alloc, name).ok()?;
    Some(Question::ExportsOf(name))
}

/// The question for the declarations of a module.
fn declarations_of(alloc: Global, name: &str) -> Option<Question> {
    let name = Text::from_str(alloc, name).ok()?;
    Some(Question::DeclarationsOf(name))
}

/// The question for what is wrong with a module.
fn diagnostics_of(alloc: Global, name: &str) -> Option<Question> {
    let name = Text::from_str(alloc, name).ok()?;
    Some(Question::DiagnosticsOf(name))
}

/// Whether the call that answers a question was no hit because an output changed.
fn is_caused(frontend: &Frontend, question: Option<Question>, cause: Option<Question>) -> bool {
    match (frontend.reasons(), &question, &cause) {
        (Some(reasons), Some(question), Some(cause)) => reasons.cause(question) == Some(cause),
        _ => false,
    }
}

/// Whether the call that answers a question was no hit because the text of a module changed.
fn is_text(frontend: &Frontend, question: Option<Question>, name: &str) -> bool {
    match (frontend.reasons(), &question) {
        (Some(reasons), Some(question)) => match reasons.get(question) {
            Some(
                Explanation::Changed {
                    asked: _,
                    call: MultiCall::A(source),
                    answer: _,
                },
            ) => source.name.as_str() == name,
            _ => false,
        },
        _ => false,
    }
}

/// Checks modules of these names: whether that worked.
fn is_checked(alloc: Global, project: &Project, frontend: &mut Frontend, names: &str) -> bool {
    match words(alloc, names) {
        Ok(names) => frontend.check_all(project, names.as_slice()).is_ok(),
        Err(_) => false,
    }
}

#[test]
fn reasons_lead_to_the_text_that_changed(rt: HostRuntime) {
    let alloc = rt.alloc();
    let mut project = Project::new(alloc);
    let mut frontend = Frontend::explaining(alloc);
    let modules: &[(&str, &str)] = &[("b", "import c\ny = z"), ("c", "z = 1")];
    assert!(rt; is_set(alloc, &mut project, modules));
    assert!(rt; is_checked(alloc, &project, &mut frontend, "b c"));
    let edited: &[(&str, &str)] = &[("c", "q = 3")];
    assert!(rt; is_set(alloc, &mut project, edited));
    assert!(rt; is_checked(alloc, &project, &mut frontend, "b c"));
    let check = diagnostics_of(alloc, "b");
    assert!(rt; is_caused(&frontend, check, exports_of(alloc, "c")));
    let exports = exports_of(alloc, "c");
    assert!(rt; is_caused(&frontend, exports, declarations_of(alloc, "c")));
    assert!(rt; is_text(&frontend, declarations_of(alloc, "c"), "c"));
}
