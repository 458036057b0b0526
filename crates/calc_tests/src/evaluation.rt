//! Tests of `evaluate`.
use crate::files::is_put;
use CalcFault::{NotANumber, Overflow};
use calc_core::evaluation::{Eval, EvalFault, evaluate};
use calc_core::files::Files;
use calc_core::scripts::{CalcFault, Outcome};
use comemo::{CacheData, Constraint, How, Reply, Track};
use std::alloc::Global;

/// Whether a script has this result under a limit, with this many reads recorded, or fails, with the recording
/// incomplete.
fn comes_to(
    alloc: Global,
    cache: &mut CacheData<Eval>,
    files: &Files,
    (script, limit): (&str, u64),
    want: Result<(Outcome, How), EvalFault>,
    reads: usize,
) -> bool {
    let view = files.view(alloc);
    let mut sink = Constraint::new(alloc);
    let came = match evaluate(alloc, cache, &view, script, limit, &mut sink) {
        Ok(Reply { output, how }) => Ok((output, how)),
        Err(fault) => Err(fault),
    };
    let is_whole = sink.is_whole();
    let (recorded, _writes) = sink.into_parts();
    came == want && is_whole == came.is_ok() && (came.is_err() || recorded.slots().len() == reads)
}

/// Whether a script has this result from this height on, by a run and then by a hit. Below it, the script is too deep,
/// both before the run, when nothing is stored, and after it.
fn has_height(alloc: Global, files: &Files, script: &str, outcome: Outcome, reads: usize) -> bool {
    let mut cache = CacheData::new(alloc);
    let cache = &mut cache;
    let height = outcome.height;
    let below = height.saturating_sub(1);
    let deep = Err(EvalFault::TooDeep);
    let stored = Ok((outcome, How::Stored));
    let hit = Ok((outcome, How::Hit));
    let is_deep = comes_to(alloc, cache, files, (script, below), deep, reads);
    let is_new = cache.len() == 0;
    let is_stored = comes_to(alloc, cache, files, (script, height), stored, reads);
    let is_still_deep = comes_to(alloc, cache, files, (script, below), deep, reads);
    let is_hit = comes_to(alloc, cache, files, (script, height), hit, reads);
    let is_hit_above = comes_to(alloc, cache, files, (script, 128), hit, reads);
    is_deep && is_new && is_stored && is_still_deep && is_hit && is_hit_above
}

#[test]
fn a_script_is_evaluated_from_its_height_on(rt: HostRuntime) {
    let alloc = rt.alloc();
    let mut files = Files::new(alloc);
    let texts: &[(&str, &str)] = &[("a", "1"), ("b", "3 + 4"), ("c", "eval b")];
    for (path, text) in texts {
        assert!(rt; is_put(alloc, &mut files, *path, *text));
    }
    let cases: &[(&str, Result<i32, CalcFault>, u64, usize)] = &[
        ("1", Ok(1), 1, 0),
        ("007 + -7", Ok(0), 1, 0),
        ("eval a", Ok(1), 2, 1),
        ("1 + eval c", Ok(8), 3, 2),
        ("eval a + x", Err(NotANumber), 2, 1),
        ("x + eval a", Err(NotANumber), 1, 0),
        ("eval  a", Err(NotANumber), 2, 1),
        ("eval nowhere", Err(NotANumber), 2, 1),
        ("2147483647 + 1 + -1", Err(Overflow), 1, 0),
        ("-2147483648 + -1", Err(Overflow), 1, 0),
    ];
    for (script, value, height, reads) in cases {
        let value = *value;
        let height = *height;
        let outcome = Outcome { value, height };
        let is_so = has_height(alloc, &files, *script, outcome, *reads);
        assert!(rt; is_so, "for {script:?}");
    }
}
