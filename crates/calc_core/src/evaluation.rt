//! The memoized value of a script of the program `calc`. Each script that a script calls is memoized too.
//!
//! Runs of scripts nest on the stack, at most `limit` of them, each of about 1,160 bytes: 8 MiB last for some 7,000,
//! and a program that goes deeper ends there.
//!
//! ```rust
//! use calc_core::evaluation::evaluate;
//! use calc_core::files::Files;
//! use comemo::{CacheData, How, Top, Track};
//!
//! let mut files = Files::new(alloc);
//! files.write(String::from_str(alloc, "a")?, String::from_str(alloc, "1 + eval b")?)?;
//! files.write(String::from_str(alloc, "b")?, String::from_str(alloc, "2")?)?;
//! let mut cache = CacheData::new(alloc);
//! let outer = evaluate(alloc, &mut cache, &files.view(alloc), "eval a", 8, &mut Top::new())?;
//! assert_eq!(rt; (outer.output.value, outer.output.height), (Ok(3), 3));
//!
//! // What the run called is kept too.
//! let inner = evaluate(alloc, &mut cache, &files.view(alloc), "1 + eval b", 8, &mut Top::new())?;
//! assert_eq!(rt; (inner.output.value, inner.how), (Ok(3), How::Hit));
//! ```
ghost use Rattle.std.specs.Prelude.{◌≡◌, ◌≢◌, ⊤, ◌<◌, ◌≤◌, ◌↔◌, ℕ, List, IfOk, OnOk, OnErr, Err};
ghost use Rattle.std.proofs.Common.{rules};
ghost use Rattle.comemo.specs.Recording.{Took};
ghost use Rattle.comemo.specs.Function.{Learns};
ghost use Rattle.comemo.specs.Begin.{IsRun};
ghost use Rattle.comemo.specs.Begun.{OnBegun};
ghost use Rattle.comemo.specs.Called.{IsReply};
ghost use Rattle.comemo.specs.Finish.{BrokeOff};
ghost use Rattle.comemo.specs.MeaningLaws.{reads_laws};
ghost use Rattle.calc_core.specs.Kinds.{IsPart};
ghost use Rattle.calc_core.specs.Meaning.{Deep, IsTooDeep};
ghost use Rattle.calc_core.specs.ScriptCalls.{CallLeads, CallFails, PartLeads, PartFails, RunLeads, RunFails};
ghost use Rattle.calc_core.specs.Joined.{same_call, same_answer, touches, with_files};
ghost use Rattle.calc_core.specs.Files.{Reads, text_at, answers_of, with_key};
ghost use Rattle.comemo.specs.Meaning.{names};
ghost use Rattle.comemo.specs.Settling.{Settles, nothing_left};
ghost use Rattle.calc_core.specs.Evaluations.{At, Comes, ComesTo, PartComes, CallsDeep, EvalAsks, ScriptAsks, APartAsks, evaluating};
ghost use Rattle.calc_core.specs.Joined.{FilesFit};
ghost use Rattle.calc_core.specs.EvaluationCalls.{moves, EvalReply, OnlyTouches};

use crate::files::{FileCall, Files, JoinedAnswer, JoinedCall, Text};
use crate::scripts::{CalcFault, Outcome, Part, Parts, Total};
use comemo::internal::{Breaking, Hashed, Multi, Pending};
use comemo::{
    Begun, CacheData, Constraint, Function, How, MultiAnswer, MultiCall, Reply, Sink, View, begin,
};
use std::alloc::Global;

/// The memoized function of `evaluate`, whose cache is a `CacheData<Eval>`.
///
/// The key is the script's text, joined with the files, and shares the file's bytes if it is a file's; its calls are
/// reads of files.
pub struct Eval;

impl Function for Eval {
    type Call = MultiCall<(), FileCall>;

    type Key = (Text, ());

    type Answer = MultiAnswer<(), Text>;

    type Out = Outcome;

    ghost means = { λ key m outcome. Comes m key.0 outcome };

    ghost naming = { names EvalAsks };

    ghost laws = { reads_laws (record {
      outputs = λ key m a b r c h. Prim.search (rules, h);
      keys = λ j k m output r e h. Prim.search (rules, h);
      key_clones = Prim.search rules;
    }) };
}

/// Why a script was not evaluated. The sink is incomplete after each fault.
#[derive(Clone, Copy, Debug, PartialEq, Eq)]
pub enum EvalFault {
    /// The script goes deeper than the limit, or never ends.
    TooDeep,
    /// Out of memory.
    Memory,
}

/// Begins a script: returns its outcome on a hit, or a run.
fn begin_script<S: Sink<Call = JoinedCall, Answer = JoinedAnswer>>(
    alloc: Global,
    cache: &mut CacheData<Eval>,
    files: &View<'_, Files>,
    script: &Text,
    limit: u64,
    sink: &mut S,
) -> Result<Begun<Outcome, Pending<Eval>>, EvalFault>
    ensures begun { IfOk result (λ b. OnBegun b (λ outcome. (outcome.height ≤ limit)
        × IsReply evaluating (with_files script.now files.now) cache.old cache.old
        (S.took sink.old sink.new) (record { output = outcome; how = How.Hit }) cache.new)
        (λ run. (0 < limit) × (sink.new ≡ sink.old)
        × IsRun evaluating cache.old (with_files script.now files.now) run)) }
    ensures kept { IfOk result (λ b. OnBegun b (λ _. ⊤) (λ _. cache.new ≡ cache.old)) }
    ensures err_keeps { OnErr result (OnlyTouches files.now script.now cache.old cache.new) }
    ensures deep { result ≡ Err EvalFault.TooDeep
        → Deep (At (answers_of files.now)) script.now limit }
    ensures err { OnErr result (BrokeOff same_answer (with_key (answers_of files.now))
        (⟦<S as Breaking>⟧.breaks_off sink.old sink.new)) }
{
    if limit == 0 {
        sink.spoil();
        return Err(EvalFault::TooDeep);
    }
    let Ok(key) = script.clone() else {
        sink.spoil();
        return Err(EvalFault::Memory);
    };
    let mut input = Multi((Hashed(key), files.fork(alloc)));
    // One match and no test before it: a test would move the `Pending` once more, even if there is none.
    match begin(alloc, cache, &mut input, sink, true) {
        Ok(Begun::Hit(outcome)) => {
            if outcome.height > limit {
                sink.spoil();
                return Err(EvalFault::TooDeep);
            }
            Ok(Begun::Hit(outcome))
        }
        Ok(Begun::Run(pending)) => Ok(Begun::Run(pending)),
        Err(_) => Err(EvalFault::Memory),
    }
}

/// The outcome of a script that was begun: `evaluate` for any sink, and for the recording of an outer run. A macro
/// avoids writing it twice, since a function can't call itself with another sink type.
macro_rules! evaluate_script {
    ($alloc:ident, $cache:ident, $files:ident, $script:ident, $limit:ident, $sink:ident) => {
        match begin_script($alloc, $cache, $files, $script, $limit, $sink) {
            Ok(Begun::Hit(output)) => Ok(Reply {
                output,
                how: How::Hit,
            }),
            Ok(Begun::Run(mut pending)) => {
                match run_script($alloc, $cache, $files, $script, $limit, pending.recording()) {
                    Ok(outcome) => match pending.finish($cache, $sink, outcome) {
                        Ok(reply) => Ok(reply),
                        Err(_) => Err(EvalFault::Memory),
                    },
                    Err(fault) => {
                        pending.give_up($sink);
                        Err(fault)
                    }
                }
            }
            Err(fault) => Err(fault),
        }
    };
}

/// The outcome of one part of a script. The scripts that it calls have a limit.
#[cycle(evaluating)]
fn evaluate_part(
    alloc: Global,
    cache: &mut CacheData<Eval>,
    files: &View<'_, Files>,
    part: Part<'_>,
    limit: u64,
    recording: &mut Constraint<JoinedCall, JoinedAnswer>,
) -> Result<Outcome, EvalFault>
    requires { FilesFit files.now recording.now }
    ensures low { IfOk result (λ outcome. outcome.height ≤ limit) }
    ensures fits { OnOk result (FilesFit files.now recording.new) }
    ensures writes { OnOk result (recording.new.writes ≡ recording.old.writes) }
    ensures learns { (bytes : List ℕ) → IsPart bytes part.entry → IfOk result (λ outcome.
        Learns same_call same_answer recording.old recording.new
        (λ m. PartComes m bytes outcome)) }
    ensures asks { (bytes : List ℕ) → IsPart bytes part.entry → OnOk result
        (Settles same_call same_answer (APartAsks bytes) nothing_left
        recording.old.pairs recording.new.pairs) }
    ensures led { (bytes : List ℕ) → IsPart bytes part.entry → OnOk result
        (PartLeads (At (answers_of files.now)) (moves files.now) bytes cache.old cache.new) }
    ensures failed { (bytes : List ℕ) → IsPart bytes part.entry → OnErr result
        (PartFails (At (answers_of files.now)) (moves files.now) bytes cache.old cache.new) }
    ensures deep { (bytes : List ℕ) → IsPart bytes part.entry → result ≡ Err EvalFault.TooDeep
        → CallsDeep (answers_of files.now) bytes limit }
{
    match part {
        Part::Number(number) => Ok(Outcome {
            value: Ok(number),
            height: 0,
        }),
        Part::Bad => Ok(Outcome {
            value: Err(CalcFault::NotANumber),
            height: 0,
        }),
        Part::Eval(path) => {
            let Ok(text) = Files::read(alloc, files, path, recording) else {
                return Err(EvalFault::Memory);
            };
            let reply = evaluate_within(alloc, cache, files, &text, limit, recording)?;
            Ok(reply.output)
        }
    }
}

/// Runs a script, and records what it reads.
#[cycle(evaluating)]
fn run_script(
    alloc: Global,
    cache: &mut CacheData<Eval>,
    files: &View<'_, Files>,
    script: &Text,
    limit: u64,
    recording: &mut Constraint<JoinedCall, JoinedAnswer>,
) -> Result<Outcome, EvalFault>
    requires room { 0 < limit }
    requires fits { FilesFit files.now recording.now }
    ensures low { IfOk result (λ outcome. outcome.height ≤ limit) }
    ensures fits { OnOk result (FilesFit files.now recording.new) }
    ensures writes { OnOk result (recording.new.writes ≡ recording.old.writes) }
    ensures learns { IfOk result (λ outcome.
        Learns same_call same_answer recording.old recording.new
        (λ m. Comes m script.now outcome)) }
    ensures asks { OnOk result
        (Settles same_call same_answer (ScriptAsks script.now) nothing_left
        recording.old.pairs recording.new.pairs) }
    ensures led { OnOk result (RunLeads (At (answers_of files.now)) (moves files.now)
        script.now cache.old cache.new) }
    ensures failed { OnErr result (RunFails (At (answers_of files.now)) (moves files.now)
        script.now cache.old cache.new) }
    ensures deep { result ≡ Err EvalFault.TooDeep
        → Deep (At (answers_of files.now)) script.now limit }
{
    let mut parts = Parts::new(script.as_str());
    let mut total = Total::new();
    while let Some(part) = parts.next() {
        let outcome = evaluate_part(alloc, cache, files, part, limit - 1, recording)?;
        if let Err(fault) = total.add(outcome) {
            return Ok(total.outcome(Err(fault)));
        }
    }
    Ok(total.outcome(Ok(())))
}

/// `evaluate` for a script that an outer run calls, whose reads go to that run's recording.
#[cycle(evaluating)]
fn evaluate_within(
    alloc: Global,
    cache: &mut CacheData<Eval>,
    files: &View<'_, Files>,
    script: &Text,
    limit: u64,
    recording: &mut Constraint<JoinedCall, JoinedAnswer>,
) -> Result<Reply<Outcome>, EvalFault>
    ensures outcome { IfOk result (λ reply. ComesTo (answers_of files.now) script.now reply.output
        × (reply.output.height ≤ limit)) }
    ensures reply { IfOk result (λ reply. EvalReply files.now script.now cache.old
        (Took same_call touches recording.old recording.new) reply cache.new) }
    ensures led { OnOk result (CallLeads (At (answers_of files.now)) (moves files.now)
        script.now cache.old cache.new) }
    ensures failed { OnErr result (CallFails (At (answers_of files.now)) (moves files.now)
        script.now cache.old cache.new) }
    ensures deep { result ≡ Err EvalFault.TooDeep
        → Deep (At (answers_of files.now)) script.now limit }
{
    evaluate_script!(alloc, cache, files, script, limit, recording)
}

/// `evaluate` for a text.
fn evaluate_text<S: Sink<Call = JoinedCall, Answer = JoinedAnswer>>(
    alloc: Global,
    cache: &mut CacheData<Eval>,
    files: &View<'_, Files>,
    script: &Text,
    limit: u64,
    sink: &mut S,
) -> Result<Reply<Outcome>, EvalFault>
    ensures outcome { IfOk result (λ reply. ComesTo (answers_of files.now) script.now reply.output
        × (reply.output.height ≤ limit)) }
    ensures reply { IfOk result (λ reply. EvalReply files.now script.now cache.old
        (S.took sink.old sink.new) reply cache.new) }
    ensures led { OnOk result (CallLeads (At (answers_of files.now)) (moves files.now)
        script.now cache.old cache.new) }
    ensures failed { OnErr result (CallFails (At (answers_of files.now)) (moves files.now)
        script.now cache.old cache.new) }
    ensures too_deep { result ≢ Err EvalFault.Memory → (result ≡ Err EvalFault.TooDeep)
        ↔ IsTooDeep (Reads (text_at files.now)) script.now limit }
    ensures err { OnErr result (BrokeOff same_answer (with_key (answers_of files.now))
        (⟦<S as Breaking>⟧.breaks_off sink.old sink.new)) }
{
    evaluate_script!(alloc, cache, files, script, limit, sink)
}

/// The outcome of a script, memoized under the script and what it read of the files.
///
/// Each script that a run calls is memoized too. `TooDeep` means that the script is higher than the limit or never
/// ends, on a hit as on a run. What was cached on the way stays after a fault.
pub fn evaluate<S: Sink<Call = JoinedCall, Answer = JoinedAnswer>>(
    alloc: Global,
    cache: &mut CacheData<Eval>,
    files: &View<'_, Files>,
    script: &str,
    limit: u64,
    sink: &mut S,
) -> Result<Reply<Outcome>, EvalFault>
    ensures outcome { IfOk result (λ reply. ComesTo (answers_of files.now) script.now reply.output
        × (reply.output.height ≤ limit)) }
    ensures reply { IfOk result (λ reply. EvalReply files.now script.now cache.old
        (S.took sink.old sink.new) reply cache.new) }
    ensures led { OnOk result (CallLeads (At (answers_of files.now)) (moves files.now)
        script.now cache.old cache.new) }
    ensures failed { OnErr result (CallFails (At (answers_of files.now)) (moves files.now)
        script.now cache.old cache.new) }
    ensures too_deep { result ≢ Err EvalFault.Memory → (result ≡ Err EvalFault.TooDeep)
        ↔ IsTooDeep (Reads (text_at files.now)) script.now limit }
    ensures err { OnErr result (BrokeOff same_answer (with_key (answers_of files.now))
        (⟦<S as Breaking>⟧.breaks_off sink.old sink.new)) }
{
    match Text::from_str(alloc, script) {
        Ok(text) => evaluate_text(alloc, cache, files, &text, limit, sink),
        Err(_) => {
            sink.spoil();
            Err(EvalFault::Memory)
        }
    }
}
