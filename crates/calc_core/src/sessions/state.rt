//! The state of a session, and its answer to a command.
ghost use Rattle.std.specs.Prelude.{◌≡◌, ℕ, List, [], bytes_eq, if◌then◌else◌, OnOk, OnErr};
ghost use Rattle.calc_core.specs.Requests.{asked_by, eval as eval_of, size as size_of, evict as evict_of};
ghost use Rattle.comemo.specs.Cache.{Evicts};
ghost use Rattle.calc_core.specs.Sessions.{in_cache, texts_in, Answers};
ghost use Rattle.calc_core.specs.Remembered.{Past, Knows, Recalls, RecallsOf, remembered, remembered_of};

use crate::commands::{Answer, CommandRef};
use crate::evaluation::{Eval, EvalFault, evaluate};
use crate::files::{FileSize, Files, size};
use comemo::{CacheData, How, Reply, Top, Track};
use std::alloc::{AllocError, Global};

/// The greatest height of a script that a session evaluates.
const HEIGHT_LIMIT: u64 = 128;

/// The state between two commands: the files, and the caches of the memoized functions.
///
/// A cached output, with the texts that it read, stays until it is evicted.
#[derive(Drop)]
pub struct State {
    pub(crate) alloc: Global,
    pub(crate) files: Files,
    pub(crate) evaluated: CacheData<Eval>,
    pub(crate) sizes: CacheData<FileSize>,
}

/// Whether a run is in the cache after a call that ended so.
fn is_kept(how: How) -> bool
    ensures { result ≡ in_cache how }
{
    matches!(how, How::Hit | How::Stored | How::AlreadyExists)
}

impl State {
    /// No files, and empty caches. Does not allocate.
    pub fn new(alloc: Global) -> Self
        ensures { (path : List ℕ) → texts_in result path ≡ [] }
    {
        State {
            alloc,
            files: Files::new(alloc),
            evaluated: CacheData::new(alloc),
            sizes: CacheData::new(alloc),
        }
    }

    /// Carries out a command, and returns its answer, which is right for the files as they are now.
    ///
    /// After `Memory` the files are unchanged; what was cached on the way stays. An eviction is linear in the cached
    /// entries.
    pub fn carry_out(&mut self, command: CommandRef<'_>) -> Answer
        ensures answer { Answers (texts_in self.old) (asked_by command.entry) result
            (texts_in self.new) }
        ensures evicts { (max_age : ℕ) → asked_by command.entry ≡ evict_of max_age
            → Evicts max_age self.old.evaluated self.new.evaluated
            × Evicts max_age self.old.sizes self.new.sizes }
        ensures recalls { (past : List Past) → Knows past self.old.evaluated
            → Recalls past (texts_in self.old) (asked_by command.entry) result
            × Knows (remembered past (texts_in self.old) (asked_by command.entry) result)
            self.new.evaluated }
    {
        match command {
            CommandRef::Write(path, text) => match self.write(path, text) {
                Ok(()) => Answer::Written,
                Err(_) => Answer::Memory,
            },
            CommandRef::Eval(script) => self.value_of(script),
            CommandRef::Size(path) => self.size_at(path),
            CommandRef::Evict(max_age) => {
                self.evaluated.evict(max_age);
                self.sizes.evict(max_age);
                Answer::Evicted
            }
        }
    }

    /// Writes a copy of a text to the file at a path.
    fn write(&mut self, path: &str, text: &str) -> Result<(), AllocError>
        ensures ok { OnOk result ((q : List ℕ) → texts_in self.new q
            ≡ (if bytes_eq q path.now then text.now else texts_in self.old q)) }
        ensures err { OnErr result ((q : List ℕ) → texts_in self.new q ≡ texts_in self.old q) }
        ensures evaluated { self.new.evaluated ≡ self.old.evaluated }
    {
        let path = String::from_str(self.alloc, path)?;
        let text = String::from_str(self.alloc, text)?;
        self.files.write(path, text)
    }

    /// The value of a script.
    fn value_of(&mut self, script: &str) -> Answer
        ensures answer { Answers (texts_in self.old) (eval_of script.now) result
            (texts_in self.new) }
        ensures recalls { (past : List Past) → Knows past self.old.evaluated
            → RecallsOf past (texts_in self.old) script.now result
            × Knows (remembered_of past (texts_in self.old) script.now result)
            self.new.evaluated }
    {
        // For the proof: each stored path is a run.
        self.evaluated.reveal_runs();
        let view = self.files.view(self.alloc);
        let cache = &mut self.evaluated;
        match evaluate(
            self.alloc,
            cache,
            &view,
            script,
            HEIGHT_LIMIT,
            &mut Top::new(),
        ) {
            Ok(Reply { output, how }) => Answer::Value {
                hit: how == How::Hit,
                kept: is_kept(how),
                value: output.value,
            },
            Err(EvalFault::TooDeep) => Answer::TooDeep,
            Err(EvalFault::Memory) => Answer::Memory,
        }
    }

    /// The size of the file at a path.
    fn size_at(&mut self, path: &str) -> Answer
        ensures answer { Answers (texts_in self.old) (size_of path.now) result (texts_in self.new) }
        ensures evaluated { self.new.evaluated ≡ self.old.evaluated }
    {
        let view = self.files.view(self.alloc);
        match size(self.alloc, &mut self.sizes, &view, path, &mut Top::new()) {
            Ok(Reply { output, how }) => Answer::Size {
                hit: how == How::Hit,
                bytes: output,
            },
            Err(_) => Answer::Memory,
        }
    }
}
