//! Memoized functions, and the cache of their outputs. `look`, `peek`, `store` and `touch` follow one stored path, and
//! cost what the operations of `CallTree` do.
ghost use Rattle.std.specs.Prelude.{◌≡◌, ◌⊎◌, ◌+◌, nat_lt, [], List, true, false, IsTrue, option_copied, option_map, IfOk, IfErr, OnOk, OnErr, IfSome, IfNone, MatchOption, length};
ghost use Rattle.std.specs.List.{All, Any};
ghost use Rattle.comemo_base.specs.Answers.{Agrees};
ghost use Rattle.comemo_base.specs.Lookup.{under, IsAsked, IsRefused, FindsAgreeing, FindsAgreeingPath};
ghost use Rattle.comemo_base.specs.Insertion.{IsReason};
ghost use Rattle.comemo_cache.specs.Meaning.{Meaning, Naming, unnamed, IsNamed, IsNamedRun, exactly, invocation, run, IsRight};
ghost use Rattle.comemo_base.specs.declared.insertion.InsertError.TheVariants.{MissingCall};
ghost use Rattle.comemo_cache.specs.Cache.{FunctionLaws, Stands, HasNone, HasAged, IsPeeked, IsMiss, IsRefusedLook, TouchesAt, Evicts};
ghost use Rattle.comemo_base.specs.Tree.{IsTree};
ghost use Rattle.comemo_cache.specs.Storing.{Stores};

use comemo_base::{CallSequence, InsertError};
use comemo_track::answer::Answer;
use comemo_track::input::Input;
use comemo_track::track::Call;
use comemo_tree::CallTree;
use std::alloc::{AllocError, Global};
use std::hash::Hash;
use std::marker::Model;

/// What a memoized function means: which outputs, and which writes, are right at a key and at answers.
///
/// Several untracked arguments form one key, as a tuple. A run is written for any tracked value that has these calls and
/// answers. The checker finds the laws if keys, calls, answers and outputs are plain values.
pub trait Function {
    /// What a run can ask, and write.
    type Call: Call;

    /// The untracked arguments, under which a call is cached.
    type Key: Clone + Eq + Hash;

    /// The answer to a read: one type for all calls.
    type Answer: Answer;

    /// The output.
    type Out: Clone;

    // at this key and these answers, this output is right
    ghost means: { Self.Key → (Self.Call → Self.Answer) → Self.Out → Type 0 };

    // and these writes: none, by default
    ghost writes: { Self.Key → (Self.Call → Self.Answer) → Self.Out
        → List Self.Call → Type 0 } = { λ _ _ _ W. W ≡ [] };

    // which calls are asked at a key and at answers, if the function names them; then each path in a cache is causal
    // and complete, and storing a run never fails with `MissingCall`
    ghost naming: { Naming Self.Key Self.Call Self.Answer } = { unnamed };

    // clones of keys are equal; the meaning treats equal keys and equal writes alike, and an output like its clone
    ghost laws: { FunctionLaws Self.Call.eq Self.Answer.eq Self.Key.eq
        Self.Key.is_clone Self.Out.is_clone (IsRight means writes) };
}

/// What a memoized function means, for contracts, as `⟦<M as Meant>⟧.right`. There is nothing to implement.
pub trait Meant: Function {
    // which outputs and writes are right at a key and answers
    ghost right: { Self.Key → (Self.Call → Self.Answer) → Self.Out → List Self.Call → Type 0 };

    // the same with the equalities by which it is told, as one value
    ghost meaning: { Meaning Self.Key Self.Call Self.Answer Self.Out };
}

impl<M: Function> Meant for M {
    ghost right = { IsRight M.means M.writes };

    ghost meaning = { record {
      same_call = M.Call.eq;
      same_answer = M.Answer.eq;
      same_key = M.Key.eq;
      is_write = M.Call.is_write;
      is_clone = M.Out.is_clone;
      right = IsRight M.means M.writes;
      naming = M.naming;
    } };
}

/// The result of a run, as the cache holds it.
#[derive(Drop)]
pub(crate) struct KeptRun<M: Function> {
    output: M::Out,
    writes: Vec<M::Call>,
    pub(crate) age: usize,
}

impl<M: Function> Model for KeptRun<M> {
    ghost use Rattle.comemo_cache.specs.Cache.{Kept, kept_code};

    ghost Value = { Kept M.Out M.Call };

    ghost coded = { kept_code M.Out.code M.Call.code };

    ghost view = { λ s. record { output = s.output; writes = s.writes.items; age = s.age } };
}

/// A cache of one memoized function: outputs under the keys and the paths of calls of their runs.
///
/// Contracts see a list of entries, whose order doesn't matter. Each entry is legal: its output and its writes are
/// right at its key for all answers that agree with its path. Entries under one key share one copy of it; paths with an
/// equal prefix share its calls and answers. Only `evict` drops entries.
#[derive(Drop)]
pub struct CacheData<M: Function> {
    pub(crate) tree: CallTree<M::Key, M::Call, M::Answer, KeptRun<M>>,
}

impl<M: Function> Model for CacheData<M> {
    ghost use Rattle.std.specs.Prelude.{List};
    ghost use Rattle.std.specs.List.{All, Any};
    ghost use Rattle.std.specs.Coded.{coded_list};
    ghost use Rattle.comemo_base.specs.Tree.{Stored, stored_code};
    ghost use Rattle.comemo_cache.specs.Cache.{Kept, kept_code, IsLegal};
    ghost use Rattle.comemo_cache.specs.Meaning.{IsRight};

    ghost Value = { List (Stored M.Key M.Call M.Answer (Kept M.Out M.Call)) };

    ghost coded = { coded_list (stored_code M.Key.code M.Call.code M.Answer.code
        (kept_code M.Out.code M.Call.code)) };

    ghost view = { λ s. s.tree };

    ghost invariant = { λ s. All (IsLegal (record {
      same_call = M.Call.eq;
      same_answer = M.Answer.eq;
      same_key = M.Key.eq;
      is_write = M.Call.is_write;
      is_clone = M.Out.is_clone;
      right = IsRight M.means M.writes;
      naming = M.naming;
    })) s.tree };
}

/// What a look-up found: the entry's path, output and writes, cloned.
#[derive(Drop)]
pub struct Found<M: Function> {
    /// The calls of the path, in order, with the answers of this look-up, which equal the stored ones.
    pub pairs: Vec<(M::Call, M::Answer)>,
    /// The output.
    pub output: M::Out,
    /// The run's writes, in order.
    pub writes: Vec<M::Call>,
    /// How many evictions the entry outlived since it was stored or last hit.
    pub age: usize,
}

/// What a peek found: as `Found`, without the path.
#[derive(Drop)]
pub struct Peeked<M: Function> {
    /// The output.
    pub output: M::Out,
    /// The run's writes, in order.
    pub writes: Vec<M::Call>,
    /// How many evictions the entry outlived since it was stored or last hit.
    pub age: usize,
}

/// The entry under a key whose path agrees with an input's answers, and the path, its calls cloned.
fn find_agreeing<'a, K: Clone + Eq + Hash, In: Input, T>(
    tree: &'a CallTree<K, In::Call, In::Answer, T>,
    key: &K,
    input: &mut In,
) -> Result<Option<(Vec<(In::Call, In::Answer)>, &'a T)>, AllocError>
where
    In::Answer: Answer,
    requires reads { All (λ e. All (λ p. In.Call.is_write p.0 ≡ false) e.path) tree.now }
    ensures same { In.did input.old input.new [] }
    ensures found { IfOk result (λ found. FindsAgreeingPath In.Call.eq In.Answer.eq
        (under K.eq tree.now key.now) (In.answers input.old)
        (option_map (λ p. (p.0.items, p.1.now)) found)) }
    ensures asked { IfOk result (λ found. (asked : List (In.Call × In.Answer))
        × Agrees In.Answer.eq (In.answers input.old) asked
        × IsAsked In.Call.eq In.Answer.eq (under K.eq tree.now key.now) asked
        (option_map (λ p. p.1.now) found)) }
    ensures err { OnErr result (((asked : List (In.Call × In.Answer)) × (next : In.Call)
        × Agrees In.Answer.eq (In.answers input.old) asked
        × IsRefused In.Call.eq In.Answer.eq (under K.eq tree.now key.now) asked next)
        ⊎ Any (λ e. Agrees In.Answer.eq (In.answers input.old) e.path)
        (under K.eq tree.now key.now)) }
{
    // For the proof: at most one stored path agrees.
    tree.reveal_tree();
    tree.find(
        key,
        &mut |call: &In::Call| -> Result<In::Answer, AllocError>
            requires { In.Call.is_write call.now ≡ false }
            ensures answer { IfOk result
                (λ answer. IsTrue (In.Answer.eq (In.answers input.entry.now call.now) answer)) }
            ensures same { In.did input.entry.now input.exit.now [] }
            ensures name { input.exit.ghost_name ≡ input.entry.ghost_name }
        { input.call(call) },
    )
}

/// The value under a key whose path agrees with an input's answers. Does not allocate; fails only if the input does.
fn get_agreeing<'a, K: Clone + Eq + Hash, In: Input, T>(
    tree: &'a CallTree<K, In::Call, In::Answer, T>,
    key: &K,
    input: &mut In,
) -> Result<Option<&'a T>, AllocError>
    requires reads { All (λ e. All (λ p. In.Call.is_write p.0 ≡ false) e.path) tree.now }
    ensures same { In.did input.old input.new [] }
    ensures found { IfOk result (λ found. FindsAgreeing In.Call.eq In.Answer.eq
        (under K.eq tree.now key.now) (In.answers input.old) (option_copied found)) }
    ensures asked { IfOk result (λ found. (asked : List (In.Call × In.Answer))
        × Agrees In.Answer.eq (In.answers input.old) asked
        × IsAsked In.Call.eq In.Answer.eq (under K.eq tree.now key.now) asked
        (option_copied found)) }
    ensures err { OnErr result ((asked : List (In.Call × In.Answer)) × (next : In.Call)
        × Agrees In.Answer.eq (In.answers input.old) asked
        × IsRefused In.Call.eq In.Answer.eq (under K.eq tree.now key.now) asked next) }
{
    // For the proof: at most one stored path agrees.
    tree.reveal_tree();
    tree.get(
        key,
        &mut |read: &In::Call| -> Result<In::Answer, AllocError>
            requires { In.Call.is_write read.now ≡ false }
            ensures answer { IfOk result
                (λ answer. IsTrue (In.Answer.eq (In.answers input.entry.now read.now) answer)) }
            ensures same { In.did input.entry.now input.exit.now [] }
            ensures name { input.exit.ghost_name ≡ input.entry.ghost_name }
        { input.call(read) },
    )
}

impl<M: Function> CacheData<M> {
    /// An empty cache. Does not allocate.
    pub fn new(alloc: Global) -> Self
        ensures { result ≡ [] }
    {
        CacheData {
            tree: CallTree::new(alloc),
        }
    }

    /// How many entries the cache has.
    pub fn len(&self) -> usize
        ensures { result ≡ length self.now }
    {
        self.tree.len()
    }

    /// Finds the entry under a key whose path agrees with the input's answers, and clones it.
    ///
    /// It asks the calls of one stored path, each once. Fails if an answer does or, once an entry is found, if a clone
    /// does.
    pub fn look<In: Input<Call = M::Call, Key = M::Key, Answer = M::Answer>>(
        &self,
        key: &M::Key,
        input: &mut In,
    ) -> Result<Option<Found<M>>, AllocError>
        ensures same { In.did input.old input.new [] }
        ensures found { IfOk result (λ found. MatchOption found
            (HasNone ⟦<M as Meant>⟧.meaning self.now
            (invocation key.now (In.answers input.old) true))
            (λ f. HasAged ⟦<M as Meant>⟧.meaning self.now
            (invocation key.now (In.answers input.old) true)
            (run key.now f.pairs.items f.output f.writes.items) f.age)) }
        ensures asked { IfOk result (λ found. IfNone found ((asked : List (M.Call × M.Answer))
            × IsMiss ⟦<M as Meant>⟧.meaning self.now
            (invocation key.now (In.answers input.old) true) asked)) }
        ensures stands { IfOk result (λ found. IfSome found (λ f. Stands ⟦<M as Meant>⟧.meaning
            (run key.now f.pairs.items f.output f.writes.items))) }
        ensures reads { IfOk result (λ found. IfSome found (λ f.
            All (λ p. M.Call.is_write p.0 ≡ false) f.pairs.items)) }
        ensures written { IfOk result (λ found. IfSome found (λ f.
            All (λ c. M.Call.is_write c ≡ true) f.writes.items)) }
        ensures settled { IfOk result (λ found. IfSome found (λ f.
            IsNamedRun ⟦<M as Meant>⟧.meaning key.now f.pairs.items)) }
        ensures err { OnErr result (IsRefusedLook ⟦<M as Meant>⟧.meaning self.now
            (invocation key.now (In.answers input.old) true)) }
    {
        let (pairs, kept) = match find_agreeing(&self.tree, key, input) {
            Ok(Some((pairs, kept))) => (pairs, kept),
            Ok(None) => return Ok(None),
            Err(error) => return Err(error),
        };
        let output = kept.output.clone()?;
        let writes = kept.writes.clone()?;
        Ok(Some(Found {
            pairs,
            output,
            writes,
            age: kept.age,
        }))
    }

    /// As `look`, for a caller that doesn't need the path, which isn't cloned.
    pub fn peek<In: Input<Call = M::Call, Key = M::Key, Answer = M::Answer>>(
        &self,
        key: &M::Key,
        input: &mut In,
    ) -> Result<Option<Peeked<M>>, AllocError>
        ensures same { In.did input.old input.new [] }
        ensures found { IfOk result (λ found. MatchOption found
            (HasNone ⟦<M as Meant>⟧.meaning self.now
            (invocation key.now (In.answers input.old) true))
            (λ f. IsPeeked ⟦<M as Meant>⟧.meaning self.now
            (invocation key.now (In.answers input.old) true)
            f.output f.writes.items f.age)) }
        ensures asked { IfOk result (λ found. IfNone found ((asked : List (M.Call × M.Answer))
            × IsMiss ⟦<M as Meant>⟧.meaning self.now
            (invocation key.now (In.answers input.old) true) asked)) }
        ensures err { OnErr result (IsRefusedLook ⟦<M as Meant>⟧.meaning self.now
            (invocation key.now (In.answers input.old) true)) }
    {
        let kept = match get_agreeing(&self.tree, key, input) {
            Ok(Some(kept)) => kept,
            Ok(None) => return Ok(None),
            Err(error) => return Err(error),
        };
        let output = kept.output.clone()?;
        let copies = kept.writes.clone()?;
        Ok(Some(Peeked {
            output,
            writes: copies,
            age: kept.age,
        }))
    }

    /// Stores a run: its output and writes under its key and the sequence of its calls.
    ///
    /// The output and the writes must be right for all answers that agree with the sequence, which holds reads only. On
    /// error all arguments are dropped.
    pub fn store(
        &mut self,
        key: M::Key,
        sequence: CallSequence<M::Call, M::Answer>,
        output: M::Out,
        writes: Vec<M::Call>,
    ) -> Result<(), InsertError>
        requires reads { All (λ p. M.Call.is_write p.0 ≡ false) sequence.pairs }
        requires written { All (λ c. M.Call.is_write c ≡ true) writes.items }
        requires stands { Stands ⟦<M as Meant>⟧.meaning
            (run key sequence.pairs output writes.items) }
        requires settled { IsNamedRun ⟦<M as Meant>⟧.meaning key sequence.pairs }
        ensures stored { OnOk result (Stores (exactly ⟦<M as Meant>⟧.meaning) self.old
            (run key sequence.pairs output writes.items) self.new) }
        ensures reason { IfErr result
            (IsReason M.Call.eq M.Answer.eq (under M.Key.eq self.old key) sequence.pairs) }
        ensures named { IfErr result (λ error. error ≡ MissingCall
            → ¬ IsNamed ⟦<M as Meant>⟧.meaning) }
        ensures err { OnErr result (self.new ≡ self.old) }
    {
        // For the proof: the sequence has each call once.
        sequence.reveal_distinct_calls();
        let kept = KeptRun {
            output,
            writes,
            age: 0,
        };
        self.tree.insert(key, sequence, kept)
    }

    /// Sets the age of the entry under a key whose path has exactly these answers to 0. Does not allocate.
    pub fn touch(&mut self, key: &M::Key, answers: &[M::Answer])
        ensures { TouchesAt M.Answer.eq M.Key.eq key.now answers.now self.old self.new }
    {
        let _ = self.tree.change(
            key,
            answers,
            |kept: &mut KeptRun<M>|
                ensures { kept.new ≡ record kept.old { age = 0 } }
            { kept.age = 0 },
        );
    }

    /// Drops the entries whose age is at least the bound; the others' ages grow by one. `evict(0)` drops all.
    ///
    /// Linear in the entries. Does not allocate.
    pub fn evict(&mut self, max_age: usize)
        ensures { Evicts max_age self.old self.new }
    {
        self.tree.retain(
            |kept: &mut KeptRun<M>| -> bool
                ensures stays { result ≡ nat_lt kept.old.age max_age }
                ensures aged { result ≡ true
                    → kept.new ≡ record kept.old { age = kept.old.age + 1 } }
            {
                if kept.age >= max_age {
                    return false;
                }
                // Never overflows: the age is below the bound.
                kept.age += 1;
                true
            },
        );
    }

    /// Makes known to a proof that paths are causal and complete, if the function names its calls. Does nothing at run
    /// time.
    pub fn reveal_runs(&self)
        ensures { All (λ e. IsNamedRun ⟦<M as Meant>⟧.meaning e.key e.path) self.now }
    {
        // For the proof: at most one stored path agrees.
        self.tree.reveal_tree();
    }

    /// Makes known to a proof that two paths under one key part, so that at most one entry agrees. Does nothing at run
    /// time.
    pub fn reveal_tree(&self)
        ensures { IsTree M.Call.eq M.Answer.eq M.Key.eq self.now }
    {
        // For the proof: at most one stored path agrees.
        self.tree.reveal_tree();
    }
}
