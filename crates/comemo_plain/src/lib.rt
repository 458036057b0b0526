//! The call tree as a plain list: a map from a key and a path of calls with their answers to a value.
//!
//! Look-ups search the whole list. It is short and slow, and no cache uses it: the tree of `comemo_tree` is compared
//! with it, under contracts that are alike and independent of the entries' order.
//!
//! A tree stores a value under a key and the calls that a run asked, each with its answer. A look-up asks an oracle
//! these calls. It returns the value if all answers are the same, and nothing if one differs:
//!
//! ```rust
//! use comemo_base::CallSequence;
//! use comemo_plain::PlainTree;
//! use std::test::Fail;
//!
//! fn what_is_stored_is_found_by_its_answers(rt: HostRuntime) -> Result<(), Fail> {
//!     let mut run = CallSequence::new(rt.alloc());
//!     let _ = run.insert(b'a', 10)?;
//!     let _ = run.insert(b'b', 20)?;
//!     let mut tree: PlainTree<u32, u8, u64, u64> = PlainTree::new(rt.alloc());
//!     tree.insert(7, run, 30)?;
//!     let found = tree.get(&7, &mut |call: &u8| Ok(if *call == b'a' { 10 } else { 20 }))?;
//!     assert_eq!(rt; found.copied(), Some(30));
//!     let other = tree.get(&7, &mut |_: &u8| Ok(10))?;
//!     assert_eq!(rt; other.copied(), None);
//!     Ok(())
//! }
//! ```
//!
//! These lines run as a test in the crate `comemo_tree_tests`, in `src/examples.rt`.
#![tactic(auto)]

ghost use Rattle.std.specs.Prelude.{◌≡◌, ◌≤◌, ◌<◌, ◌↔◌, ◌⊎◌, ◌∷◌, ◌++◌, [], List, length, IsTrue, Some, IfSome, IfNone, IfOk, IfErr, OnOk, OnErr, IsOk, option_copied, option_map};
ghost use Rattle.std.specs.List.{All, HoldsAt};
ghost use Rattle.std.specs.List.Sorted.{IsPermutation};
ghost use Rattle.std.specs.Fn.{AlwaysReturns};
ghost use Rattle.comemo_base.specs.Sequence.{HasDistinctCalls};
ghost use Rattle.comemo_base.specs.Tree.{Parts, IsSamePath, IsTree, stored};
ghost use Rattle.comemo_base.specs.Lookup.{under, Answered, CanBeAsked, IsAsked, LooksUp, LooksUpPath, FindsSome, IsLookupRefused, IsPathRefused, FindsAgreeing, FindsAgreeingPath, ForAnswers};
ghost use Rattle.comemo_base.specs.Insertion.{Exists, Misses, IsStem, IsNewPath, IsReason, Adds, outside};
ghost use Rattle.comemo_base.specs.Steps.{Follows};

use comemo_base::{CallSequence, InsertError};
use std::alloc::{AllocError, Global};
use std::hash::Hash;
use std::marker::Model;

/// A value under a key and a path.
#[derive(Debug, Drop)]
struct Entry<K, C, R, T> {
    key: K,
    path: Vec<(C, R)>,
    value: T,
}

impl<K, C, R, T> Model for Entry<K, C, R, T> {
    ghost use Rattle.comemo_base.specs.Tree.{Stored, stored_code};

    ghost Value = { Stored K C R T };

    ghost coded = { stored_code K.code C.code R.code T.code };

    ghost view = { λ e. record { key = e.key; path = e.path.items; value = e.value } };
}

/// A map from a key and a path to a value. A path is a list of calls with their answers, each call once.
///
/// Contracts see it as a list of entries, whose order doesn't matter. Two paths under one key diverge: after an equal
/// prefix they have the same call with different answers. So at most one path under a key agrees with given answers.
/// Paths share no memory.
#[derive(Debug, Drop)]
pub struct PlainTree<K: Eq + Hash, C: Eq + Hash, R: Ord, T> {
    entries: Vec<Entry<K, C, R, T>>,
}

impl<K: Eq + Hash, C: Eq + Hash, R: Ord, T> Model for PlainTree<K, C, R, T> {
    ghost use Rattle.std.specs.Prelude.{List};
    ghost use Rattle.std.specs.Coded.{coded_list};
    ghost use Rattle.comemo_base.specs.Tree.{Stored, stored_code, IsTree};

    ghost Value = { List (Stored K C R T) };

    ghost coded = { coded_list (stored_code K.code C.code R.code T.code) };

    ghost view = { λ t. t.entries.items };

    ghost invariant = { λ t. IsTree C.eq R.eq K.eq t.entries.items };
}

/// Whether a path has the answer at a depth, and equals another path before it.
fn follows<C, R: Ord>(path: &[(C, R)], other: &[(C, R)], depth: usize, answer: &R) -> bool
    requires { depth ≤ length other.now }
    ensures { IsTrue result ↔ Follows R.eq path.now other.now depth answer.now }
{
    if path.len() <= depth {
        return false;
    }
    if path[depth].1 != *answer {
        return false;
    }
    for i in 0..depth {
        if path[i].1 != other[i].1 {
            return false;
        }
    }
    true
}

/// The index of the first entry under a key.
fn find_first<K: Eq, C, R, T>(entries: &[Entry<K, C, R, T>], key: &K) -> Option<usize>
    ensures some { IfSome result (λ j. (j < length entries.now)
        × HoldsAt (λ e. IsTrue (K.eq e.key key.now)) entries.now j) }
    ensures none { IfNone result (All (λ e. ¬ IsTrue (K.eq e.key key.now)) entries.now) }
{
    for (i, entry) in entries.iter().enumerate() {
        if entry.key == *key {
            return Some(i);
        }
    }
    None
}

/// The index of the first entry under a key whose path follows another to the depth, and has the answer there.
fn find_branch<K: Eq, C, R: Ord, T>(
    entries: &[Entry<K, C, R, T>],
    key: &K,
    path: &[(C, R)],
    depth: usize,
    answer: &R,
) -> Option<usize>
    requires { depth ≤ length path.now }
    ensures some { IfSome result (λ j. (j < length entries.now)
        × HoldsAt (λ e. IsTrue (K.eq e.key key.now)
        × Follows R.eq e.path path.now depth answer.now) entries.now j) }
    ensures none { IfNone result (All (λ e. IsTrue (K.eq e.key key.now)
        → ¬ Follows R.eq e.path path.now depth answer.now) entries.now) }
{
    for (i, entry) in entries.iter().enumerate() {
        if entry.key == *key && follows(entry.path.as_slice(), path, depth, answer) {
            return Some(i);
        }
    }
    None
}

/// The entry to which the oracle's answers lead. The oracle is asked along one path.
fn get_in<'a, K: Eq + Hash, C: Eq + Hash, R: Ord + Drop, T, O: FnMut(&C) -> Result<R, AllocError>>(
    entries: &'a [Entry<K, C, R, T>],
    key: &K,
    oracle: &mut O,
) -> Result<Option<&'a Entry<K, C, R, T>>, AllocError>
    requires callable { CanBeAsked O.FnMut (under K.eq entries.now key.now) oracle.old }
    requires tree { IsTree C.eq R.eq K.eq entries.now }
    ensures asked { IfOk result (λ found. (g : List (C × R))
        × Answered O.FnMut oracle.old g oracle.new
        × IsAsked C.eq R.eq (under K.eq entries.now key.now) g
        (option_map (λ e. e.value) (option_copied found))
        × IfSome (option_copied found) (λ e. IsSamePath C.eq R.eq g e.path)) }
    ensures refused { IfErr result (λ e.
        IsLookupRefused O.FnMut C.eq R.eq (under K.eq entries.now key.now)
        oracle.old e oracle.new) }
{
    let Some(first) = find_first(entries, key) else {
        return Ok(None);
    };
    let mut at = first;
    let mut depth = 0;
    loop {
        let entry = &entries[at];
        let path = entry.path.as_slice();
        if depth == path.len() {
            return Ok(Some(entry));
        }
        let answer = oracle(&path[depth].0)?;
        let Some(next) = find_branch(entries, key, path, depth, &answer) else {
            return Ok(None);
        };
        at = next;
        depth += 1;
    }
}

impl<K: Eq + Hash, C: Eq + Hash, R: Ord, T> PlainTree<K, C, R, T> {
    /// An empty tree. Does not allocate.
    pub fn new(alloc: Global) -> Self
        ensures { result ≡ [] }
    {
        PlainTree {
            entries: Vec::new(alloc),
        }
    }

    /// Makes the tree's invariant known to a proof. Does nothing at run time.
    pub fn reveal_tree(&self)
        ensures { IsTree C.eq R.eq K.eq self.now }
    {
        let _ = &self.entries;
    }

    /// How many entries the tree has.
    pub fn len(&self) -> usize
        ensures { result ≡ length self.now }
    {
        self.entries.len()
    }

    /// Looks up the value under a key whose path has the oracle's answers.
    ///
    /// It asks the calls of one stored path, each once and in order, so the oracle only needs to answer stored calls.
    /// Without a path under the key it asks nothing. Fails only if the oracle does.
    pub fn get<O: FnMut(&C) -> Result<R, AllocError>>(
        &self,
        key: &K,
        oracle: &mut O,
    ) -> Result<Option<&T>, AllocError>
    where
        R: Drop,
        requires { CanBeAsked O.FnMut (under K.eq self.now key.now) oracle.old }
        ensures asked { IfOk result (λ found.
            LooksUp O.FnMut C.eq R.eq (under K.eq self.now key.now)
            oracle.old oracle.new (option_copied found)) }
        ensures refused { IfErr result (λ e. IsLookupRefused O.FnMut C.eq R.eq
            (under K.eq self.now key.now) oracle.old e oracle.new) }
        ensures answered { AlwaysReturns O.FnMut (λ a r. IsOk r) oracle.old → IsOk result }

        // For a caller that only knows which answers its oracle has.
        ensures agreeing { ForAnswers O.FnMut C.eq R.eq oracle.old (λ m. IfOk result (λ found.
            FindsAgreeing C.eq R.eq (under K.eq self.now key.now) m (option_copied found))) }
    {
        let Some(entry) = get_in(self.entries.as_slice(), key, oracle)? else {
            return Ok(None);
        };
        Ok(Some(&entry.value))
    }

    /// As `get`, with a clone of the path. Also fails if cloning the path does.
    pub fn find<O: FnMut(&C) -> Result<R, AllocError>>(
        &self,
        key: &K,
        oracle: &mut O,
    ) -> Result<Option<(Vec<(C, R)>, &T)>, AllocError>
    where
        C: Clone,
        R: Clone,
        requires callable { CanBeAsked O.FnMut (under K.eq self.now key.now) oracle.old }
        requires calls_clone { (x y : C) → C.is_clone x y → IsTrue (C.eq x y) }
        requires answers_clone { (x y : R) → R.is_clone x y → IsTrue (R.eq x y) }
        ensures asked { IfOk result (λ found.
            LooksUpPath O.FnMut C.eq R.eq (under K.eq self.now key.now)
            oracle.old oracle.new (option_map (λ p. (p.0.items, p.1.now)) found)) }
        ensures refused { IfErr result (λ e. IsPathRefused O.FnMut C.eq R.eq
            (under K.eq self.now key.now) oracle.old e oracle.new) }
        ensures answered { AlwaysReturns O.FnMut (λ a r. IsOk r) oracle.old → OnErr result
            (FindsSome O.FnMut C.eq R.eq (under K.eq self.now key.now) oracle.old oracle.new) }

        // For a caller that only knows which answers its oracle has.
        ensures agreeing { ForAnswers O.FnMut C.eq R.eq oracle.old (λ m. IfOk result (λ found.
            FindsAgreeingPath C.eq R.eq (under K.eq self.now key.now) m
            (option_map (λ p. (p.0.items, p.1.now)) found))) }
    {
        let Some(hit) = get_in(self.entries.as_slice(), key, oracle)? else {
            return Ok(None);
        };
        let path = hit.path.clone()?;
        Ok(Some((path, &hit.value)))
    }
}

/// The longest path that the sequence shares with the tree, whose pairs are taken out of the sequence.
fn walk<K: Eq + Hash, C: Clone + Eq + Hash, R: Ord + Drop, T>(
    alloc: Global,
    entries: &[Entry<K, C, R, T>],
    key: &K,
    sequence: &mut CallSequence<C, R>,
) -> Result<Vec<(C, R)>, InsertError>
    requires clones_equal { (x y : C) → C.is_clone x y → IsTrue (C.eq x y) }
    requires tree { IsTree C.eq R.eq K.eq entries.now }
    ensures ok { OnOk result
        ((¬ Exists C.eq R.eq (under K.eq entries.now key.now) sequence.old.pairs)
        × (¬ Misses C.eq R.eq (under K.eq entries.now key.now) sequence.old.pairs)) }
    ensures stem { IfOk result (λ path.
        IsStem C.eq R.eq (under K.eq entries.now key.now) sequence.old.pairs path.items) }
    ensures left { IfOk result (λ path.
        sequence.new.pairs ≡ outside C.eq path.items sequence.old.pairs) }
    ensures distinct { IfOk result (λ path.
        HasDistinctCalls C.eq (path.items ++ sequence.new.pairs)) }
    ensures apart { IfOk result (λ path. (rest : List (C × R))
        → All (λ e. IsTrue (K.eq e.key key.now)
        → Parts C.eq R.eq e.path (path.items ++ rest)
        × Parts C.eq R.eq (path.items ++ rest) e.path) entries.now) }
    ensures reason { IfErr result
        (IsReason C.eq R.eq (under K.eq entries.now key.now) sequence.old.pairs) }
{
    let mut path = Vec::new(alloc);
    // For the proof: the sequence has each call once.
    sequence.reveal_distinct_calls();
    let Some(first) = find_first(entries, key) else {
        return Ok(path);
    };
    let mut at = first;
    'walk: loop {
        let entry = &entries[at];
        let stored = entry.path.as_slice();
        let depth = path.len();
        if depth == stored.len() {
            return Err(InsertError::AlreadyExists);
        }
        let call = &stored[depth].0;
        let Some(answer) = sequence.extract(call) else {
            return Err(InsertError::MissingCall);
        };
        let copy = call.clone()?;
        let next = find_branch(entries, key, stored, depth, &answer);
        path.push((copy, answer))?;
        match next {
            Some(next) => at = next,
            None => return Ok(path),
        }
    }
}

/// The path that an insertion stores.
fn new_path<K: Eq + Hash, C: Clone + Eq + Hash, R: Ord + Drop, T>(
    alloc: Global,
    entries: &[Entry<K, C, R, T>],
    key: &K,
    mut sequence: CallSequence<C, R>,
) -> Result<Vec<(C, R)>, InsertError>
    requires clones_equal { (x y : C) → C.is_clone x y → IsTrue (C.eq x y) }
    requires tree { IsTree C.eq R.eq K.eq entries.now }
    ensures ok { OnOk result
        ((¬ Exists C.eq R.eq (under K.eq entries.now key.now) sequence.pairs)
        × (¬ Misses C.eq R.eq (under K.eq entries.now key.now) sequence.pairs)) }
    ensures path { IfOk result (λ path.
        IsNewPath C.eq R.eq (under K.eq entries.now key.now) sequence.pairs path.items) }
    ensures distinct { IfOk result (λ path. HasDistinctCalls C.eq path.items) }
    ensures apart { IfOk result (λ path. All (λ e. IsTrue (K.eq e.key key.now)
        → Parts C.eq R.eq e.path path.items
        × Parts C.eq R.eq path.items e.path) entries.now) }
    ensures reason { IfErr result
        (IsReason C.eq R.eq (under K.eq entries.now key.now) sequence.pairs) }
{
    let mut path = walk(alloc, entries, key, &mut sequence)?;
    'rest: while let Some(pair) = sequence.next() {
        path.push(pair)?;
    }
    Ok(path)
}

impl<K: Eq + Hash + Drop, C: Clone + Eq + Hash, R: Ord + Drop, T: Drop> PlainTree<K, C, R, T> {
    /// Stores a value under a key and the path that a sequence takes in the tree.
    ///
    /// The path follows stored paths while the sequence has their pairs, in any position; then it has the remaining
    /// pairs in the sequence's order. On error the key, the sequence and the value are dropped.
    pub fn insert(
        &mut self,
        key: K,
        sequence: CallSequence<C, R>,
        value: T,
    ) -> Result<(), InsertError>
        requires { (x y : C) → C.is_clone x y → IsTrue (C.eq x y) }
        ensures ok { OnOk result ((¬ Exists C.eq R.eq (under K.eq self.old key) sequence.pairs)
            × (¬ Misses C.eq R.eq (under K.eq self.old key) sequence.pairs)) }
        ensures stored { OnOk result
            (Adds C.eq R.eq K.eq self.old key sequence.pairs value self.new) }
        ensures reason { IfErr result
            (IsReason C.eq R.eq (under K.eq self.old key) sequence.pairs) }
        ensures err { OnErr result (self.new ≡ self.old) }
    {
        let alloc = *self.entries.allocator();
        let path = new_path(alloc, self.entries.as_slice(), &key, sequence)?;
        self.entries.push(Entry { key, path, value })?;
        Ok(())
    }
}
