//! The call tree: a map from a key and a path of calls with their answers to a value.
//!
//! Inner nodes, which ask a call, and leaves, which hold a value, lie in two slabs. Each node knows its parent, and an
//! inner node has its children in rising order of answers. One step of a look-up is a search in an ordered map of a
//! node's answers; the key is found in constant expected time. Only `insert` and `find` allocate.
ghost use Rattle.std.specs.Prelude.{◌≡◌, ◌≤◌, ◌<◌, ◌+◌, ◌^◌, ◌⊎◌, [], false, length, IsTrue, Some, None, IfSome, IfOk, IfErr, OnOk, OnErr, IsOk, option_copied, option_map};
ghost use Rattle.std.specs.List.{All, AllZip, Any};
ghost use Rattle.std.specs.Map.{lookup};
ghost use Rattle.std.specs.HashMap as map;
ghost use Rattle.std.specs.Fn.{AlwaysReturns};
ghost use Rattle.slab.specs.Slab.{get, slab_len, HasRoomFor, ContainsKey};
ghost use Rattle.comemo_base.specs.Tree.{IsTree};
ghost use Rattle.comemo_base.specs.Lookup.{under, CanBeAsked, LooksUp, LooksUpPath, FindsSome, IsLookupRefused, IsPathRefused, FindsAgreeing, FindsAgreeingPath, ForAnswers};
ghost use Rattle.comemo_base.specs.Insertion.{Exists, Misses, IsReason, Adds};
ghost use Rattle.comemo_tree.specs.Retain.{Retains, ReturnsAtMut};
ghost use Rattle.comemo_tree.specs.Change.{Changes, HasAnswers, LeavesAt};
ghost use Rattle.comemo_tree.specs.Nodes.{AddsInner, AddsLeaf, Forks, IsForest, contents, first_of};
ghost use Rattle.comemo_tree.specs.Reach.{AsksUnder, asks_one};
ghost use Rattle.comemo_tree.specs.Shape.{IsShape};
ghost use Rattle.comemo_tree.specs.Values.{values_of};

use crate::change::leaf_by_answers;
use crate::children::{Children, Node};
use crate::ghost_key::GhostKey;
use crate::insertion::{begin_key, insert_below, plant};
use crate::print::print_tree;
use crate::reach::keys_reached;
use crate::retention::{prune, retain_leaves, retain_starts};
use crate::shape::shape_of;
use crate::values::Values;
use comemo_base::{CallSequence, InsertError};
use slab::Slab;
use std::alloc::{AllocError, Global};
use std::collections::HashMap;
use std::fmt;
use std::fmt::Debug;
use std::hash::Hash;
use std::marker::Model;
use std::snapshot::Snapshot;

/// A node that asks a call.
#[derive(Drop)]
pub(crate) struct InnerNode<C, R: Ord> {
    /// The call.
    pub(crate) call: C,
    /// The children, by answer.
    pub(crate) children: Children<R>,
    /// Its parent, or `None` for a key's first node.
    pub(crate) parent: Option<usize>,
    /// How many nodes lie above it.
    pub(crate) depth: usize,
    /// The mark of a pruning; false outside of one.
    pub(crate) kept: bool,
}

/// A node that holds a value.
#[derive(Drop)]
pub(crate) struct LeafNode<K, T> {
    /// The key of its path, for contracts. It has no bytes: the map of keys holds the only copy, for all paths under
    /// it.
    pub(crate) key: GhostKey<K>,
    /// The value.
    pub(crate) value: T,
    /// Its parent, or `None` if the path is empty.
    pub(crate) parent: Option<usize>,
    /// How many nodes lie above it.
    pub(crate) depth: usize,
}

/// Where a key's paths begin.
#[derive(Drop)]
pub(crate) struct Start {
    /// The first node: it asks the first call, or is the only leaf of a key without calls.
    pub(crate) first: Node,
}

/// A map from a key and a path to a value. A path is a list of calls with their answers, each call once.
///
/// Contracts see it as a list of entries, whose order doesn't matter. Two paths under one key diverge: after an equal
/// prefix they have the same call with different answers. So at most one path under a key agrees with given answers.
#[derive(Drop)]
pub struct CallTree<K: Eq + Hash, C: Eq + Hash, R: Ord, T> {
    inner: Slab<InnerNode<C, R>>,
    leaves: Slab<LeafNode<K, T>>,
    starts: HashMap<K, Start>,
    alloc: Global,
}

impl<K: Eq + Hash, C: Eq + Hash, R: Ord, T> Model for CallTree<K, C, R, T> {
    ghost use Rattle.std.specs.Prelude.{List, None};
    ghost use Rattle.std.specs.Coded.{coded_list};
    ghost use Rattle.comemo_base.specs.Tree.{Stored, stored_code};
    ghost use Rattle.comemo_tree.specs.Nodes.{contents, IsForest};

    ghost Value = { List (Stored K C R T) };

    ghost coded = { coded_list (stored_code K.code C.code R.code T.code) };

    ghost view = { λ t. contents t.inner t.leaves };

    ghost invariant = { λ t. IsForest C.eq R.eq K.eq None t.inner t.leaves t.starts };
}

/// Prints each key, and under it its calls with their answers, indented by depth, and the values.
///
/// A line is a call with one answer, and ends in the value if the path ends there. Fails if memory runs out.
impl<K, C, R, T> Debug for CallTree<K, C, R, T>
where
    K: Eq + Hash + Debug,
    C: Eq + Hash + Debug,
    R: Ord + Debug,
    T: Debug,
{
    ghost debug_output = { λ _. None };

    fn fmt<W: fmt::Write>(&self, f: &mut fmt::Formatter<W>) -> fmt::Result {
        print_tree(f, self.alloc, &self.inner, &self.leaves, &self.starts)
    }
}

impl<K: Eq + Hash, C: Eq + Hash, R: Ord, T> CallTree<K, C, R, T> {
    /// An empty tree.
    pub fn new(alloc: Global) -> Self
        ensures { result ≡ [] }
    {
        CallTree {
            inner: Slab::new(alloc),
            leaves: Slab::new(alloc),
            starts: HashMap::new(alloc),
            alloc,
        }
    }

    /// Makes the tree's invariant known to a proof. Does nothing at run time.
    pub fn reveal_tree(&self)
        ensures { IsTree C.eq R.eq K.eq self.now }
    {
        let _ = &self.starts;
    }

    /// How many entries the tree has.
    pub fn len(&self) -> usize
        ensures { result ≡ length self.now }
    {
        self.leaves.len()
    }

    /// The values, one for each entry, by reference and in no particular order.
    pub fn values(&self) -> Values<'_, K, T>
        ensures { result ≡ values_of self.now }
    {
        Values {
            leaves: self.leaves.iter(),
        }
    }

    /// Looks up the value under a key whose path has the oracle's answers.
    ///
    /// It asks the calls of one stored path, each once and in order; the oracle only needs to answer those. Fails only
    /// if the oracle does.
    pub fn get<O: FnMut(&C) -> Result<R, AllocError>>(
        &self,
        key: &K,
        oracle: &mut O,
    ) -> Result<Option<&T>, AllocError>
    where
        R: Drop,
        requires { CanBeAsked O.FnMut (under K.eq self.now key.now) oracle.old }
        ensures asked { IfOk result (λ found.
            LooksUp O.FnMut C.eq R.eq (under K.eq self.now key.now)
            oracle.old oracle.new (option_copied found)) }
        ensures refused { IfErr result (λ e. IsLookupRefused O.FnMut C.eq R.eq
            (under K.eq self.now key.now) oracle.old e oracle.new) }
        ensures answered { AlwaysReturns O.FnMut (λ a r. IsOk r) oracle.old → IsOk result }

        // For a caller that only knows which answers its oracle has.
        ensures agreeing { ForAnswers O.FnMut C.eq R.eq oracle.old (λ m. IfOk result (λ found.
            FindsAgreeing C.eq R.eq (under K.eq self.now key.now) m (option_copied found))) }
    {
        let Some(start) = self.starts.get(key) else {
            return Ok(None);
        };
        let mut at = start.first;
        'down: loop {
            match at {
                Node::Leaf(id) => return Ok(Some(&self.leaves[id].value)),
                Node::Inner(id) => {
                    let node = &self.inner[id];
                    let answer = oracle(&node.call)?;
                    let Some(next) = node.children.get(&answer) else {
                        return Ok(None);
                    };
                    at = next;
                }
            }
        }
    }

    /// As `get`, with the path: clones of its calls, and the oracle's own answers. Also fails if cloning the path does.
    pub fn find<O: FnMut(&C) -> Result<R, AllocError>>(
        &self,
        key: &K,
        oracle: &mut O,
    ) -> Result<Option<(Vec<(C, R)>, &T)>, AllocError>
    where
        C: Clone,
        R: Clone,
        requires callable { CanBeAsked O.FnMut (under K.eq self.now key.now) oracle.old }
        requires calls_clone { (x y : C) → C.is_clone x y → IsTrue (C.eq x y) }
        requires answers_clone { (x y : R) → R.is_clone x y → IsTrue (R.eq x y) }
        ensures asked { IfOk result (λ found.
            LooksUpPath O.FnMut C.eq R.eq (under K.eq self.now key.now)
            oracle.old oracle.new (option_map (λ p. (p.0.items, p.1.now)) found)) }
        ensures refused { IfErr result (λ e. IsPathRefused O.FnMut C.eq R.eq
            (under K.eq self.now key.now) oracle.old e oracle.new) }
        ensures answered { AlwaysReturns O.FnMut (λ a r. IsOk r) oracle.old → OnErr result
            (FindsSome O.FnMut C.eq R.eq (under K.eq self.now key.now) oracle.old oracle.new) }

        // For a caller that only knows which answers its oracle has.
        ensures agreeing { ForAnswers O.FnMut C.eq R.eq oracle.old (λ m. IfOk result (λ found.
            FindsAgreeingPath C.eq R.eq (under K.eq self.now key.now) m
            (option_map (λ p. (p.0.items, p.1.now)) found))) }
    {
        let Some(start) = self.starts.get(key) else {
            return Ok(None);
        };
        let mut at = start.first;
        // The pairs on the way. If they don't fit in memory the look-up goes on without them: it may still end in
        // `None`, and only a found path needs them.
        let mut trail = new_trail(self.alloc, at);
        let mut lost = false;
        'down: loop {
            match at {
                Node::Leaf(id) => {
                    if lost {
                        return Err(AllocError);
                    }
                    let path = cloned(self.alloc, trail)?;
                    return Ok(Some((path, &self.leaves[id].value)));
                }
                Node::Inner(id) => {
                    let node = &self.inner[id];
                    let answer = oracle(&node.call)?;
                    let Some(next) = node.children.get(&answer) else {
                        return Ok(None);
                    };
                    lost = trail.push((&node.call, answer)).is_err() || lost;
                    at = next;
                }
            }
        }
    }

    /// Stores a value under a key and the path that a sequence takes in the tree.
    ///
    /// The path follows stored paths while the sequence has their pairs, in any position; then it has the remaining
    /// pairs in the sequence's order. On error the key, the sequence and the value are dropped. A key is stored once
    /// for all paths under it.
    pub fn insert(
        &mut self,
        key: K,
        mut sequence: CallSequence<C, R>,
        value: T,
    ) -> Result<(), InsertError>
    where
        K: Drop,
        C: Drop,
        R: Drop,
        T: Drop,
        ensures ok { OnOk result ((¬ Exists C.eq R.eq (under K.eq self.old key) sequence.pairs)
            × (¬ Misses C.eq R.eq (under K.eq self.old key) sequence.pairs)) }
        ensures stored { OnOk result
            (Adds C.eq R.eq K.eq self.old key sequence.pairs value self.new) }
        ensures reason { IfErr result
            (IsReason C.eq R.eq (under K.eq self.old key) sequence.pairs) }
        ensures err { OnErr result (self.new ≡ self.old) }
    {
        let own = GhostKey::of(&key);
        let before = Snapshot::of(&self.starts);
        let begun = begin_key(
            &mut self.inner,
            &mut self.leaves,
            &mut self.starts,
            key,
            &sequence,
        )?;
        let Some(first) = begun else {
            plant(
                self.alloc,
                &mut self.inner,
                &mut self.leaves,
                &self.starts,
                before,
                own,
                sequence,
                value,
            );
            return Ok(());
        };
        let (at, answer) = walk(
            &self.inner,
            &self.leaves,
            &self.starts,
            &own,
            first,
            &mut sequence,
        )?;
        insert_below(
            self.alloc,
            &mut self.inner,
            &mut self.leaves,
            &self.starts,
            at,
            answer,
            own,
            sequence,
            value,
        )?;
        Ok(())
    }
}

impl<K: Eq + Hash + Drop, C: Eq + Hash + Drop, R: Ord + Drop, T: Drop> CallTree<K, C, R, T> {
    /// Shows each value to a test, which may change it, and drops the entries for which it returns false.
    ///
    /// Linear in the nodes that the tree has room for, or in the leaves if none is dropped.
    pub fn retain<F: Fn(&mut T) -> bool>(&mut self, f: F)
        requires { F.IsAlwaysCallable f }
        ensures { Retains (ReturnsAtMut F.Fn f) self.old self.new }
    {
        let before = self.leaves.len();
        retain_leaves(&mut self.leaves, f);
        if self.leaves.len() == before {
            return;
        }
        prune(self.alloc, &mut self.inner, &self.leaves);
        retain_starts(&mut self.starts, &self.inner, &self.leaves);
    }
}

impl<K: Eq + Hash, C: Eq + Hash, R: Ord, T> CallTree<K, C, R, T> {
    /// Changes the value under a key whose path has exactly these answers, and returns whether there is one. Asks
    /// nothing.
    pub fn change<F: Fn(&mut T)>(&mut self, key: &K, answers: &[R], f: F) -> bool
        requires { F.IsAlwaysCallable f }
        ensures changed { IsTrue result → Changes R.eq K.eq (LeavesAt F.Fn f)
            key.now answers.now self.old self.new }
        ensures absent { result ≡ false → (self.new ≡ self.old)
            × All (λ e. ¬ HasAnswers R.eq e.path answers.now) (under K.eq self.old key.now) }
    {
        let found = leaf_by_answers(&self.inner, &self.leaves, &self.starts, key, answers);
        let Some(at) = found else {
            return false;
        };
        f(&mut self.leaves[at].value);
        true
    }

    /// The keys under which a path asks one of these calls, each once, by reference and in no particular order.
    ///
    /// Asks nothing. Linear in the nodes that there is room for, times the calls. Fails if out of memory.
    pub fn reached(&self, calls: &[C]) -> Result<Vec<&K>, AllocError>
        ensures all { IfOk result (λ keys. All (λ e. IsTrue (asks_one C.eq calls.now e.path)
            → Any (λ k. IsTrue (K.eq e.key k.now)) keys.items) self.now) }
        ensures only { IfOk result (λ keys.
            All (λ k. AsksUnder C.eq calls.now K.eq self.now k.now) keys.items) }
    {
        keys_reached(self.alloc, &self.inner, &self.leaves, &self.starts, calls)
    }

    /// How many inner nodes, leaves, edges and keys the tree has. Constant time.
    ///
    /// Inner nodes are the distinct proper prefixes of the paths under each key; edges are the distinct nonempty
    /// prefixes. The number of edges saturates.
    pub fn shape(&self) -> (usize, usize, usize, usize)
        ensures { IsShape C.eq R.eq K.eq self.now result }
    {
        shape_of(&self.inner, &self.leaves, &self.starts)
    }
}

/// For how many pairs a trail has room at first, so that most look-ups allocate once.
const TRAIL_ROOM: usize = 16;

/// An empty trail from a node. It has room for some pairs if the node asks a call and memory allows; else it grows with
/// each pair.
fn new_trail<'a, C, R: Drop>(alloc: Global, first: Node) -> Vec<(&'a C, R)>
    ensures { result.items ≡ [] }
{
    match first {
        Node::Leaf(_) => Vec::new(alloc),
        Node::Inner(_) => Vec::with_capacity(alloc, TRAIL_ROOM).unwrap_or(Vec::new(alloc)),
    }
}

/// The pairs of a trail, with their calls cloned.
fn cloned<C: Clone, R: Drop>(alloc: Global, trail: Vec<(&C, R)>) -> Result<Vec<(C, R)>, AllocError>
    ensures { IfOk result (λ path. AllZip (λ p q. C.is_clone p.0.now q.0
        × (p.1 ≡ q.1)) trail.entry.items path.items) }
{
    let mut path = Vec::with_capacity(alloc, trail.len())?;
    'pairs: for (call, answer) in trail {
        path.push((call.clone()?, answer))?;
    }
    Ok(path)
}

/// Adds an inner node without children below another, and returns its key in the slab. A first child does not allocate;
/// on error nothing changes.
pub(crate) fn attach_inner<C, R: Ord + Drop>(
    alloc: Global,
    inner: &mut Slab<InnerNode<C, R>>,
    above: usize,
    answer: R,
    call: C,
) -> Result<usize, AllocError>
where
    C: Drop,
    requires there { ContainsKey inner.old above }
    requires leads_nowhere { IfSome (get inner.old above) (λ n.
        (lookup (R.eq answer) n.children ≡ None) × (n.depth + 1 < 2 ^ 64)) }
    requires room { HasRoomFor inner.old 1 }
    ensures added { IfOk result (AddsInner R.eq inner.old inner.new above answer call) }
    ensures first { IfSome (get inner.old above) (λ n. n.children ≡ [] → IsOk result) }
    ensures room { inner.new.capacity ≡ inner.old.capacity }
    ensures len { OnOk result (slab_len inner.new ≡ slab_len inner.old + 1) }
    ensures err { OnErr result (inner.new ≡ inner.old) }
{
    // The key that the node will get. The link comes first, since only it can fail.
    let id = inner.vacant_key();
    let node = &mut inner[above];
    let depth = node.depth + 1;
    node.children.insert(answer, Node::Inner(id))?;
    let added = InnerNode {
        call,
        children: Children::new(alloc),
        parent: Some(above),
        depth,
        kept: false,
    };
    Ok(inner.insert_reserved(added))
}

/// Adds a leaf below an inner node. A first child does not allocate; on error nothing changes.
pub(crate) fn attach_leaf<K, C, R: Ord + Drop, T>(
    inner: &mut Slab<InnerNode<C, R>>,
    leaves: &mut Slab<LeafNode<K, T>>,
    above: usize,
    answer: R,
    key: GhostKey<K>,
    value: T,
) -> Result<(), AllocError>
where
    K: Drop,
    T: Drop,
    requires there { ContainsKey inner.old above }
    requires leads_nowhere { IfSome (get inner.old above) (λ n.
        (lookup (R.eq answer) n.children ≡ None) × (n.depth + 1 < 2 ^ 64)) }
    requires room { HasRoomFor leaves.old 1 }
    ensures added { OnOk result (AddsLeaf inner.old inner.new leaves.old leaves.new
        above answer key.value value) }
    ensures first { IfSome (get inner.old above) (λ n. n.children ≡ [] → IsOk result) }
    ensures err { OnErr result ((inner.new ≡ inner.old) × (leaves.new ≡ leaves.old)) }
{
    // The key that the leaf will get. The link comes first, since only it can fail.
    let id = leaves.vacant_key();
    let node = &mut inner[above];
    let depth = node.depth + 1;
    node.children.insert(answer, Node::Leaf(id))?;
    leaves.insert_reserved(LeafNode {
        key,
        value,
        parent: Some(above),
        depth,
    });
    Ok(())
}

/// The node where a sequence's path diverges from the stored ones, and the answer that leads on from it.
///
/// The pairs before it are taken out of the sequence.
fn walk<K: Eq + Hash, C: Eq + Hash + Drop, R: Ord + Drop, T>(
    inner: &Slab<InnerNode<C, R>>,
    leaves: &Slab<LeafNode<K, T>>,
    starts: &HashMap<K, Start>,
    key: &GhostKey<K>,
    first: Node,
    sequence: &mut CallSequence<C, R>,
) -> Result<(usize, R), InsertError>
    requires forest { IsForest C.eq R.eq K.eq None inner.now leaves.now starts.now }
    requires start { first_of K.eq starts.now key.now.value ≡ Some first }
    ensures forks { IfOk result (λ fork.
        Forks C.eq R.eq K.eq inner.now leaves.now starts.now key.now.value
        sequence.old.pairs fork.0 fork.1 sequence.new.pairs) }
    ensures reason { IfErr result
        (IsReason C.eq R.eq (under K.eq (contents inner.now leaves.now) key.now.value)
        sequence.old.pairs) }
{
    // For the proof: the sequence has each call once.
    sequence.reveal_distinct_calls();
    let mut at = first;
    'walk: loop {
        let id = match at {
            Node::Leaf(_) => return Err(InsertError::AlreadyExists),
            Node::Inner(id) => id,
        };
        let node = &inner[id];
        let Some(answer) = sequence.extract(&node.call) else {
            return Err(InsertError::MissingCall);
        };
        let Some(next) = node.children.get(&answer) else {
            return Ok((id, answer));
        };
        at = next;
    }
}
