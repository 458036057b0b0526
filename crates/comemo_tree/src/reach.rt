//! The keys whose paths ask given calls. Only the list of keys, and a mark for each inner node, are allocated.
//!
//! Each inner node that asks one of the calls marks the first node of its key, to which its parents lead. Then the keys
//! with a marked first node are listed.
ghost use Rattle.std.specs.Prelude.{◌≡◌, ◌<◌, ℕ, None, IsTrue, IfOk, IfSome, get_or, false};
ghost use Rattle.std.specs.List.{All, Any};
ghost use Rattle.slab.specs.Slab.{get, ContainsKey};
ghost use Rattle.comemo_tree.specs.Nodes.{IsForest, contents};
ghost use Rattle.comemo_tree.specs.Reach.{HasParents, IsFirstOf, IsMarkedFor, AsksUnder, asks_one, marked};

use crate::children::Node;
use crate::tree::{InnerNode, LeafNode, Start};
use slab::Slab;
use std::alloc::{AllocError, Global};
use std::collections::HashMap;
use std::hash::Hash;

/// The key of the first node above an inner node, or its own.
fn first_above<C, R: Ord>(inner: &Slab<InnerNode<C, R>>, from: usize) -> usize
    requires there { ContainsKey inner.now from }
    requires parents { HasParents inner.now }
    ensures first { IsFirstOf inner.now from result }
    ensures there { ContainsKey inner.now result }
{
    let mut at = from;
    'up: while let Some(above) = inner[at].parent {
        at = above;
    }
    at
}

/// For each key of the slab, whether it is that of a first node above a node that asks one of the calls.
fn mark_firsts<C: Eq, R: Ord>(
    alloc: Global,
    inner: &Slab<InnerNode<C, R>>,
    calls: &[C],
) -> Result<Vec<bool>, AllocError>
    requires { HasParents inner.now }
    ensures { IfOk result (λ marks. IsMarkedFor C.eq calls.now inner.now marks.items) }
{
    let mut marks = vec![in alloc; false; inner.capacity()]?;
    'nodes: for at in 0..inner.capacity() {
        let Some(node) = inner.get(at) else {
            continue;
        };
        if !calls.contains(&node.call) {
            continue;
        }
        let first = first_above(inner, at);
        marks[first] = true;
    }
    Ok(marks)
}

/// Whether a node is marked.
fn is_marked(marks: &[bool], node: Node) -> bool
    ensures { result ≡ marked marks.now node }
{
    match node {
        Node::Inner(at) => matches!(marks.get(at), Some(true)),
        Node::Leaf(_) => false,
    }
}

/// The keys under which a path asks one of the calls, each once.
pub(crate) fn keys_reached<'a, K: Eq + Hash, C: Eq + Hash, R: Ord, T>(
    alloc: Global,
    inner: &Slab<InnerNode<C, R>>,
    leaves: &Slab<LeafNode<K, T>>,
    starts: &'a HashMap<K, Start>,
    calls: &[C],
) -> Result<Vec<&'a K>, AllocError>
    requires { IsForest C.eq R.eq K.eq None inner.now leaves.now starts.now }
    ensures all { IfOk result (λ keys. All (λ e. IsTrue (asks_one C.eq calls.now e.path)
        → Any (λ k. IsTrue (K.eq e.key k.now)) keys.items) (contents inner.now leaves.now)) }
    ensures only { IfOk result (λ keys. All (λ k.
        AsksUnder C.eq calls.now K.eq (contents inner.now leaves.now) k.now) keys.items) }
{
    // For the proof alone.
    let _ = leaves;
    let marks = mark_firsts(alloc, inner, calls)?;
    let mut keys = Vec::new(alloc);
    'keys: for (key, start) in starts {
        if is_marked(marks.as_slice(), start.first) {
            keys.push(key)?;
        }
    }
    Ok(keys)
}
