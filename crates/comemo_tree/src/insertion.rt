//! How a path is added to the nodes of a tree. Memory is allocated before anything changes; only the first link may
//! allocate later, and it is the first change. So an error changes no value.
ghost use Rattle.std.specs.Prelude.{◌≡◌, ◌++◌, ◌∷◌, ◌+◌, ◌<◌, ◌^◌, [], length, None, Some, IfSome, IfNone, IsOk, IfOk, OnOk, OnErr, List};
ghost use Rattle.std.specs.HashMap as map;
ghost use Rattle.slab.specs.Slab.{get, HasRoomFor};
ghost use Rattle.comemo_tree.specs.declared.children.Node.TheVariants.{Inner};
ghost use Rattle.comemo_tree.specs.Nodes.{LeadsFrom, IsForest, first_of};
ghost use Rattle.comemo_tree.specs.Growth.{CanGrow, Grown, SameNodes, Begins, PutsFirst};

use crate::children::{Children, Node};
use crate::ghost_key::GhostKey;
use crate::tree::{InnerNode, LeafNode, Start, attach_inner, attach_leaf};
use comemo_base::CallSequence;
use slab::Slab;
use std::alloc::{AllocError, Global};
use std::collections::HashMap;
use std::collections::hash_map::Entry;
use std::hash::Hash;
use std::snapshot::Snapshot;

/// How many pairs a sequence has left. Linear in its slots.
fn left<C: Eq + Hash, R>(sequence: &CallSequence<C, R>) -> usize
    ensures { result ≡ length sequence.now.pairs }
{
    let mut count = 0;
    'slots: for slot in sequence.slots() {
        if slot.is_some() {
            count += 1;
        }
    }
    count
}

/// Adds the rest of a path below an inner node: an answer, then the pairs of a sequence, then the leaf.
///
/// There is room for its nodes, and a new node takes its first child without allocating. So only the first link can
/// fail. `starts` is only for the contract.
fn grow<K: Eq + Hash + Drop, C: Eq + Hash + Drop, R: Ord + Drop, T: Drop>(
    alloc: Global,
    inner: &mut Slab<InnerNode<C, R>>,
    leaves: &mut Slab<LeafNode<K, T>>,
    starts: &HashMap<K, Start>,
    above: usize,
    answer: R,
    key: GhostKey<K>,
    mut sequence: CallSequence<C, R>,
    value: T,
) -> Result<(), AllocError>
    requires grows { CanGrow C.eq R.eq K.eq inner.old leaves.old starts.now
        key.value above answer sequence.pairs }
    requires shallow { IfSome (get inner.old above) (λ n.
        n.depth + 1 + length sequence.pairs < 2 ^ 64) }
    requires inner_room { HasRoomFor inner.old (length sequence.pairs) }
    requires leaf_room { HasRoomFor leaves.old 1 }
    ensures grown { (node : _) (done : List (C × R))
        → get inner.old above ≡ Some node
        → LeadsFrom inner.old K.eq starts.now key.value done (Inner above)
        → OnOk result (Grown C.eq R.eq K.eq inner.old leaves.old inner.new leaves.new starts.now
        key.value (done ++ (node.call, answer) ∷ sequence.pairs) value) }
    ensures first { IfSome (get inner.old above) (λ n. n.children ≡ [] → IsOk result) }
    ensures err { OnErr result ((inner.new ≡ inner.old) × (leaves.new ≡ leaves.old)) }
{
    let mut at = above;
    let mut leads = answer;
    'chain: while let Some((call, next)) = sequence.next() {
        at = attach_inner(alloc, inner, at, leads, call)?;
        leads = next;
    }
    attach_leaf(inner, leaves, at, leads, key, value)
}

/// Makes room for the rest of a path below an inner node, and adds it by `grow`.
///
/// Also fails if the leaf's depth doesn't fit in a `usize`.
pub(crate) fn insert_below<K: Eq + Hash + Drop, C: Eq + Hash + Drop, R: Ord + Drop, T: Drop>(
    alloc: Global,
    inner: &mut Slab<InnerNode<C, R>>,
    leaves: &mut Slab<LeafNode<K, T>>,
    starts: &HashMap<K, Start>,
    above: usize,
    answer: R,
    key: GhostKey<K>,
    sequence: CallSequence<C, R>,
    value: T,
) -> Result<(), AllocError>
    requires { CanGrow C.eq R.eq K.eq inner.old leaves.old starts.now
        key.value above answer sequence.pairs }
    ensures grown { (node : _) (done : List (C × R))
        → get inner.old above ≡ Some node
        → LeadsFrom inner.old K.eq starts.now key.value done (Inner above)
        → OnOk result (Grown C.eq R.eq K.eq inner.old leaves.old inner.new leaves.new starts.now
        key.value (done ++ (node.call, answer) ∷ sequence.pairs) value) }
    ensures err { OnErr result (SameNodes inner.old leaves.old inner.new leaves.new) }
{
    let count = left(&sequence);
    if usize::MAX - inner[above].depth <= count {
        return Err(AllocError);
    }
    inner.reserve(count)?;
    leaves.reserve(1)?;
    grow(
        alloc, inner, leaves, starts, above, answer, key, sequence, value,
    )
}

/// The first node of a key; a new key is stored with this node. The key is hashed once.
fn first_or_put<K: Eq + Hash>(
    starts: &mut HashMap<K, Start>,
    key: K,
    start: Start,
) -> Result<Option<Node>, AllocError>
where
    K: Drop,
    ensures found { IfOk result (λ found. found ≡ first_of K.eq starts.old key) }
    ensures stays { IfOk result (λ found. IfSome found
        (λ _. starts.new.entries ≡ starts.old.entries)) }
    ensures put { IfOk result (λ found. IfNone found
        ((map.get K.eq starts.old key ≡ None)
        × map.Updates K.eq starts.old starts.new key (Some start))) }
    ensures err { OnErr result (starts.new.entries ≡ starts.old.entries) }
{
    match starts.entry(key) {
        Ok(Entry::Occupied(there)) => Ok(Some(there.get().first)),
        Ok(Entry::Vacant(place)) => {
            let _ = place.insert(start);
            Ok(None)
        }
        Err(_) => Err(AllocError),
    }
}

/// The node that a key's first path begins with: the next inner one, or the next leaf if the path is empty.
fn next_first<K, C: Eq + Hash, R: Ord, T>(
    inner: &Slab<InnerNode<C, R>>,
    leaves: &Slab<LeafNode<K, T>>,
    count: usize,
) -> Node
    ensures { Begins inner.now leaves.now count result }
{
    if count == 0 {
        Node::Leaf(leaves.vacant_key())
    } else {
        Node::Inner(inner.vacant_key())
    }
}

/// Makes room for the pairs of a sequence, and returns a key's first node. A new key is stored with the node that comes
/// next.
pub(crate) fn begin_key<K: Eq + Hash, C: Eq + Hash + Drop, R: Ord + Drop, T: Drop>(
    inner: &mut Slab<InnerNode<C, R>>,
    leaves: &mut Slab<LeafNode<K, T>>,
    starts: &mut HashMap<K, Start>,
    key: K,
    sequence: &CallSequence<C, R>,
) -> Result<Option<Node>, AllocError>
where
    K: Drop,
    ensures nodes { SameNodes inner.old leaves.old inner.new leaves.new }
    ensures inner_room { OnOk result (HasRoomFor inner.new (length sequence.now.pairs)) }
    ensures leaf_room { OnOk result (HasRoomFor leaves.new 1) }
    ensures few { OnOk result (length sequence.now.pairs < 2 ^ 64) }
    ensures found { IfOk result (λ found. found ≡ first_of K.eq starts.old key) }
    ensures stays { IfOk result (λ found. IfSome found
        (λ _. starts.new.entries ≡ starts.old.entries)) }
    ensures put { IfOk result (λ found. IfNone found
        ((map.get K.eq starts.old key ≡ None)
        × PutsFirst K.eq inner.new leaves.new starts.old starts.new key
        (length sequence.now.pairs))) }
    ensures err { OnErr result (starts.new.entries ≡ starts.old.entries) }
{
    let pairs = left(sequence);
    inner.reserve(pairs)?;
    leaves.reserve(1)?;
    let first = next_first(inner, leaves, pairs);
    first_or_put(starts, key, Start { first })
}

/// Adds a key's first path, the pairs of a sequence, and its leaf. There is room for the nodes, and the key is stored
/// already.
///
/// `starts` and `before` are only for the contract.
pub(crate) fn plant<K: Eq + Hash, C: Eq + Hash + Drop, R: Ord + Drop, T: Drop>(
    alloc: Global,
    inner: &mut Slab<InnerNode<C, R>>,
    leaves: &mut Slab<LeafNode<K, T>>,
    starts: &HashMap<K, Start>,
    before: Snapshot<HashMap<K, Start>>,
    key: GhostKey<K>,
    mut sequence: CallSequence<C, R>,
    value: T,
)
where
    K: Drop,
    requires forest { IsForest C.eq R.eq K.eq None inner.old leaves.old before.value }
    requires new { map.get K.eq before.value key.value ≡ None }
    requires put { PutsFirst K.eq inner.old leaves.old before.value starts.now key.value
        (length sequence.pairs) }
    requires inner_room { HasRoomFor inner.old (length sequence.pairs) }
    requires leaf_room { HasRoomFor leaves.old 1 }
    requires few { length sequence.pairs < 2 ^ 64 }
    ensures { Grown C.eq R.eq K.eq inner.old leaves.old inner.new leaves.new starts.now
        key.value sequence.pairs value }
{
    // Only the contract uses it.
    let _ = before;
    // For the proof: the sequence has each call once.
    sequence.reveal_distinct_calls();
    let Some((call, answer)) = sequence.next() else {
        leaves.insert_reserved(LeafNode {
            key,
            value,
            parent: None,
            depth: 0,
        });
        return;
    };
    let id = inner.insert_reserved(InnerNode {
        call,
        children: Children::new(alloc),
        parent: None,
        depth: 0,
        kept: false,
    });
    // The first child of a new node does not allocate, so this never fails.
    let Ok(()) = grow(
        alloc, inner, leaves, starts, id, answer, key, sequence, value,
    ) else {
        unreachable!()
    };
}
