//! Which nodes of a tree remain when some of its leaves are dropped.
//!
//! The leaves go first. Then each inner node above a remaining leaf is marked, from the leaf up to the first that is
//! marked already. Unmarked nodes and the links to dropped ones go last. Nothing here allocates. The time is linear in
//! the nodes that there is room for; removing a child from among many costs at most the logarithm of their number.
ghost use Rattle.std.specs.Prelude.{◌≡◌, filter, option_map};
ghost use Rattle.std.specs.HashMap as map;
ghost use Rattle.slab.specs.Slab.{get};
ghost use Rattle.comemo_tree.specs.Retain.{ReturnsAtMut};
ghost use Rattle.comemo_tree.specs.Marks.{KeepsLeaf, RetainsLeaves, IsRooted, IsMarkedAbove, IsPruned, bare, kept_only, pruned_node, has_node};

use crate::children::{Children, Node};
use crate::tree::{InnerNode, LeafNode, Start};
use slab::Slab;
use std::alloc::Global;
use std::collections::HashMap;
use std::hash::Hash;
use std::mem;

/// Shows each leaf's value to a test, which may change it, and drops the leaves for which it returns false.
pub(crate) fn retain_leaves<K: Drop, T: Drop, F: Fn(&mut T) -> bool>(
    leaves: &mut Slab<LeafNode<K, T>>,
    f: F,
)
    requires { F.IsAlwaysCallable f }
    ensures { RetainsLeaves (ReturnsAtMut F.Fn f) leaves.old.slots leaves.new.slots }
{
    leaves.retain(
        |_key: usize, leaf: &mut LeafNode<K, T>| -> bool
            requires { F.IsAlwaysCallable f }
            ensures { KeepsLeaf (ReturnsAtMut F.Fn f) leaf.old result leaf.new }
        { f(&mut leaf.value) },
    );
}

/// Drops the inner nodes without a leaf below, and the links to dropped nodes.
pub(crate) fn prune<K, C: Drop, R: Ord + Drop, T>(
    alloc: Global,
    inner: &mut Slab<InnerNode<C, R>>,
    leaves: &Slab<LeafNode<K, T>>,
)
    requires { IsRooted inner.old leaves.now }
    ensures { IsPruned inner.old inner.new leaves.now }
{
    mark_above(inner, leaves);
    drop_unmarked(inner);
    unlink(alloc, inner, leaves);
}

/// Drops the keys whose first node is gone.
pub(crate) fn retain_starts<K: Eq + Hash + Drop, C, R: Ord, T>(
    starts: &mut HashMap<K, Start>,
    inner: &Slab<InnerNode<C, R>>,
    leaves: &Slab<LeafNode<K, T>>,
)
    ensures entries { starts.new.entries
        ≡ filter (λ e. has_node inner.now leaves.now e.1.first) starts.old.entries }
    ensures unique { map.IsUnique K.eq starts.old }
{
    starts.retain(
        |_key: &K, start: &mut Start| -> bool
            ensures stays { result ≡ has_node inner.entry.now leaves.entry.now start.old.first }
            ensures same { start.new ≡ start.old }
        { is_there(inner, leaves, start.first) },
    );
}

/// Marks each inner node above a leaf.
fn mark_above<K, C, R: Ord, T>(inner: &mut Slab<InnerNode<C, R>>, leaves: &Slab<LeafNode<K, T>>)
    requires { IsRooted inner.old leaves.now }
    ensures { IsMarkedAbove inner.old inner.new leaves.now }
{
    'leaves: for low in 0..leaves.capacity() {
        let Some(leaf) = leaves.get(low) else {
            continue;
        };
        let mut up = leaf.parent;
        'up: while let Some(at) = up {
            let node = &mut inner[at];
            // The nodes above a marked one are marked too.
            if node.kept {
                break;
            }
            node.kept = true;
            up = node.parent;
        }
    }
}

/// Drops the unmarked inner nodes, and clears the marks of the others.
fn drop_unmarked<C: Drop, R: Ord + Drop>(inner: &mut Slab<InnerNode<C, R>>)
    ensures { (at : _) → get inner.new at ≡ kept_only (get inner.old at) }
{
    inner.retain(
        |_key: usize, node: &mut InnerNode<C, R>| -> bool
            ensures stays { result ≡ node.old.kept }
            ensures bare { node.new ≡ bare node.old }
        { mem::replace(&mut node.kept, false) },
    );
}

/// Drops the links to dropped nodes.
fn unlink<K, C, R: Ord + Drop, T>(
    alloc: Global,
    inner: &mut Slab<InnerNode<C, R>>,
    leaves: &Slab<LeafNode<K, T>>,
)
    ensures { (at : _) → get inner.new at
        ≡ option_map (pruned_node inner.old leaves.now) (get inner.old at) }
{
    'nodes: for at in 0..inner.capacity() {
        if !inner.contains(at) {
            continue;
        }
        // `children.retain` reads the whole slab, so no borrow of the node may be open: the children are taken out, and
        // the node is indexed again to put them back.
        let node = &mut inner[at];
        let mut children = mem::replace(&mut node.children, Children::new(alloc));
        children.retain(inner, leaves);
        let node = &mut inner[at];
        node.children = children;
    }
}

/// Whether a node exists.
pub(crate) fn is_there<K, C, R: Ord, T>(
    inner: &Slab<InnerNode<C, R>>,
    leaves: &Slab<LeafNode<K, T>>,
    node: Node,
) -> bool
    ensures { result ≡ has_node inner.now leaves.now node }
{
    match node {
        Node::Inner(at) => inner.contains(at),
        Node::Leaf(at) => leaves.contains(at),
    }
}
