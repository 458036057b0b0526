//! How many nodes a tree has, and how they are linked.
ghost use Rattle.std.specs.Prelude.{None};
ghost use Rattle.comemo_tree.specs.Nodes.{IsForest, contents};
ghost use Rattle.comemo_tree.specs.Shape.{IsShape};

use crate::tree::{InnerNode, LeafNode, Start};
use slab::Slab;
use std::collections::HashMap;
use std::hash::Hash;

/// How many inner nodes, leaves, edges and keys there are. Each node but a key's first has one edge above it.
///
/// Constant time. The number of edges saturates.
pub(crate) fn shape_of<K: Eq + Hash, C: Eq + Hash, R: Ord, T>(
    inner: &Slab<InnerNode<C, R>>,
    leaves: &Slab<LeafNode<K, T>>,
    starts: &HashMap<K, Start>,
) -> (usize, usize, usize, usize)
    requires { IsForest C.eq R.eq K.eq None inner.now leaves.now starts.now }
    ensures { IsShape C.eq R.eq K.eq (contents inner.now leaves.now) result }
{
    let inner_count = inner.len();
    let leaf_count = leaves.len();
    let start_count = starts.len();
    let edge_count = inner_count.saturating_add(leaf_count - start_count);
    (inner_count, leaf_count, edge_count, start_count)
}
