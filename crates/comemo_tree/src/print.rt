//! A tree as text, for people who look at it.
//!
//! The nodes are visited from the top down, those below an answer before the next answer. The answers that are still to
//! be visited lie on a stack on the heap, so a path may be as long as memory allows.

use crate::children::Node;
use crate::tree::{InnerNode, LeafNode, Start};
use slab::Slab;
use std::alloc::Global;
use std::collections::HashMap;
use std::fmt;
use std::fmt::Debug;
use std::hash::Hash;

/// An answer that leads from a node to a child.
#[derive(Drop)]
pub(crate) struct Branch<'a, C, R: Ord> {
    /// The node, which asks the call.
    pub(crate) above: &'a InnerNode<C, R>,
    /// The answer.
    pub(crate) answer: &'a R,
    /// The child.
    pub(crate) child: Node,
}

/// Writes each key, and under it a line for each answer to each node's call.
pub(crate) fn print_tree<K, C, R, T, W: fmt::Write>(
    f: &mut fmt::Formatter<W>,
    alloc: Global,
    inner: &Slab<InnerNode<C, R>>,
    leaves: &Slab<LeafNode<K, T>>,
    starts: &HashMap<K, Start>,
) -> fmt::Result
where
    K: Eq + Hash + Debug,
    C: Debug,
    R: Ord + Debug,
    T: Debug,
{
    if starts.is_empty() {
        return f.write_str("no entries");
    }
    let mut branches = Vec::new(alloc);
    let mut is_first = true;
    for (key, start) in starts {
        if !is_first {
            f.write_str("\n")?;
        }
        is_first = false;
        write!(f, "key {key:?}")?;
        print_node(f, inner, leaves, start.first, &mut branches)?;
        print_branches(f, inner, leaves, &mut branches)?;
    }
    Ok(())
}

/// Writes a line for each branch, and for each one below it, indented by depth.
fn print_branches<'a, K, C: Debug, R: Ord + Debug, T: Debug, W: fmt::Write>(
    f: &mut fmt::Formatter<W>,
    inner: &'a Slab<InnerNode<C, R>>,
    leaves: &Slab<LeafNode<K, T>>,
    branches: &mut Vec<Branch<'a, C, R>>,
) -> fmt::Result {
    // Each branch leads to another node, so there are no more branches than nodes.
    for _ in 0..inner.len().saturating_add(leaves.len()) {
        let Some(branch) = branches.pop() else {
            break;
        };
        f.write_str("\n  ")?;
        for _ in 0..branch.above.depth {
            f.write_str("  ")?;
        }
        let call = &branch.above.call;
        let answer = branch.answer;
        write!(f, "{call:?} = {answer:?}")?;
        print_node(f, inner, leaves, branch.child, branches)?;
    }
    Ok(())
}

/// Writes a leaf's value, or puts an inner node's branches on the stack.
fn print_node<'a, K, C, R: Ord, T: Debug, W: fmt::Write>(
    f: &mut fmt::Formatter<W>,
    inner: &'a Slab<InnerNode<C, R>>,
    leaves: &Slab<LeafNode<K, T>>,
    node: Node,
    branches: &mut Vec<Branch<'a, C, R>>,
) -> fmt::Result {
    match node {
        Node::Inner(at) => {
            let Some(above) = inner.get(at) else {
                return Ok(());
            };
            above.children.put_branches(above, branches)?;
            Ok(())
        }
        Node::Leaf(at) => {
            let Some(leaf) = leaves.get(at) else {
                return Ok(());
            };
            let value = &leaf.value;
            write!(f, ": {value:?}")
        }
    }
}
