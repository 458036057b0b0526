//! Which node each answer to a node's call leads to. Only `insert` allocates.
ghost use Rattle.std.specs.Prelude.{◌≡◌, ◌≤◌, ℕ, [], length, IsOk, OnOk, OnErr, None};
ghost use Rattle.std.specs.Map.{lookup};
ghost use Rattle.std.specs.List.{insert};
ghost use Rattle.comemo_tree.specs.Marks.{has_node, linked, linked_option};

use crate::print::Branch;
use crate::retention::is_there;
use crate::tree::{InnerNode, LeafNode};
use slab::Slab;
use std::alloc::{AllocError, Global};
use std::cmp::Ordering;
use std::collections::BTreeMap;
use std::marker::Model;

/// An inner node or a leaf, by its key in its slab.
#[derive(Clone, Copy, Debug, PartialEq, Eq)]
pub enum Node {
    /// A node that asks a call.
    Inner(usize),
    /// A node that holds a value.
    Leaf(usize),
}

/// The children of a node, in rising order of the answers that lead to them.
///
/// Contracts see the list of answers with their nodes. The least answer's pair lies in the node itself, and the others
/// in an ordered map, which doesn't allocate while it is empty. So a node with one child needs no memory of its own.
#[derive(Debug, Drop)]
pub struct Children<R: Ord> {
    first: Option<(R, Node)>,
    more: BTreeMap<R, Node>,
}

impl<R: Ord> Model for Children<R> {
    ghost use Rattle.std.specs.Prelude.{List, ◌++◌, ◌≡◌, [], None};
    ghost use Rattle.std.specs.Coded.{coded_list, coded×};
    ghost use Rattle.std.specs.Option.{option_to_list};
    ghost use Rattle.comemo_tree.specs.Node.{node_code};
    ghost use Rattle.comemo_tree.specs.declared.children.Node.{Node as NodeSpec};

    ghost Value = { List (R × NodeSpec) };

    ghost coded = { coded_list (coded× R.code node_code) };

    ghost view = { λ c. option_to_list c.first ++ c.more.entries };

    ghost use Rattle.std.specs.Map.{keys_of};
    ghost use Rattle.std.specs.List.Sorted.{IsStrictlySortedBy};

    ghost invariant = { λ c.
        IsStrictlySortedBy R.cmp (keys_of (option_to_list c.first ++ c.more.entries))
        × (c.first ≡ None → c.more.entries ≡ []) };
}

impl<R: Ord> Children<R> {
    /// An empty set of children.
    pub fn new(alloc: Global) -> Self
        ensures { result ≡ [] }
    {
        Children {
            first: None,
            more: BTreeMap::new(alloc),
        }
    }
}

impl<R: Ord> Children<R> {
    /// The node that an answer leads to. Compares with the first answer, then searches the map.
    pub fn get(&self, answer: &R) -> Option<Node>
        ensures { result ≡ lookup (R.eq answer.now) self.now }
    {
        let Some((first, node)) = &self.first else {
            return None;
        };
        match answer.cmp(first) {
            Ordering::Less => None,
            Ordering::Equal => Some(*node),
            Ordering::Greater => self.more.get(answer).copied(),
        }
    }

    /// Adds a node under an answer that has none. The first child does not allocate. On error nothing changes.
    pub fn insert(&mut self, answer: R, node: Node) -> Result<(), AllocError>
    where
        R: Drop,
        requires { lookup (R.eq answer) self.old ≡ None }
        ensures added { OnOk result ((i : ℕ)
            × (i ≤ length self.old)
            × (self.new ≡ insert self.old i (answer, node))) }
        ensures err { OnErr result (self.new ≡ self.old) }
        ensures first { self.old ≡ [] → IsOk result }
    {
        let Some((first, _)) = &self.first else {
            self.first = Some((answer, node));
            return Ok(());
        };
        // A new least answer takes the node's own place, and the former one goes to the map.
        if answer.cmp(first).is_lt() {
            let (former, at) = self.first.replace((answer, node)).unwrap();
            return match self.more.insert(former, at) {
                Ok(_) => Ok(()),
                // The former pair comes back with the error, and to its place.
                Err(refused) => {
                    self.first = Some(refused.value);
                    Err(AllocError)
                }
            };
        }
        self.more.insert(answer, node)?;
        Ok(())
    }
}

impl<R: Ord> Children<R> {
    /// Drops the answers whose nodes are gone.
    pub(crate) fn retain<K, C, T>(
        &mut self,
        inner: &Slab<InnerNode<C, R>>,
        leaves: &Slab<LeafNode<K, T>>,
    )
    where
        R: Drop,
        ensures { self.new ≡ linked inner.now leaves.now self.old }
    {
        self.first = linked_pair(self.first.take(), inner, leaves);
        self.more.retain(
            |_answer: &R, node: &mut Node| -> bool
                ensures stays { result ≡ has_node inner.entry.now leaves.entry.now node.old }
                ensures same { node.new ≡ node.old }
            { is_there(inner, leaves, *node) },
        );
        // The least of the map's answers takes the free place, as the invariant demands.
        if self.first.is_none() {
            self.first = self.more.pop_first();
        }
    }
}

impl<R: Ord> Children<R> {
    /// Puts the branches of a node with these children on a stack, the least answer's on top.
    pub(crate) fn put_branches<'a, C>(
        &'a self,
        above: &'a InnerNode<C, R>,
        branches: &mut Vec<Branch<'a, C, R>>,
    ) -> Result<(), AllocError> {
        for (answer, child) in self.more.iter().rev() {
            branches.push(Branch {
                above,
                answer,
                child: *child,
            })?;
        }
        if let Some((answer, child)) = &self.first {
            branches.push(Branch {
                above,
                answer,
                child: *child,
            })?;
        }
        Ok(())
    }
}

/// The pair, if its node still exists.
fn linked_pair<K, C, R: Ord + Drop, T>(
    pair: Option<(R, Node)>,
    inner: &Slab<InnerNode<C, R>>,
    leaves: &Slab<LeafNode<K, T>>,
) -> Option<(R, Node)>
    ensures { result ≡ linked_option inner.now leaves.now pair }
{
    let (answer, node) = pair?;
    if is_there(inner, leaves, node) {
        Some((answer, node))
    } else {
        None
    }
}
