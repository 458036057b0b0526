//! What `comemo` hands on of the call tree: nodes, the children of a node, and the values of a tree.

use comemo::internal::{CallSequence, CallTree, Children, Node, Values};
use std::alloc::Global;

/// Whether children that took in a node under the answer 4 have it there, and none under 5.
fn is_led(alloc: Global) -> bool {
    let mut children: Children<u64> = Children::new(alloc);
    let is_taken = children.insert(4, Node::Leaf(0)).is_ok();
    let is_there = children.get(&4) == Some(Node::Leaf(0));
    let is_alone = children.get(&5).is_none();
    is_taken && is_there && is_alone
}

#[test]
fn an_answer_leads_to_a_node(rt: HostRuntime) {
    let is_so = is_led(rt.alloc());
    assert!(rt; is_so);
}

/// Whether a tree's values are 20 alone.
fn visits_one(tree: &CallTree<u32, u8, u64, u64>) -> bool {
    let mut values: Values<'_, u32, u64> = tree.values();
    let first = values.next().copied();
    let second = values.next().copied();
    first == Some(20) && second.is_none()
}

/// Whether a tree stores 20 at a path of one pair, and its values are 20 alone.
fn is_visited(alloc: Global) -> bool {
    let mut run = CallSequence::new(alloc);
    let is_taken = run.insert(b'a', 1) == Ok(true);
    let mut tree: CallTree<u32, u8, u64, u64> = CallTree::new(alloc);
    let is_stored = tree.insert(7, run, 20).is_ok();
    let is_one = visits_one(&tree);
    is_taken && is_stored && is_one
}

#[test]
fn the_value_of_a_tree_is_visited_once(rt: HostRuntime) {
    let is_so = is_visited(rt.alloc());
    assert!(rt; is_so);
}
