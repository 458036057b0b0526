//! The keys whose paths ask given calls.

use crate::sequences::takes;
use comemo_base::CallSequence;
use comemo_tree::CallTree;
use std::alloc::Global;

type Tree = CallTree<u32, u8, u128, u64>;

/// Whether a tree takes in a run with these pairs.
fn stores(alloc: Global, tree: &mut Tree, key: u32, pairs: &[(u8, u128)]) -> bool {
    let mut run = CallSequence::new(alloc);
    let is_taken = takes(&mut run, pairs);
    let is_stored = tree.insert(key, run, u64::from(key)).is_ok();
    is_taken && is_stored
}

/// Whether these calls reach these keys, in rising order.
fn reaches(alloc: Global, tree: &Tree, calls: &[u8], wanted: &[u32]) -> bool {
    let Ok(found) = tree.reached(calls) else {
        return false;
    };
    let mut keys = Vec::new(alloc);
    for key in found {
        if keys.push(*key).is_err() {
            return false;
        }
    }
    keys.sort().is_ok() && keys.as_slice() == wanted
}

/// Whether a tree takes in five runs under four keys; one asks nothing.
fn stores_five(alloc: Global, tree: &mut Tree) -> bool {
    let runs: &[(u32, &[(u8, u128)])] = &[
        (1, &[(b'a', 1), (b'b', 2)]),
        (1, &[(b'a', 2), (b'c', 2)]),
        (2, &[(b'b', 1)]),
        (3, &[]),
        (4, &[(b'd', 1), (b'c', 1), (b'a', 1)]),
    ];
    for (key, pairs) in runs {
        if !stores(alloc, tree, *key, pairs) {
            return false;
        }
    }
    true
}

#[test]
fn keys_are_reached_by_each_call_on_a_path(rt: HostRuntime) {
    let alloc = rt.alloc();
    let mut tree = Tree::new(alloc);
    assert!(rt; stores_five(alloc, &mut tree));
    let cases: &[(&[u8], &[u32])] = &[
        (b"a", &[1, 4]),
        (b"b", &[1, 2]),
        (b"c", &[1, 4]),
        (b"d", &[4]),
        (b"db", &[1, 2, 4]),
        (b"e", &[]),
        (b"", &[]),
    ];
    for (calls, keys) in cases {
        let is_so = reaches(alloc, &tree, calls, keys);
        assert!(rt; is_so, "for {calls:?}");
    }
}

#[test]
fn a_dropped_run_is_no_longer_reached(rt: HostRuntime) {
    let alloc = rt.alloc();
    let mut tree = Tree::new(alloc);
    assert!(rt; stores_five(alloc, &mut tree));
    tree.retain(|value: &mut u64| *value > 1);
    let is_so = reaches(alloc, &tree, b"a", &[4]) && reaches(alloc, &tree, b"b", &[2]);
    assert!(rt; is_so);
}

#[test]
fn an_empty_tree_reaches_nothing(rt: HostRuntime) {
    let alloc = rt.alloc();
    let tree = Tree::new(alloc);
    let is_so = reaches(alloc, &tree, b"a", &[]);
    assert!(rt; is_so);
}
