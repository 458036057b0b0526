//! Many answers under one node, many keys, and a long chain: what is found, how many calls are asked, and what a
//! retention drops.
use crate::steps::Tree;
use comemo_base::{CallSequence, InsertError};
use std::alloc::Global;

/// Whether a sequence absorbs the calls below a number. The first has this answer, each other its own number.
fn takes(sequence: &mut CallSequence<u32, u32>, calls: u32, first: u32) -> bool {
    for call in 0..calls {
        let answer = if call == 0 { first } else { call };
        let Ok(true) = sequence.insert(call, answer) else {
            return false;
        };
    }
    true
}

/// Stores a value under a key and the calls below a number. The first call has this answer, each other its own number.
fn insert(
    alloc: Global,
    tree: &mut Tree,
    key: u32,
    calls: u32,
    first: u32,
    value: u32,
) -> Result<(), InsertError> {
    let mut sequence = CallSequence::new(alloc);
    let is_taken = takes(&mut sequence, calls, first);
    let done = tree.insert(key, sequence, value);
    if is_taken {
        done
    } else {
        Err(InsertError::Memory)
    }
}

/// The answers of the numbers below 100,003, a prime. They differ, and are not in order.
fn scattered(number: u32) -> u32 {
    number.wrapping_mul(7919) % 100_003
}

/// Whether a tree stores a value for each number below a count, under one key and call, with the number's answer.
fn fills(alloc: Global, tree: &mut Tree, key: u32, count: u32) -> bool {
    for number in 0..count {
        let done = insert(alloc, tree, key, 1, scattered(number), number);
        if done != Ok(()) {
            return false;
        }
    }
    true
}

/// Whether a tree finds this if each call has this answer, and asks this many calls.
fn finds(tree: &Tree, key: u32, answer: u32, wanted: Option<u32>, calls: u32) -> bool {
    let mut asked: u32 = 0;
    let found = tree.get(
        &key,
        &mut |_: &u32| {
            asked = asked.saturating_add(1);
            Ok(answer)
        },
    );
    let is_wanted = match found {
        Ok(value) => value.copied() == wanted,
        Err(_) => false,
    };
    is_wanted && asked == calls
}

/// Whether a tree has so many inner nodes, leaves, edges and keys.
fn has_shape(tree: &Tree, shape: (usize, usize, usize, usize)) -> bool {
    tree.shape() == shape
}

#[test]
fn a_hundred_thousand_answers_are_each_found_and_go(rt: HostRuntime) {
    let alloc = rt.alloc();
    let mut tree = Tree::new(alloc);
    assert!(rt; finds(&tree, 0, 1, None, 0));
    assert!(rt; fills(alloc, &mut tree, 0, 100_000));
    assert!(rt; has_shape(&tree, (1, 100_000, 100_000, 1)));
    for number in 0..100_000 {
        let answer = scattered(number);
        let again = insert(alloc, &mut tree, 0, 1, answer, 0);
        assert!(rt; again == Err(InsertError::AlreadyExists));
        assert!(rt; finds(&tree, 0, answer, Some(number), 1));
    }
    assert!(rt; has_shape(&tree, (1, 100_000, 100_000, 1)));
    tree.retain(|value: &mut u32| *value % 2 == 1);
    assert!(rt; has_shape(&tree, (1, 50_000, 50_000, 1)));
    for number in 0..100_000 {
        let kept = if number % 2 == 1 { Some(number) } else { None };
        assert!(rt; finds(&tree, 0, scattered(number), kept, 1));
    }
    tree.retain(|_: &mut u32| false);
    assert!(rt; has_shape(&tree, (0, 0, 0, 0)));
    assert!(rt; finds(&tree, 0, 1, None, 0));
}

#[test]
fn a_chain_and_a_wide_node_go_with_their_leaves(rt: HostRuntime) {
    let alloc = rt.alloc();
    let mut tree = Tree::new(alloc);
    assert!(rt; insert(alloc, &mut tree, 0, 1000, 0, 20_000) == Ok(()));
    assert!(rt; insert(alloc, &mut tree, 0, 1, 1, 20_001) == Ok(()));
    assert!(rt; has_shape(&tree, (1000, 2, 1001, 1)));
    assert!(rt; fills(alloc, &mut tree, 1, 10_000));
    assert!(rt; has_shape(&tree, (1001, 10_002, 11_001, 2)));
    tree.retain(|value: &mut u32| *value == 0 || *value >= 20_000);
    assert!(rt; has_shape(&tree, (1001, 3, 1002, 2)));
    tree.retain(|value: &mut u32| *value == 20_001);
    assert!(rt; has_shape(&tree, (1, 1, 1, 1)));
    assert!(rt; finds(&tree, 0, 0, None, 1));
    assert!(rt; finds(&tree, 0, 1, Some(20_001), 1));
    assert!(rt; insert(alloc, &mut tree, 0, 1000, 0, 7) == Ok(()));
    assert!(rt; has_shape(&tree, (1000, 2, 1001, 1)));
}

#[test]
fn keys_with_paths_are_counted(rt: HostRuntime) {
    let alloc = rt.alloc();
    let mut tree = Tree::new(alloc);
    for key in 0..100 {
        assert!(rt; fills(alloc, &mut tree, key, 2));
    }
    assert!(rt; has_shape(&tree, (100, 200, 200, 100)));
    tree.retain(|value: &mut u32| *value == 0);
    assert!(rt; has_shape(&tree, (100, 100, 100, 100)));
    assert_eq!(rt; tree.len(), 100);
}
