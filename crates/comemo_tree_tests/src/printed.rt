//! What a tree prints, against texts written by hand.
use comemo_base::CallSequence;
use comemo_tree::CallTree;
use std::alloc::Global;

type Tree = CallTree<u32, char, u32, &'static str>;

/// Whether a sequence saw none of these calls before, and absorbs their pairs.
fn takes(run: &mut CallSequence<char, u32>, pairs: &[(char, u32)]) -> bool {
    for (call, answer) in pairs {
        let Ok(true) = run.insert(*call, *answer) else {
            return false;
        };
    }
    true
}

/// Whether a tree takes in a value under a key and these calls with their answers.
fn stores(
    alloc: Global,
    tree: &mut Tree,
    key: u32,
    pairs: &[(char, u32)],
    value: &'static str,
) -> bool {
    let mut run = CallSequence::new(alloc);
    let is_taken = takes(&mut run, pairs);
    let is_stored = tree.insert(key, run, value).is_ok();
    is_taken && is_stored
}

/// Whether a tree prints so, in one form as in the other.
fn prints(alloc: Global, tree: &Tree, wanted: &str) -> bool {
    let Ok(short) = format!(in alloc; "{tree:?}") else {
        return false;
    };
    let is_short = short.as_str() == wanted;
    let Ok(long) = format!(in alloc; "{tree:#?}") else {
        return false;
    };
    is_short && long.as_str() == wanted
}

/// Whether a tree takes in four entries under one key.
fn stores_four(alloc: Global, tree: &mut Tree) -> bool {
    let entries: &[(&[(char, u32)], &'static str)] = &[
        (&[('a', 15), ('c', 15)], "third"),
        (&[('a', 10), ('b', 20)], "second"),
        (&[('a', 20)], "fourth"),
        (&[('a', 10), ('b', 15)], "first"),
    ];
    for (pairs, value) in entries {
        if !stores(alloc, tree, 1, pairs, *value) {
            return false;
        }
    }
    true
}

const FORKED: &str = "key 1
  'a' = 10
    'b' = 15: \"first\"
    'b' = 20: \"second\"
  'a' = 15
    'c' = 15: \"third\"
  'a' = 20: \"fourth\"";

#[test]
fn calls_are_below_the_answers_that_led_to_them(rt: HostRuntime) {
    let alloc = rt.alloc();
    let mut tree = Tree::new(alloc);
    assert!(rt; stores_four(alloc, &mut tree));
    assert!(rt; prints(alloc, &tree, FORKED));
}

const THINNED: &str = "key 1
  'a' = 10
    'b' = 20: \"second\"
  'a' = 20: \"fourth\"";

#[test]
fn dropped_entries_are_not_printed(rt: HostRuntime) {
    let alloc = rt.alloc();
    let mut tree = Tree::new(alloc);
    assert!(rt; stores_four(alloc, &mut tree));
    tree.retain(|value: &mut &str| *value == "second" || *value == "fourth");
    assert!(rt; prints(alloc, &tree, THINNED));
    tree.retain(|_: &mut &str| false);
    assert!(rt; prints(alloc, &tree, "no entries"));
}

#[test]
fn keys_follow_each_other(rt: HostRuntime) {
    let alloc = rt.alloc();
    let mut tree = Tree::new(alloc);
    assert!(rt; prints(alloc, &tree, "no entries"));
    assert!(rt; stores(alloc, &mut tree, 2, &[], "other"));
    assert!(rt; prints(alloc, &tree, "key 2: \"other\""));
    assert!(rt; stores(alloc, &mut tree, 1, &[('a', 10)], "first"));
    // A map of keys has no order, so either key may come first.
    let rising = prints(
        alloc,
        &tree,
        "key 1\n  'a' = 10: \"first\"\nkey 2: \"other\"",
    );
    let falling = prints(
        alloc,
        &tree,
        "key 2: \"other\"\nkey 1\n  'a' = 10: \"first\"",
    );
    assert!(rt; rising || falling);
}

type Chain = CallTree<u32, u32, u32, u32>;

/// Whether a sequence absorbs a thousand calls.
fn takes_thousand(run: &mut CallSequence<u32, u32>) -> bool {
    for call in 0..1000_u32 {
        let Ok(true) = run.insert(call, 7) else {
            return false;
        };
    }
    true
}

/// Whether a tree takes in a path of a thousand calls.
fn stores_thousand(alloc: Global, tree: &mut Chain) -> bool {
    let mut run = CallSequence::new(alloc);
    let is_taken = takes_thousand(&mut run);
    let is_stored = tree.insert(1, run, 5).is_ok();
    is_taken && is_stored
}

/// Whether a tree prints a path of a thousand calls. The key has a line, and each call; the value ends the last one.
fn prints_thousand(alloc: Global, tree: &Chain) -> bool {
    let Ok(text) = format!(in alloc; "{tree:?}") else {
        return false;
    };
    let has_lines = text.lines().count() == 1001;
    let begins = text.starts_with("key 1\n  0 = 7\n    1 = 7\n      2 = 7\n");
    has_lines && begins && text.ends_with("  999 = 7: 5")
}

#[test]
fn a_path_of_a_thousand_calls_is_printed(rt: HostRuntime) {
    let alloc = rt.alloc();
    let mut tree = Chain::new(alloc);
    assert!(rt; stores_thousand(alloc, &mut tree));
    assert!(rt; prints_thousand(alloc, &tree));
}

/// Whether the values of a tree, sorted, are these.
fn has_values(alloc: Global, tree: &Tree, wanted: &[&'static str]) -> bool {
    let mut values = Vec::new(alloc);
    for value in tree.values() {
        if values.push(*value).is_err() {
            return false;
        }
    }
    values.sort().is_ok() && values.as_slice() == wanted
}

/// Whether so many values of a tree are visited, and it says so before.
fn visits(tree: &Tree, count: usize) -> bool {
    let is_said = tree.values().len() == count;
    is_said && tree.values().count() == count
}

#[test]
fn each_value_is_visited_once(rt: HostRuntime) {
    let alloc = rt.alloc();
    let mut tree = Tree::new(alloc);
    assert!(rt; visits(&tree, 0));
    assert!(rt; stores(alloc, &mut tree, 1, &[('a', 15), ('c', 15)], "third"));
    assert!(rt; stores(alloc, &mut tree, 1, &[('a', 10)], "second"));
    assert!(rt; stores(alloc, &mut tree, 2, &[], "other"));
    assert!(rt; visits(&tree, 3));
    assert!(rt; has_values(alloc, &tree, &["other", "second", "third"]));
}
