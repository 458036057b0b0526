//! Rows of the call tree and of its sequences: calls are letters, answers numbers.

use comemo::internal::{CallSequence, CallTree, InsertError};
use std::alloc::{AllocError, Global};

type Tree = CallTree<u128, u8, u128, char>;

/// A sequence of these pairs; of pairs with one call the first counts.
fn sequence_of(alloc: Global, pairs: &[(u8, u128)]) -> Result<CallSequence<u8, u128>, AllocError> {
    let mut sequence = CallSequence::new(alloc);
    for (call, answer) in pairs {
        let _ = sequence.insert(*call, *answer)?;
    }
    Ok(sequence)
}

/// Stores a value under the key 0 and these pairs.
fn insert(
    alloc: Global,
    tree: &mut Tree,
    pairs: &[(u8, u128)],
    value: char,
) -> Result<(), InsertError> {
    let sequence = sequence_of(alloc, pairs)?;
    tree.insert(0, sequence, value)
}

/// A table's answer to a call. Fails if it has none.
fn answer_in(table: &[(u8, u128)], call: u8) -> Result<u128, AllocError> {
    for (known, answer) in table {
        if *known == call {
            return Ok(*answer);
        }
    }
    Err(AllocError)
}

/// Whether a look-up under a key with a table's answers finds this value, and asks these calls.
fn finds(
    alloc: Global,
    tree: &Tree,
    key: u128,
    table: &[(u8, u128)],
    value: Option<char>,
    calls: &[u8],
) -> bool {
    let mut asked = Vec::new(alloc);
    let found = tree.get(
        &key,
        &mut |call: &u8| {
            asked.push(*call)?;
            answer_in(table, *call)
        },
    );
    let is_found = match found {
        Ok(found) => found.copied() == value,
        Err(_) => false,
    };
    is_found && asked.as_slice() == calls
}

/// The pairs of a path.
type Pairs = &'static [(u8, u128)];

/// A new tree with each value under its pairs.
fn tree_of(alloc: Global, paths: &[(Pairs, char)]) -> Result<Tree, InsertError> {
    let mut tree = CallTree::new(alloc);
    for (pairs, value) in paths {
        insert(alloc, &mut tree, *pairs, *value)?;
    }
    Ok(tree)
}

/// A look-up under the key 0: the answers, the value found, and the calls asked.
type Look = (Pairs, Option<char>, &'static [u8]);

/// Whether a tree has this shape, and these look-ups.
fn finds_all(
    alloc: Global,
    tree: &Tree,
    shape: (usize, usize, usize, usize),
    looks: &[Look],
) -> bool {
    for (table, value, calls) in looks {
        if !finds(alloc, tree, 0, *table, *value, *calls) {
            return false;
        }
    }
    tree.shape() == shape
}

/// Whether a new tree with these paths has this shape, and these look-ups.
fn is_found_in(
    alloc: Global,
    paths: &[(Pairs, char)],
    shape: (usize, usize, usize, usize),
    looks: &[Look],
) -> bool {
    match tree_of(alloc, paths) {
        Ok(tree) => finds_all(alloc, &tree, shape, looks),
        Err(_) => false,
    }
}

/// Whether diverging paths are each found by their own answers.
pub(crate) fn paths_that_part(alloc: Global) -> bool {
    let first: Pairs = &[(b'a', 10), (b'b', 15)];
    let second: Pairs = &[(b'a', 10), (b'b', 20)];
    let third: Pairs = &[(b'a', 15), (b'c', 15)];
    let paths: &[(Pairs, char)] = &[(first, 'f'), (second, 's'), (third, 't')];
    let looks: &[Look] = &[
        (first, Some('f'), b"ab"),
        (second, Some('s'), b"ab"),
        (third, Some('t'), b"ac"),
    ];
    is_found_in(alloc, paths, (3, 3, 5, 1), looks)
}

const FIRST: Pairs = &[(b'a', 10), (b'b', 15)];

const SECOND: Pairs = &[(b'a', 10), (b'c', 15), (b'b', 20)];

const THIRD: Pairs = &[(b'a', 15), (b'b', 30), (b'c', 15)];

/// Three paths under one key; the second has its own calls after the first pair of the first.
const THREE: &[(Pairs, char)] = &[(FIRST, 'f'), (SECOND, 's'), (THIRD, 't')];

/// Whether the answers of the second path find this path, with its value.
fn leads_to(tree: &Tree, path: Pairs, value: char) -> bool {
    match tree.find(&0, &mut |call: &u8| answer_in(SECOND, *call)) {
        Ok(Some((pairs, known))) => pairs.as_slice() == path && *known == value,
        _ => false,
    }
}

/// Whether a path follows the stored ones, and then its sequence.
pub(crate) fn a_path_follows_the_stored_ones(alloc: Global) -> bool {
    let looks: &[Look] = &[
        (FIRST, Some('f'), b"ab"),
        (SECOND, Some('s'), b"abc"),
        (THIRD, Some('t'), b"abc"),
    ];
    let Ok(tree) = tree_of(alloc, THREE) else {
        return false;
    };
    let follows = leads_to(&tree, &[(b'a', 10), (b'b', 20), (b'c', 15)], 's');
    follows && finds_all(alloc, &tree, (5, 3, 7, 1), looks)
}

/// Whether of three paths only the retained one is found.
pub(crate) fn what_is_kept_is_found_alone(alloc: Global) -> bool {
    let looks: &[Look] = &[
        (SECOND, Some('s'), b"abc"),
        (FIRST, None, b"ab"),
        (THIRD, None, b"a"),
    ];
    let Ok(mut tree) = tree_of(alloc, THREE) else {
        return false;
    };
    tree.retain(|value: &mut char| *value == 's');
    finds_all(alloc, &tree, (3, 1, 3, 1), looks)
}

/// Whether a path that is stored already isn't stored again, and one that lacks a stored call isn't stored.
pub(crate) fn what_is_stored_stays(alloc: Global) -> bool {
    let Ok(mut tree) = tree_of(alloc, &[(&[(b'a', 1)], 'x')]) else {
        return false;
    };
    let longer = insert(alloc, &mut tree, &[(b'a', 1), (b'b', 2)], 'y');
    let empty = insert(alloc, &mut tree, &[], 'z');
    let stays = finds_all(
        alloc,
        &tree,
        (1, 1, 1, 1),
        &[(&[(b'a', 1)], Some('x'), b"a")],
    );
    let is_there = longer == Err(InsertError::AlreadyExists);
    let is_missing = empty == Err(InsertError::MissingCall);
    stays && is_there && is_missing
}

/// Whether an empty path is found without asking.
pub(crate) fn an_empty_path_is_found_unasked(alloc: Global) -> bool {
    let Ok(mut tree) = tree_of(alloc, &[(&[], 'x')]) else {
        return false;
    };
    let longer = insert(alloc, &mut tree, &[(b'a', 1)], 'y');
    let found = finds_all(
        alloc,
        &tree,
        (0, 1, 0, 1),
        &[(&[(b'a', 1)], Some('x'), b"")],
    );
    let other = finds(alloc, &tree, 1, &[(b'a', 1)], None, b"");
    found && other && longer == Err(InsertError::AlreadyExists)
}

/// Whether calls are asked in the tree's order, and none after an answer that no path has.
pub(crate) fn calls_are_asked_in_order(alloc: Global) -> bool {
    let paths: &[(Pairs, char)] = &[
        (&[(b'a', 1), (b'b', 2)], 'x'),
        (&[(b'b', 3), (b'a', 1)], 'y'),
    ];
    let looks: &[Look] = &[
        (&[(b'a', 1), (b'b', 3)], Some('y'), b"ab"),
        (&[(b'a', 2), (b'b', 3)], None, b"a"),
    ];
    is_found_in(alloc, paths, (2, 2, 3, 1), looks)
}

/// Whether a call taken out of a sequence stays seen.
pub(crate) fn a_call_that_was_taken_out_stays_seen(alloc: Global) -> bool {
    let Ok(mut sequence) = sequence_of(alloc, &[(b'a', 1), (b'b', 2)]) else {
        return false;
    };
    let first = sequence.extract(&b'b') == Some(2);
    let second = sequence.extract(&b'b').is_none();
    let again = sequence.insert(b'b', 9) == Ok(false);
    let next = sequence.next() == Some((b'a', 1));
    let none = sequence.next().is_none();
    let after = sequence.insert(b'a', 1) == Ok(false);
    first && second && again && next && none && after
}
