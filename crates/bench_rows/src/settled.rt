//! The row of a tree that loses no run to another order of its calls.

use comemo::internal::InsertError;
use comemo_examples::letters::Letter::{self, A, B, C};
use comemo_examples::letters::{Letters, insert, run_of};
use comemo_examples::places::{PlaceCall, Places, steps_below};
use comemo_tree::{Settled, TreeReply};
use std::alloc::{AllocError, Global};

type Tree = Settled<Letters, char>;

/// A run: the order of its pairs, its answers to A, B and C, and its value. It asks C if the answer to A is 1.
type Stored = (u64, u128, u128, u128, char);

const X: Stored = (0, 1, 2, 3, 'x');

const Y: Stored = (1, 2, 5, 0, 'y');

const Z: Stored = (2, 1, 2, 4, 'z');

/// The pairs of `X` in another order.
const W: Stored = (2, 1, 2, 3, 'w');

/// Stores the value of a run under its pairs.
fn store(alloc: Global, tree: &mut Tree, run: Stored) -> Result<(), InsertError> {
    let (order, a, b, c, value) = run;
    let pairs = run_of(alloc, order, a, b, c)?;
    insert(alloc, tree, pairs, value)
}

/// Whether each of these runs is stored.
fn stores_all(alloc: Global, tree: &mut Tree, runs: &[Stored]) -> bool {
    for run in runs {
        if store(alloc, tree, *run).is_err() {
            return false;
        }
    }
    true
}

/// Whether the pairs of `X` are not stored again in another order.
fn are_there(alloc: Global, tree: &mut Tree) -> bool {
    store(alloc, tree, W) == Err(InsertError::AlreadyExists)
}

/// A table's answer to a call. Fails if it has none.
fn answer_in(table: &[(Letter, u128)], call: Letter) -> Result<u128, AllocError> {
    for (known, answer) in table {
        if *known == call {
            return Ok(*answer);
        }
    }
    Err(AllocError)
}

/// Whether a look-up with a table's answers finds this value, and asks these calls.
fn finds(
    alloc: Global,
    tree: &Tree,
    table: &[(Letter, u128)],
    value: Option<char>,
    calls: &[Letter],
) -> bool {
    let mut asked = Vec::new(alloc);
    let found = tree.get(
        &0,
        &mut |call: &Letter| {
            asked.push(*call)?;
            answer_in(table, *call)
        },
    );
    let is_found = match found {
        Ok(found) => found.copied() == value,
        Err(_) => false,
    };
    is_found && asked.as_slice() == calls
}

/// A look-up: the answers, the value found, and the calls asked.
type Look = (&'static [(Letter, u128)], Option<char>, &'static [Letter]);

/// Whether a tree has these look-ups, and this shape.
fn finds_all(
    alloc: Global,
    tree: &Tree,
    looks: &[Look],
    shape: (usize, usize, usize, usize),
) -> bool {
    for (table, value, calls) in looks {
        if !finds(alloc, tree, *table, *value, *calls) {
            return false;
        }
    }
    tree.shape() == shape
}

/// Whether a set of pairs is stored once, in whichever order, and again after it was dropped.
fn sets_are_stored_once(alloc: Global) -> bool {
    let before: &[Look] = &[(&[(A, 1), (B, 2), (C, 3)], Some('x'), &[A, B, C])];
    let after: &[Look] = &[
        (&[(A, 2), (B, 5)], Some('y'), &[A, B]),
        (&[(A, 1), (B, 2), (C, 3)], None, &[A, B, C]),
        (&[(A, 1), (B, 2), (C, 4)], Some('z'), &[A, B, C]),
    ];
    let mut tree = Settled::new(alloc);
    let stored = stores_all(alloc, &mut tree, &[X, Y, Z]) && are_there(alloc, &mut tree);
    let whole = finds_all(alloc, &tree, before, (4, 3, 6, 1));
    tree.retain(|value: &mut char| *value != 'x');
    let less = finds_all(alloc, &tree, after, (4, 2, 5, 1));
    let again = stores_all(alloc, &mut tree, &[W]);
    stored && whole && less && again && tree.shape() == (4, 3, 6, 1)
}

/// Whether the same sets are stored if they come in another order.
fn sets_come_in_any_order(alloc: Global) -> bool {
    let looks: &[Look] = &[
        (&[(A, 2), (B, 5)], Some('y'), &[B, A]),
        (&[(A, 1), (B, 2), (C, 3)], Some('x'), &[B, A, C]),
        (&[(A, 1), (B, 2), (C, 4)], Some('z'), &[B, A, C]),
    ];
    let mut tree = Settled::new(alloc);
    let stored = stores_all(alloc, &mut tree, &[Y, Z, X]) && are_there(alloc, &mut tree);
    stored && finds_all(alloc, &tree, looks, (4, 3, 6, 1))
}

/// Whether a tree has this value at a location whose styles are 20.
fn is_found_at(tree: &Settled<Places, u64>, location: u64, value: Option<u64>) -> bool {
    let found = tree.get(
        &0,
        &mut |call: &PlaceCall| match call {
            PlaceCall::Location => Ok(location),
            PlaceCall::Styles => Ok(20),
        },
    );
    match found {
        Ok(found) => found.copied() == value,
        Err(_) => false,
    }
}

/// Whether of a thousand places exactly the even ones are found.
fn even_ones_are_found(tree: &Settled<Places, u64>) -> bool {
    for location in 0..1000_u64 {
        let wanted = if location % 2 == 0 {
            Some(location)
        } else {
            None
        };
        if !is_found_at(tree, location, wanted) {
            return false;
        }
    }
    true
}

/// Whether a thousand steps stored, and the last retained.
fn are_stored(replies: &[TreeReply]) -> bool {
    let mut stored: usize = 0;
    for reply in replies {
        if *reply == TreeReply::Inserted {
            stored = stored.saturating_add(1);
        }
    }
    stored == 1000 && replies.last() == Some(&TreeReply::Retained)
}

/// Whether a tree stores a thousand places, and then retains the even ones.
fn stores_places(alloc: Global, tree: &mut Settled<Places, u64>) -> bool {
    let Ok(steps) = steps_below(alloc, 1000, 20) else {
        return false;
    };
    match tree.run(alloc, steps) {
        Ok(replies) => are_stored(replies.as_slice()),
        Err(_) => false,
    }
}

/// Whether of a thousand stored places exactly the even ones are found, after a last step that retains these.
fn even_places_stay(alloc: Global) -> bool {
    let mut tree = Settled::new(alloc);
    stores_places(alloc, &mut tree) && even_ones_are_found(&tree)
}

/// Whether no run is lost to another order of its calls.
pub(crate) fn no_run_is_lost(alloc: Global) -> bool {
    let once = sets_are_stored_once(alloc);
    let in_any_order = sets_come_in_any_order(alloc);
    once && in_any_order && even_places_stay(alloc)
}
