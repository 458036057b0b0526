//! Callers of a tree's look-ups. Each lends its oracle, and shows from the contracts alone that what was found agrees
//! with the map that its oracle answers from.
ghost use Rattle.std.specs.Prelude.{◌≡◌, ◌<◌, Some, IsTrue, length, nat_eq, slice_index, option_copied, option_map, IfOk, OnErr, IfErr};
ghost use Rattle.std.proofs.Common.{rules};
ghost use Rattle.std.specs.List.{All, Any};
ghost use Rattle.comemo_base.specs.Answers.{Agrees};
ghost use Rattle.comemo_base.specs.Lookup.{under, FindsAgreeing, FindsAgreeingPath};

use comemo_base::{CallSequence, InsertError};
use comemo_plain::PlainTree;
use std::alloc::AllocError;

fn answer_in(table: &[u128], call: u8) -> u128
    ensures { result ≡ slice_index table.now call }
{
    let at = call as usize;
    if at < table.len() { table[at] } else { 0 }
}

/// The value whose path agrees with a table of answers. No answer fails, so the look-up doesn't.
pub fn get_by_table<'a, T>(
    tree: &'a PlainTree<u128, u8, u128, T>,
    key: u128,
    table: &[u128],
) -> Option<&'a T>
    ensures { FindsAgreeing nat_eq nat_eq (under nat_eq tree.now key)
        (λ c. slice_index table.now c) (option_copied result) }
{
    match tree.get(&key, &mut |call: &u8| Ok(answer_in(table, *call))) {
        Ok(found) => found,
        Err(_) => unreachable!(),
    }
}

/// The path that agrees with a table of answers, and its value. Fails if out of memory for the clone of a stored path.
pub fn find_by_table<'a, T>(
    tree: &'a PlainTree<u128, u8, u128, T>,
    key: u128,
    table: &[u128],
) -> Result<Option<(Vec<(u8, u128)>, &'a T)>, AllocError>
    ensures found { IfOk result (λ found.
        FindsAgreeingPath nat_eq nat_eq (under nat_eq tree.now key)
        (λ c. slice_index table.now c) (option_map (λ p. (p.0.items, p.1.now)) found)) }
    ensures err { OnErr result (Any (λ e. Agrees nat_eq (λ c. slice_index table.now c) e.path)
        (under nat_eq tree.now key)) }
{
    tree.find(&key, &mut |call: &u8| Ok(answer_in(table, *call)))
}

/// Stores a value, and looks it up by a table that agrees with its sequence. Finds what was stored, whatever else is in
/// the tree.
pub fn insert_then_get<'a, T: Drop>(
    tree: &'a mut PlainTree<u128, u8, u128, T>,
    key: u128,
    sequence: CallSequence<u8, u128>,
    value: T,
    table: &[u128],
) -> Result<Option<&'a T>, InsertError>
    requires { Agrees nat_eq (λ c. slice_index table.now c) sequence.pairs }
    ensures { IfOk result (λ found. option_copied found ≡ Some value) }
{
    tree.insert(key, sequence, value)?;
    Ok(get_by_table(tree, key, table))
}

#[cfg(test)]
mod tests {
    use super::*;
    use crate::sequences::{Tree, stores};

    // Whether a tree finds a path and its value under the key 0 by a table of answers.
    fn finds_path(tree: &Tree, table: &[u128], wanted: &[(u8, u128)], value: char) -> bool {
        match find_by_table(tree, 0, table) {
            Ok(Some((path, found))) => {
                let is_wanted = path.as_slice() == wanted;
                is_wanted && *found == value
            }
            _ => false,
        }
    }

    // Whether a tree gets this under a key by a table of answers.
    fn gets(tree: &Tree, key: u128, table: &[u128], wanted: Option<char>) -> bool {
        get_by_table(tree, key, table).copied() == wanted
    }

    #[test]
    fn a_table_finds_the_path_of_its_answers(rt: HostRuntime) {
        let alloc = rt.alloc();
        let mut tree = PlainTree::new(alloc);
        assert!(rt; stores(alloc, &mut tree, &[(0, 10), (1, 15)], 'f'));
        assert!(rt; stores(alloc, &mut tree, &[(0, 10), (1, 20)], 's'));
        assert_eq!(rt; tree.len(), 2);
        assert!(rt; gets(&tree, 0, &[10, 20], Some('s')));
        assert!(rt; gets(&tree, 0, &[15, 20], None));
        assert!(rt; gets(&tree, 1, &[10, 20], None));
        assert!(rt; finds_path(&tree, &[10, 15], &[(0, 10), (1, 15)], 'f'));
    }
}
