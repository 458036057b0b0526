//! A caller whose oracle answers one call and fails at every later one.
ghost use Rattle.std.specs.Prelude.{◌≡◌, is_err, IfOk, IfErr, IfSome, IfNone, Some, None, true, option_copied};
ghost use Rattle.std.specs.List.{Any};
ghost use Rattle.comemo_base.specs.Lookup.{under};
ghost use Rattle.comemo_tree_tests.specs.Refusals.{GoesOnAfter, IsAnsweredBy, LacksAnswer};

use comemo_plain::PlainTree;
use std::alloc::AllocError;
use std::hash::Hash;

/// What a tree finds with an oracle that answers the first call and fails at every later one, and whether the oracle
/// failed.
///
/// The look-up fails exactly if its oracle did, so a miss never stands for a failed call.
pub fn get_with_one_answer<'a, K: Eq + Hash, C: Eq + Hash, R: Ord + Drop, T>(
    tree: &'a PlainTree<K, C, R, T>,
    key: &K,
    answer: R,
) -> (Result<Option<&'a T>, AllocError>, bool)
    ensures passed_on { is_err result.0 ≡ result.1 }
    ensures refused { IfErr result.0 (λ _.
        Any (λ e. GoesOnAfter R.eq answer e.path) (under K.eq tree.now key.now)) }
    ensures missed { IfOk result.0 (λ found. IfNone (option_copied found)
        (LacksAnswer C.eq R.eq (under K.eq tree.now key.now) answer)) }
    ensures found { IfOk result.0 (λ found. IfSome (option_copied found) (λ v.
        Any (λ e. IsAnsweredBy R.eq answer e.path × (e.value ≡ v)) (under K.eq tree.now key.now))) }
{
    let mut left = Some(answer);
    let mut refused = false;
    let found = tree.get(
        key,
        &mut |_: &C| -> Result<R, AllocError>
            ensures given { IfOk result (λ r.
                (left.entry ≡ Some r) × (left.exit ≡ None) × (refused.exit ≡ refused.entry)) }
            ensures refused { IfErr result (λ _. (left.entry ≡ None) × (refused.exit ≡ true)) }
        {
            match left.take() {
                Some(answer) => Ok(answer),
                None => {
                    refused = true;
                    Err(AllocError)
                }
            }
        },
    );
    (found, refused)
}

#[cfg(test)]
mod tests {
    use super::*;
    use crate::sequences::{Tree, stores};

    // Whether a look-up with one answer fails, and so did its oracle.
    fn is_refused(tree: &Tree, answer: u128) -> bool {
        let (found, refused) = get_with_one_answer(tree, &0, answer);
        found.is_err() && refused
    }

    // Whether a look-up with one answer did not fail, nor its oracle, and found this.
    fn is_found(tree: &Tree, answer: u128, wanted: Option<char>) -> bool {
        let (found, refused) = get_with_one_answer(tree, &0, answer);
        match found {
            Ok(found) => found.copied() == wanted && !refused,
            Err(_) => false,
        }
    }

    #[test]
    fn a_refused_call_is_no_miss(rt: HostRuntime) {
        let alloc = rt.alloc();
        let mut tree = PlainTree::new(alloc);
        assert!(rt; stores(alloc, &mut tree, &[(b'a', 1), (b'b', 2)], 'x'));
        assert!(rt; stores(alloc, &mut tree, &[(b'a', 3)], 'y'));
        assert!(rt; is_refused(&tree, 1));
        assert!(rt; is_found(&tree, 3, Some('y')));
        assert!(rt; is_found(&tree, 4, None));
    }
}
