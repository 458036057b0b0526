//! Worked examples of sequences, with bytes as calls and numbers as answers. The rows of `bench rows` have more, and
//! those of trees.
use comemo_base::CallSequence;
use comemo_plain::PlainTree;
use std::alloc::Global;

pub(crate) type Tree = PlainTree<u128, u8, u128, char>;

/// Whether a sequence saw none of these calls before, and absorbs their pairs.
pub(crate) fn takes(sequence: &mut CallSequence<u8, u128>, pairs: &[(u8, u128)]) -> bool {
    for (call, answer) in pairs {
        let Ok(true) = sequence.insert(*call, *answer) else {
            return false;
        };
    }
    true
}

// Whether a sequence saw a call before, so that its pair is left out.
fn leaves_out(sequence: &mut CallSequence<u8, u128>, call: u8, answer: u128) -> bool {
    matches!(sequence.insert(call, answer), Ok(false))
}

// Whether the remaining pairs of a sequence are these, in this order.
fn has_pairs(sequence: &CallSequence<u8, u128>, pairs: &[(u8, u128)]) -> bool {
    let mut left = pairs;
    for slot in sequence.slots() {
        let Some((call, answer)) = slot else {
            continue;
        };
        let Some((first, rest)) = left.split_first() else {
            return false;
        };
        if first.0 != *call || first.1 != *answer {
            return false;
        }
        left = rest;
    }
    left.is_empty()
}

/// Whether a tree stores a value under the key 0 and pairs whose calls differ.
pub(crate) fn stores(alloc: Global, tree: &mut Tree, pairs: &[(u8, u128)], value: char) -> bool {
    let mut sequence = CallSequence::new(alloc);
    let is_taken = takes(&mut sequence, pairs);
    let is_stored = tree.insert(0, sequence, value).is_ok();
    is_taken && is_stored
}

#[test]
fn a_sequence_absorbs_what_it_never_saw(rt: HostRuntime) {
    let alloc = rt.alloc();
    let mut left = CallSequence::new(alloc);
    assert!(rt; takes(&mut left, &[(b'a', 1), (b'b', 2)]));
    let mut right = CallSequence::new(alloc);
    assert!(rt; takes(&mut right, &[(b'b', 9), (b'c', 3)]));
    assert!(rt; left.absorb(right).is_ok());
    assert!(rt; has_pairs(&left, &[(b'a', 1), (b'b', 2), (b'c', 3)]));
    assert!(rt; leaves_out(&mut left, b'c', 4));
    // What was extracted from the one counts as seen there. What was extracted from the other is not absorbed.
    assert_eq!(rt; left.extract(&b'b'), Some(2));
    let mut other = CallSequence::new(alloc);
    assert!(rt; takes(&mut other, &[(b'd', 4), (b'b', 9), (b'e', 5)]));
    assert_eq!(rt; other.extract(&b'd'), Some(4));
    assert!(rt; left.absorb(other).is_ok());
    assert!(rt; has_pairs(&left, &[(b'a', 1), (b'c', 3), (b'e', 5)]));
    assert!(rt; takes(&mut left, &[(b'd', 6)]));
    assert!(rt; leaves_out(&mut left, b'e', 6));
}

// Whether a sequence of pairs, two of which have the same call, holds only the first of these.
fn keeps_first_pairs(alloc: Global) -> bool {
    let given: &[(u8, u128)] = &[(b'a', 1), (b'b', 2), (b'a', 9)];
    match CallSequence::from_pairs(alloc, given.iter().copied()) {
        Ok(mut sequence) => {
            let is_first = sequence.next() == Some((b'a', 1));
            let is_second = sequence.next() == Some((b'b', 2));
            let is_all = sequence.next().is_none();
            let is_left_out = leaves_out(&mut sequence, b'a', 5);
            is_first && is_second && is_all && is_left_out
        }
        Err(_) => false,
    }
}

#[test]
fn the_first_pair_of_a_call_is_taken(rt: HostRuntime) {
    assert!(rt; keeps_first_pairs(rt.alloc()));
}
