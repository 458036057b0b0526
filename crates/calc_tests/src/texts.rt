//! Shared texts.
use calc_core::files::Text;
use std::alloc::{AllocError, Global};
use std::cmp::Ordering;

/// The text, to be shared.
fn shared(alloc: Global, text: &str) -> Result<Text, AllocError> {
    Text::new(String::from_str(alloc, text)?)
}

/// Whether a clone of a text reads so, with this length in bytes, and prints so, after the text is dropped.
fn reads(alloc: Global, text: &str, len: usize, printed: &str) -> bool {
    let Ok(first) = shared(alloc, text) else {
        return false;
    };
    let Ok(copy) = first.clone() else {
        return false;
    };
    let is_same = first == copy;
    drop(first);
    let Ok(shown) = format!(in alloc; "{copy:?}") else {
        return false;
    };
    is_same && copy.as_str() == text && copy.len() == len && shown.as_str() == printed
}

/// Whether two texts are equal or not, as wanted, and have the same hash exactly if they are equal. Of different ones
/// one must be less than the other, whichever.
fn are_alike(alloc: Global, left: &str, right: &str, is_alike: bool) -> bool {
    let Ok(left) = shared(alloc, left) else {
        return false;
    };
    let Ok(right) = shared(alloc, right) else {
        return false;
    };
    let there = left.cmp(&right);
    let is_ordered = left.partial_cmp(&right) == Some(there) && right.cmp(&left) == there.reverse();
    let is_equal = (left == right) == is_alike && (there == Ordering::Equal) == is_alike;
    let has_one_hash = comemo::hash(&left) == comemo::hash(&right);
    is_ordered && is_equal && has_one_hash == is_alike
}

#[test]
fn texts_are_told_apart_by_their_bytes(rt: HostRuntime) {
    let alloc = rt.alloc();
    assert!(rt; reads(alloc, "äb", 3, "\"äb\""));
    assert!(rt; reads(alloc, "", 0, "\"\""));
    let cases: &[(&str, &str, bool)] = &[
        ("äb", "äb", true),
        ("äb", "äba", false),
        ("äba", "äc", false),
        ("", "äb", false),
        ("", "", true),
    ];
    for (left, right, is_alike) in cases {
        let is_so = are_alike(alloc, *left, *right, *is_alike);
        assert!(rt; is_so, "for {left:?} and {right:?}");
    }
}

#[test]
fn an_empty_text_that_was_shared_is_the_empty_one(rt: HostRuntime) -> Result<(), AllocError> {
    let text = shared(rt.alloc(), "")?;
    let empty = Text::empty();
    let is_alike = text == empty && comemo::hash(&text) == comemo::hash(&empty);
    let is_empty = empty.as_str().is_empty() && empty.len() == 0;
    assert!(rt; is_alike && is_empty);
    Ok(())
}
