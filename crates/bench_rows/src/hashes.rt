//! Rows of hashes.

use comemo::internal::{SipHasher13, hash_any};
use comemo::{Prehashed, Track, hash};
use comemo_examples::Town;
use std::alloc::{AllocError, Global};
use std::fmt::Debug;
use std::hash::Hasher;

/// This many bytes: 0, 1, 2 and so on, and 0 again after 255.
fn bytes(alloc: Global, count: usize) -> Result<Vec<u8>, AllocError> {
    let mut bytes = Vec::new(alloc);
    let mut byte: u8 = 0;
    for _ in 0..count {
        bytes.push(byte)?;
        byte = byte.wrapping_add(1);
    }
    Ok(bytes)
}

/// The hash of the bytes written to a hasher, and these.
fn number_after(mut hasher: SipHasher13, bytes: &[u8]) -> u128 {
    hasher.write(bytes);
    hasher.finish128()
}

/// Whether these bytes in two pieces, cut anywhere, hash as the whole.
fn each_cut_hashes_as_the_whole(bytes: &[u8]) -> bool {
    let whole = number_after(SipHasher13::new(), bytes);
    for cut in 0..=bytes.len() {
        let Some((front, back)) = bytes.split_at_checked(cut) else {
            return false;
        };
        let mut hasher = SipHasher13::new();
        hasher.write(front);
        if number_after(hasher, back) != whole {
            return false;
        }
    }
    true
}

/// Whether bytes in two pieces, cut anywhere, hash as the whole.
pub(crate) fn two_pieces_hash_as_the_whole(alloc: Global) -> bool {
    let counts: &[usize] = &[0, 7, 8, 9, 255, 256];
    for count in counts {
        let Ok(bytes) = bytes(alloc, *count) else {
            return false;
        };
        if bytes.len() != *count || !each_cut_hashes_as_the_whole(bytes.as_slice()) {
            return false;
        }
    }
    true
}

/// Whether a value prints as this text.
fn prints<T: Debug>(alloc: Global, value: &T, wanted: &str) -> bool {
    match format!(in alloc; "{value:?}") {
        Ok(text) => text.as_str() == wanted,
        Err(_) => false,
    }
}

/// Whether a view prints none of its value.
fn a_view_prints_no_value(alloc: Global) -> bool {
    let town = Town {
        people: 900,
        degrees: 21,
    };
    prints(alloc, &town.track(alloc), "Tracked(..)")
}

/// Whether a prehashed value follows its item; and how it and a view print.
pub(crate) fn a_kept_hash_follows_its_item(alloc: Global) -> bool {
    let mut value = Prehashed::new(7_u32);
    let before = prints(alloc, &value, "7");
    value.update(|item| *item = 8);
    let after = prints(alloc, &value, "8");
    let number = hash_any(&8_u32).to_le_bytes();
    let fed = number_after(SipHasher13::new(), number.as_slice());
    let is_hashed = value == Prehashed::new(8_u32) && hash(&value) == fed;
    before && after && is_hashed && a_view_prints_no_value(alloc)
}
