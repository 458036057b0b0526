//! The hash of a value with the tag of its type, against bytes written by hand: the tag as eight little-endian bytes,
//! and then the value's own.
use comemo_base::{Prehashed, SipHasher13, Tagged, hash, hash_any};
use std::hash::{Hash, Hasher};
use std::test::Fail;

// The hash of a tag below 256, followed by some bytes, with both keys 0.
fn number_of(tag: u8, bytes: &[u8]) -> u128 {
    let mut hasher = SipHasher13::new();
    hasher.write(&[tag, 0, 0, 0, 0, 0, 0, 0]);
    hasher.write(bytes);
    hasher.finish128()
}

#[test]
fn numbers_without_a_sign_have_the_tags_1_to_6(rt: HostRuntime) {
    assert!(rt; hash_any(&0xa1u8) == number_of(1, &[0xa1]));
    assert!(rt; hash_any(&0xa1b2u16) == number_of(2, &[0xb2, 0xa1]));
    assert!(rt; hash_any(&8u32) == number_of(3, &[8, 0, 0, 0]));
    let long: &[u8] = &[8, 0, 0, 0, 0, 0, 0, 0xa1];
    assert!(rt; hash_any(&0xa100_0000_0000_0008u64) == number_of(4, long));
    assert!(rt; hash_any(&0xa100_0000_0000_0008usize) == number_of(6, long));
    let huge: &[u8] = &[8, 0, 0, 0, 0, 0, 0, 0, 0, 0, 0, 0, 0, 0, 0, 0xa1];
    let number = 0xa100_0000_0000_0000_0000_0000_0000_0008u128;
    assert!(rt; hash_any(&number) == number_of(5, huge));
}

#[test]
fn numbers_with_a_sign_have_the_tags_7_to_11(rt: HostRuntime) {
    assert!(rt; hash_any(&-2i8) == number_of(7, &[0xfe]));
    assert!(rt; hash_any(&-2i16) == number_of(8, &[0xfe, 0xff]));
    assert!(rt; hash_any(&-2i32) == number_of(9, &[0xfe, 0xff, 0xff, 0xff]));
    let long: &[u8] = &[0xfe, 0xff, 0xff, 0xff, 0xff, 0xff, 0xff, 0xff];
    assert!(rt; hash_any(&-2i64) == number_of(10, long));
    let huge: &[u8] = &[
        0xfe, 0xff, 0xff, 0xff, 0xff, 0xff, 0xff, 0xff, 0xff, 0xff, 0xff, 0xff, 0xff, 0xff, 0xff,
        0xff,
    ];
    assert!(rt; hash_any(&-2i128) == number_of(11, huge));
}

#[test]
fn a_text_has_the_tag_12(rt: HostRuntime) -> Result<(), Fail> {
    let text = String::from_str(rt.alloc(), "Ada")?;
    // A text feeds its letters and then the byte 255, as in Rust.
    assert_eq!(rt; hash_any(&text), number_of(12, &[b'A', b'd', b'a', 255]));
    Ok(())
}

// A type of a program's own, with the first tag that is free for one.
#[derive(PartialEq, Eq, Hash, Clone, Copy)]
struct Line {
    number: u32,
}

impl Tagged for Line {
    const TAG: u64 = 256;

    ghost TAG = { 256 };
}

#[test]
fn a_type_of_a_program_has_its_own_tag(rt: HostRuntime) {
    let mut hasher = SipHasher13::new();
    hasher.write(&[0, 1, 0, 0, 0, 0, 0, 0, 7, 0, 0, 0]);
    let number = hasher.finish128();
    let line = Line { number: 7 };
    assert!(rt; hash_any(&line) == number);
    // A value that keeps its hash feeds this hash.
    let mut by_hand = SipHasher13::new();
    by_hand.write(&number.to_le_bytes());
    assert!(rt; hash(&Prehashed::new(line)) == by_hand.finish128());
}
