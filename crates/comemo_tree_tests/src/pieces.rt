//! Bytes that are hashed in pieces, and numbers that are hashed as their bytes.
use comemo_base::{SipHasher13, hash};
use std::hash::Hasher;

// The hash after some more bytes.
fn number_after(mut hasher: SipHasher13, bytes: &[u8]) -> u128 {
    hasher.write(bytes);
    hasher.finish128()
}

// A hasher that has read the bytes 1 to the count.
fn begun(count: u8) -> SipHasher13 {
    let mut hasher = SipHasher13::new();
    for i in 0..count {
        hasher.write(&[i.wrapping_add(1)]);
    }
    hasher
}

#[test]
fn a_number_hashes_as_its_bytes(rt: HostRuntime) {
    assert_eq!(rt;
        hash(&7u32),
        number_after(SipHasher13::new(), &[7, 0, 0, 0])
    );
}

#[test]
fn the_short_number_is_the_low_half(rt: HostRuntime) {
    for count in 0..20 {
        let hasher = begun(count);
        assert_eq!(rt;
            u128::from(hasher.finish()),
            hasher.finish128() % (1 << 64),
            "{count} bytes"
        );
    }
}

// Whether numbers of 8, 16 and 32 bits are written as their bytes, after this many bytes.
fn writes_short_numbers(count: u8) -> bool {
    let held = begun(count);
    let mut byte = held;
    byte.write_u8(0xa1);
    let is_byte = byte.finish128() == number_after(held, &[0xa1]);
    let mut short = held;
    short.write_u16(0xa1b2);
    let is_short = short.finish128() == number_after(held, &[0xb2, 0xa1]);
    let mut word = held;
    word.write_u32(0xa1b2_c3d4);
    let is_word = word.finish128() == number_after(held, &[0xd4, 0xc3, 0xb2, 0xa1]);
    is_byte && is_short && is_word
}

// Whether numbers of 64 and 128 bits are written as their bytes, after this many bytes.
fn writes_long_numbers(count: u8) -> bool {
    let low: &[u8] = &[0x18, 0x07, 0xf6, 0xe5, 0xd4, 0xc3, 0xb2, 0xa1];
    let high: &[u8] = &[0x96, 0x85, 0x74, 0x63, 0x52, 0x41, 0x30, 0x29];
    let held = begun(count);
    let mut long = held;
    long.write_u64(0xa1b2_c3d4_e5f6_0718);
    let is_long = long.finish128() == number_after(held, low);
    let mut size = held;
    size.write_usize(0xa1b2_c3d4_e5f6_0718);
    let is_size = size.finish128() == number_after(held, low);
    let mut huge = held;
    huge.write_u128(0x2930_4152_6374_8596_a1b2_c3d4_e5f6_0718);
    let mut bytes = held;
    bytes.write(low);
    let is_huge = huge.finish128() == number_after(bytes, high);
    is_long && is_size && is_huge
}

#[test]
fn a_number_is_written_as_its_bytes(rt: HostRuntime) {
    for count in 0..8 {
        assert!(rt; writes_short_numbers(count), "after {count} bytes");
        assert!(rt; writes_long_numbers(count), "after {count} bytes");
    }
}
