//! The program from its words on: its status and its output.
use calc_core::sessions::start;
use std::alloc::Global;
use std::slice;
use std::test::Fail;

/// Whether a program with these words over this input has this status, this output, and these errors.
fn starts(
    alloc: Global,
    words: &[String],
    input: &[u8],
    want_status: u8,
    want: &str,
    message: &str,
) -> bool {
    let mut out: Vec<u8> = Vec::new(alloc);
    let mut errors: Vec<u8> = Vec::new(alloc);
    let mut input = input;
    let status = start(alloc, words, &mut input, &mut out, &mut errors);
    let is_written = out.as_slice() == want.as_bytes();
    let is_said = errors.as_slice() == message.as_bytes();
    status == want_status && is_written && is_said
}

#[test]
fn starts_well_or_says_what_failed(rt: HostRuntime) -> Result<(), Fail> {
    let alloc = rt.alloc();
    let cases: &[(&[u8], u8, &str, &str)] = &[
        (b"", 0, "", ""),
        (b"size a\nsize a\n", 0, "miss 0\nhit 0\n", ""),
        // A session that the original answered: its first line is not UTF-8.
        (b"\xff\n", 1, "", "calc: not UTF-8\n"),
        (
            b"size a\nsize a\nsize \xff\nsize a\n",
            1,
            "miss 0\nhit 0\n",
            "calc: not UTF-8\n",
        ),
    ];
    for (input, status, want, message) in cases {
        let is_so = starts(alloc, &[], *input, *status, *want, *message);
        assert!(rt; is_so, "for {input:?}");
    }
    let word = String::from_str(alloc, "help")?;
    let words = slice::from_ref(&word);
    let is_so = starts(alloc, words, b"size a\n", 2, "", "usage: calc\n");
    assert!(rt; is_so);
    Ok(())
}
