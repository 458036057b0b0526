//! Which line asks for which command, and what each answer prints.
use calc_core::commands::{Answer, Command};
use calc_core::scripts::CalcFault;
use std::alloc::Global;

/// Whether the command of a line prints so.
fn asks(alloc: Global, line: &str, want: &str) -> bool {
    let Ok(found) = Command::parse(alloc, line) else {
        return false;
    };
    let Ok(text) = format!(in alloc; "{found:?}") else {
        return false;
    };
    text.as_str() == want
}

#[test]
fn a_line_asks_for_its_command(rt: HostRuntime) {
    let alloc = rt.alloc();
    let cases: &[(&str, &str)] = &[
        ("write a hello", "Some(Write(\"a\", \"hello\"))"),
        ("write a", "Some(Write(\"a\", \"\"))"),
        ("write a ", "Some(Write(\"a\", \"\"))"),
        ("write a b c", "Some(Write(\"a\", \"b c\"))"),
        ("write a 1 + 2", "Some(Write(\"a\", \"1 + 2\"))"),
        ("write a  b", "Some(Write(\"a\", \" b\"))"),
        ("write a b ", "Some(Write(\"a\", \"b \"))"),
        ("write a\tb c", "Some(Write(\"a\\tb\", \"c\"))"),
        ("write \t", "Some(Write(\"\\t\", \"\"))"),
        ("write größe äé 漢", "Some(Write(\"größe\", \"äé 漢\"))"),
        ("write a\u{a0}b c", "Some(Write(\"a\\u{a0}b\", \"c\"))"),
        ("write write write", "Some(Write(\"write\", \"write\"))"),
        ("size a", "Some(Size(\"a\"))"),
        ("size ", "Some(Size(\"\"))"),
        ("size a b", "Some(Size(\"a b\"))"),
        ("size  a", "Some(Size(\" a\"))"),
        ("size a ", "Some(Size(\"a \"))"),
        ("size größe\t漢", "Some(Size(\"größe\\t漢\"))"),
        ("eval 1 + 2", "Some(Eval(\"1 + 2\"))"),
        ("eval ", "Some(Eval(\"\"))"),
        ("eval  a", "Some(Eval(\" a\"))"),
        ("eval eval a b", "Some(Eval(\"eval a b\"))"),
        ("eval 1\t", "Some(Eval(\"1\\t\"))"),
        ("evict 0", "Some(Evict(0))"),
        ("evict 7", "Some(Evict(7))"),
        ("evict 007", "Some(Evict(7))"),
        ("evict 10", "Some(Evict(10))"),
        (
            "evict 000000000000000000000000000000000000000001",
            "Some(Evict(1))",
        ),
        (
            "evict 18446744073709551615",
            "Some(Evict(18446744073709551615))",
        ),
        (
            "evict 018446744073709551615",
            "Some(Evict(18446744073709551615))",
        ),
    ];
    for (line, want) in cases {
        assert!(rt; asks(alloc, *line, *want), "for {line:?}");
    }
}

#[test]
fn other_lines_are_no_commands(rt: HostRuntime) {
    let alloc = rt.alloc();
    let lines: &[&str] = &[
        "",
        " ",
        "help",
        "write",
        "write ",
        "write  ",
        "write  a",
        "write\ta b",
        "writea b",
        " write a b",
        "Write a b",
        "size",
        "size\ta",
        " size a",
        "Size a",
        "sizes a",
        "eval",
        "eval\t1",
        "evals 1",
        " eval 1",
        "evict",
        "evict ",
        "evict -1",
        "evict +1",
        "evict  1",
        "evict 1 ",
        "evict 1 2",
        "evict x",
        "evict 0x1",
        "evict \u{ff11}",
        "evict 18446744073709551616",
        "evict 100000000000000000000",
        "evict\t1",
        " evict 0",
        "evicts 1",
    ];
    for line in lines {
        assert!(rt; asks(alloc, *line, "None"), "for {line:?}");
    }
}

/// Whether an answer prints so.
fn prints(alloc: Global, answer: Answer, want: &str) -> bool {
    match answer.text(alloc) {
        Ok(text) => text.as_str() == want,
        Err(_) => false,
    }
}

#[test]
fn an_answer_prints_its_text(rt: HostRuntime) {
    let alloc = rt.alloc();
    let size = |hit, bytes| Answer::Size { hit, bytes };
    let value = |hit, kept, value| Answer::Value { hit, kept, value };
    let cases: &[(Answer, &str)] = &[
        (Answer::Written, ""),
        (Answer::Evicted, ""),
        (size(true, 5), "hit 5\n"),
        (size(true, 10), "hit 10\n"),
        (size(false, 0), "miss 0\n"),
        (size(false, u64::MAX), "miss 18446744073709551615\n"),
        (value(false, true, Ok(7)), "miss 7\n"),
        (value(true, true, Ok(-2_147_483_648)), "hit -2147483648\n"),
        (value(false, false, Ok(0)), "miss 0\n"),
        (
            value(true, true, Err(CalcFault::NotANumber)),
            "hit not a number\n",
        ),
        (
            value(false, true, Err(CalcFault::Overflow)),
            "miss overflow\n",
        ),
        (Answer::TooDeep, "too deep\n"),
        (Answer::Memory, "out of memory\n"),
    ];
    for (answer, want) in cases {
        assert!(rt; prints(alloc, *answer, *want), "for {want}");
    }
}
