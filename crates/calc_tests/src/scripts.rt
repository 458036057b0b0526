//! The parts of a script, and their sum.
use CalcFault::{NotANumber, Overflow};
use Part::{Bad, Eval, Number};
use calc_core::scripts::{CalcFault, Outcome, Part, Parts, Total};

/// Whether a script has exactly these parts.
fn has_parts(script: &str, want: &[Part<'_>]) -> bool {
    let mut parts = Parts::new(script);
    for part in want {
        if parts.next() != Some(*part) {
            return false;
        }
    }
    parts.next().is_none() && parts.next().is_none()
}

#[test]
fn numbers_and_calls_are_parts(rt: HostRuntime) {
    let cases: &[(&str, &[Part<'_>])] = &[
        ("1", &[Number(1)]),
        (" 1\n", &[Number(1)]),
        ("007 + -7", &[Number(7), Number(-7)]),
        ("1+-0+3", &[Number(1), Number(0), Number(3)]),
        ("2147483647", &[Number(2_147_483_647)]),
        ("-2147483648", &[Number(-2_147_483_648)]),
        ("0000000000000000000000012", &[Number(12)]),
        ("\u{a0}7\u{a0} +\u{3000}8", &[Number(7), Number(8)]),
        ("-7 + eval a", &[Number(-7), Eval("a")]),
        ("eval a + x", &[Eval("a"), Bad]),
        ("eval  a", &[Eval(" a")]),
        ("\teval a b\t", &[Eval("a b")]),
        (
            "1+eval ö.calc+eval -",
            &[Number(1), Eval("ö.calc"), Eval("-")],
        ),
        ("eval eval a", &[Eval("eval a")]),
        // Each plus separates two parts.
        ("+", &[Bad, Bad]),
        (" + ", &[Bad, Bad]),
        ("+5", &[Bad, Number(5)]),
        ("5+", &[Number(5), Bad]),
        ("1++2", &[Number(1), Bad, Number(2)]),
    ];
    for (script, want) in cases {
        assert!(rt; has_parts(*script, *want), "for {script:?}");
    }
}

#[test]
fn all_else_is_bad(rt: HostRuntime) {
    let cases: &[&str] = &[
        "",
        " ",
        "-",
        "--1",
        "- 1",
        "1-2",
        "1 2",
        "1_000",
        "0x10",
        "1.0",
        "٣",
        "2147483648",
        "-2147483649",
        "99999999999999999999",
        "\u{200b}7",
        "eval",
        "eval ",
        "evala",
        "eval\ta",
        "Eval a",
    ];
    for script in cases {
        assert!(rt; has_parts(*script, &[Bad]), "for {script:?}");
    }
}

#[test]
fn a_total_counts_the_highest_part(rt: HostRuntime) {
    let mut total = Total::new();
    let value = Ok(1);
    let low = Outcome { value, height: 2 };
    let value = Ok(-2);
    let high = Outcome { value, height: 5 };
    let is_first = total.add(low).is_ok();
    let is_second = total.add(high).is_ok();
    let is_third = total.add(low).is_ok();
    let whole = total.outcome(Ok(()));
    let value = Ok(0);
    let is_whole = whole == Outcome { value, height: 6 };
    assert!(rt; is_first && is_second && is_third && is_whole);
}

/// Whether a part of this value fails with `fault` after a part of 1, and the whole then has this value with this end.
fn refuses(
    value: Result<i32, CalcFault>,
    fault: CalcFault,
    end: Result<(), CalcFault>,
    whole: Result<i32, CalcFault>,
) -> bool {
    let mut total = Total::new();
    let one = Ok(1);
    let first = Outcome {
        value: one,
        height: 0,
    };
    let is_taken = total.add(first) == Ok(());
    let is_refused = total.add(Outcome { value, height: 3 }) == Err(fault);
    let outcome = total.outcome(end);
    is_taken && is_refused && outcome.value == whole && outcome.height == 4
}

#[test]
fn a_fault_counts_its_part_and_keeps_the_sum(rt: HostRuntime) {
    let cases: &[(Result<i32, CalcFault>, CalcFault)] = &[
        (Err(NotANumber), NotANumber),
        (Err(Overflow), Overflow),
        (Ok(i32::MAX), Overflow),
    ];
    for (value, fault) in cases {
        assert!(rt; refuses(*value, *fault, Ok(()), Ok(1)), "for {value:?}");
        let end = Err(*fault);
        let whole = Err(*fault);
        assert!(rt; refuses(*value, *fault, end, whole), "for {value:?}");
    }
}
