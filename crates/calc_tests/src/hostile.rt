//! Lines that nobody would write: random bytes, very long lines, and files that refer to each other in a circle.

use calc_core::sessions::{RunFault, run};
use std::alloc::{AllocError, Global};

/// Pseudorandom numbers from a seed.
#[derive(Drop)]
struct Numbers {
    state: u64,
}

impl Numbers {
    /// The next number below a bound.
    fn below(&mut self, bound: u64) -> u8 {
        let state = self.state.wrapping_mul(6364136223846793005);
        self.state = state.wrapping_add(1442695040888963407);
        let number = (self.state >> 33) % bound.max(1);
        u8::try_from(number).unwrap_or(0)
    }
}

/// Adds a line of random bytes that are UTF-8, and begin no command.
fn add_line(lines: &mut Vec<u8>, numbers: &mut Numbers) -> Result<(), AllocError> {
    lines.push(b'~')?;
    for _ in 0..numbers.below(40) {
        if numbers.below(4) == 0 {
            lines.push(numbers.below(30).wrapping_add(0xc2))?;
            lines.push(numbers.below(64).wrapping_add(0x80))?;
        } else {
            let byte = numbers.below(128);
            lines.push(if byte == b'\n' { b' ' } else { byte })?;
        }
    }
    Ok(lines.push(b'\n')?)
}

/// This many of these lines, from a seed.
fn random_lines(alloc: Global, seed: u64, count: usize) -> Result<Vec<u8>, AllocError> {
    let mut numbers = Numbers { state: seed };
    let mut lines = Vec::new(alloc);
    for _ in 0..count {
        add_line(&mut lines, &mut numbers)?;
    }
    Ok(lines)
}

/// A text, repeated this many times.
fn repeated(alloc: Global, text: &str, count: usize) -> Result<Vec<u8>, AllocError> {
    let mut whole = Vec::new(alloc);
    for _ in 0..count {
        whole.extend_from_slice(text.as_bytes())?;
    }
    Ok(whole)
}

/// Whether a new session over these bytes has this result, and prints that.
fn prints(alloc: Global, lines: &[u8], came_to: Result<(), RunFault>, wanted: &[u8]) -> bool {
    let mut printed: Vec<u8> = Vec::new(alloc);
    let mut reader = lines;
    let is_so = run(alloc, &mut reader, &mut printed) == came_to;
    is_so && printed.as_slice() == wanted
}

/// Whether each of this many random lines is answered as no command, even if a line that is not UTF-8 ends the session
/// after them.
fn are_bad(alloc: Global, seed: u64, count: usize) -> bool {
    let Ok(mut lines) = random_lines(alloc, seed, count) else {
        return false;
    };
    let Ok(wanted) = repeated(alloc, "bad command\n", count) else {
        return false;
    };
    let are_all = prints(alloc, lines.as_slice(), Ok(()), wanted.as_slice());
    let Ok(()) = lines.extend_from_slice(b"~\xff\nsize a\n") else {
        return false;
    };
    let are_before = prints(
        alloc,
        lines.as_slice(),
        Err(RunFault::NotText),
        wanted.as_slice(),
    );
    are_all && are_before
}

#[test]
fn random_lines_are_no_commands(rt: HostRuntime) {
    let seeds: &[u64] = &[1, 2, 3];
    for seed in seeds {
        let are_so = are_bad(rt.alloc(), *seed, 3000);
        assert!(rt; are_so, "for {seed}");
    }
}

/// Whether the answer to a line begins in this way, goes on with a text, repeated this many times, and is followed by
/// another line.
fn is_answered(
    alloc: Global,
    (front, part, count): (&str, &str, usize),
    back: &str,
    wanted: &str,
) -> bool {
    let Ok(mut lines) = repeated(alloc, front, 1) else {
        return false;
    };
    let Ok(rest) = repeated(alloc, part, count) else {
        return false;
    };
    let Ok(()) = lines.extend_from_slice(rest.as_slice()) else {
        return false;
    };
    let Ok(()) = lines.extend_from_slice(back.as_bytes()) else {
        return false;
    };
    prints(alloc, lines.as_slice(), Ok(()), wanted.as_bytes())
}

#[test]
fn long_lines_are_answered(rt: HostRuntime) {
    let count: usize = 100_000;
    let lines: &[(&str, &str, &str, &str)] = &[
        ("size ", "a", "\nsize a\n", "miss 0\nmiss 0\n"),
        ("write a ", "a", "\nsize a\n", "miss 100000\n"),
        ("eval ", "7", "\nsize a\n", "miss not a number\nmiss 0\n"),
        ("eval ", "0", "7\nsize a\n", "miss 7\nmiss 0\n"),
        ("eval 1", "+1", "\nsize a\n", "miss 100001\nmiss 0\n"),
        ("evict ", "0", "\nsize a\n", "miss 0\n"),
        ("", "a", "\nsize a\n", "bad command\nmiss 0\n"),
    ];
    for (front, part, back, wanted) in lines {
        let is_so = is_answered(rt.alloc(), (*front, *part, count), *back, *wanted);
        assert!(rt; is_so, "for {front:?}");
    }
}

/// Lines that make each of this many files refer to the one before it, and the first to the last.
fn files_in_a_circle(alloc: Global, count: u32) -> Result<String, AllocError> {
    let mut lines = format!(in alloc; "write f0 eval f{count}\n")?;
    for before in 0..count {
        let place = before.saturating_add(1);
        let line = format!(in alloc; "write f{place} eval f{before}\n")?;
        lines.push_str(line.as_str())?;
    }
    Ok(lines)
}

/// Whether a script in a circle of files is too deep, and has a value once a number in the circle is near enough. The
/// value is then also stored for the scripts on the way, and stays when another file changes.
fn is_too_deep(alloc: Global) -> bool {
    let Ok(mut lines) = files_in_a_circle(alloc, 10_000) else {
        return false;
    };
    let rest = "eval eval f7\nwrite f9950 5\neval eval f7\neval eval f0\n\
        write f9 6\neval eval f7\nwrite f3 x\neval eval f7\neval eval f2\n";
    let Ok(()) = lines.push_str(rest) else {
        return false;
    };
    let wanted = "too deep\nmiss 5\nhit 5\nhit 5\nmiss not a number\nhit 5\n";
    prints(alloc, lines.as_str().as_bytes(), Ok(()), wanted.as_bytes())
}

#[test]
fn a_circle_of_ten_thousand_files_is_too_deep(rt: HostRuntime) {
    let is_so = is_too_deep(rt.alloc());
    assert!(rt; is_so);
}
