//! Rows of the program `calc`: lines in, lines out.

use calc_core::sessions::{run, start};
use std::alloc::{AllocError, Global};

/// Whether a new session prints this for these lines.
fn prints(alloc: Global, lines: &str, wanted: &str) -> bool {
    let mut printed: Vec<u8> = Vec::new(alloc);
    let is_ended = run(alloc, &mut lines.as_bytes(), &mut printed).is_ok();
    is_ended && printed.as_slice() == wanted.as_bytes()
}

/// Whether a script's value is cached until a file that it read changes.
pub(crate) fn a_value_is_kept_until_its_files_change(alloc: Global) -> bool {
    let lines = "write alpha.calc 2 + eval beta.calc\n\
        write beta.calc 2 + 3\n\
        write gamma.calc 8 + 3\n\
        eval eval alpha.calc\n\
        eval eval beta.calc\n\
        write gamma.calc 42\n\
        eval eval alpha.calc\n\
        write beta.calc 4 + eval gamma.calc\n\
        eval eval beta.calc\n\
        eval eval alpha.calc\n\
        write gamma.calc 80\n\
        eval eval alpha.calc\n";
    let wanted = "miss 7\nmiss 5\nhit 7\nmiss 46\nmiss 48\nmiss 86\n";
    prints(alloc, lines, wanted)
}

/// Lines that write `1` to the file `f0`, and to each of 127 others a script that calls the one before.
fn files_in_a_row(alloc: Global) -> Result<String, AllocError> {
    let mut lines = String::from_str(alloc, "write f0 1\n")?;
    for before in 0..127_u32 {
        let place = before + 1;
        let line = format!(in alloc; "write f{place} eval f{before}\n")?;
        lines.push_str(line.as_str())?;
    }
    Ok(lines)
}

/// These files, and then calls of scripts that are too high or just not.
fn scripts_too_high(alloc: Global) -> Result<String, AllocError> {
    let mut lines = files_in_a_row(alloc)?;
    lines.push_str(
        "eval eval f126\n\
        eval eval f127\n\
        eval eval f126\n\
        evict 0\n\
        eval eval f127\n\
        eval eval f125\n\
        write loop eval loop\n\
        eval eval loop\n",
    )?;
    Ok(lines)
}

/// Whether a script that is too high is reported whatever is cached, and its run is given up.
pub(crate) fn a_script_too_high_is_told_so(alloc: Global) -> bool {
    let wanted = "miss 1\ntoo deep\nhit 1\ntoo deep\nmiss 1\ntoo deep\n";
    match scripts_too_high(alloc) {
        Ok(lines) => prints(alloc, lines.as_str(), wanted),
        Err(_) => false,
    }
}

/// Whether a script without a number says why, and a line that is no command is reported.
pub(crate) fn a_script_without_a_number_says_why(alloc: Global) -> bool {
    let sessions: &[(&str, &str)] = &[
        (
            "eval 2147483647 + 1\neval 2147483647 + 1",
            "miss overflow\nhit overflow\n",
        ),
        ("eval 2147483648", "miss not a number\n"),
        ("eval -2147483648", "miss -2147483648\n"),
        ("eval 1 + ", "miss not a number\n"),
        ("eval +5", "miss not a number\n"),
        ("eval eval nowhere", "miss not a number\n"),
        ("eval ", "miss not a number\n"),
        (
            "write loop eval loop\neval x + eval loop",
            "miss not a number\n",
        ),
        ("eval", "bad command\n"),
        ("evict -1", "bad command\n"),
        ("help", "bad command\n"),
    ];
    for (lines, wanted) in sessions {
        if !prints(alloc, *lines, *wanted) {
            return false;
        }
    }
    true
}

/// Whether scripts that call each other in a circle, fail on the way, or never end are reported, and the last again
/// after it was mended.
pub(crate) fn scripts_that_misbehave_are_told_so(alloc: Global) -> bool {
    let lines = "write p 1 + eval q\n\
        write q eval p\n\
        eval eval p\n\
        write q 2\n\
        eval eval p\n\
        eval eval p\n\
        write q x + eval p\n\
        eval eval p\n\
        eval 2147483647 + 1 + eval q\n\
        write loop eval loop\n\
        eval 1 + eval loop\n";
    let wanted = "too deep\nmiss 3\nhit 3\nmiss not a number\nmiss overflow\ntoo deep\n";
    prints(alloc, lines, wanted)
}

/// Whether the program prints nothing for empty input, and ends well.
fn prints_nothing(alloc: Global) -> bool {
    let mut printed: Vec<u8> = Vec::new(alloc);
    let mut errors: Vec<u8> = Vec::new(alloc);
    let status = start(alloc, &[], &mut "".as_bytes(), &mut printed, &mut errors);
    status == 0 && printed.is_empty() && errors.is_empty()
}

/// Whether the bytes of files are counted, and empty input has no output.
pub(crate) fn the_bytes_of_files_are_counted(alloc: Global) -> bool {
    let lines =
        "write a hello\nsize a\nsize a\nwrite b x\nsize a\nwrite a hello!\nsize a\nsize none\n";
    let counted = prints(alloc, lines, "miss 5\nhit 5\nhit 5\nmiss 6\nmiss 0\n");
    let ended = prints(alloc, "write a hi\r\n\nsize a", "miss 2\n");
    counted && ended && prints_nothing(alloc)
}
