//! Functions of a spreadsheet: what they return, and which calls are hits.

use Step::{Plain, Ranged, Row, Set, Sum, Total};
use comemo::{CacheData, How, Recorder, Track, memoized};
use comemo_sheet::plain::{NoNumber, PlainNumber};
use comemo_sheet::range::{Kept as Ranges, Range, range_total, ranged};
use comemo_sheet::row::RowTotal;
use comemo_sheet::sheet::{Content, Sheet};
use std::alloc::{AllocError, Global};

/// Texts of these names.
fn names(alloc: Global, all: &[&str]) -> Result<Vec<String>, AllocError> {
    let mut names = Vec::new(alloc);
    for name in all {
        names.push(String::from_str(alloc, name)?)?;
    }
    Ok(names)
}

/// Puts a number into the cell of a name. Returns whether that worked.
fn is_set(alloc: Global, sheet: &mut Sheet, name: &str, number: i64) -> bool {
    let Ok(name) = String::from_str(alloc, name) else {
        return false;
    };
    sheet.set(name, Content::Number(number)).is_ok()
}

/// Puts the sum of cells into the cell of a name. Returns whether that worked.
fn is_sum(alloc: Global, sheet: &mut Sheet, name: &str, of: &[&str]) -> bool {
    let Ok(of) = names(alloc, of) else {
        return false;
    };
    let Ok(name) = String::from_str(alloc, name) else {
        return false;
    };
    sheet.set(name, Content::Sum(of)).is_ok()
}

/// Fills a new sheet: A1 = 1, A2 = 2, B1 = A1 + A2, C1 = B1 + A1. Returns whether that worked.
fn is_filled(alloc: Global, sheet: &mut Sheet) -> bool {
    is_set(alloc, sheet, "A1", 1)
        && is_set(alloc, sheet, "A2", 2)
        && is_sum(alloc, sheet, "B1", &["A1", "A2"])
        && is_sum(alloc, sheet, "C1", &["B1", "A1"])
}

/// Whether a call returns the plain number of a cell, or why it has none, and ends as `how`.
fn is_plain(
    alloc: Global,
    cache: &mut CacheData<PlainNumber>,
    sheet: &Sheet,
    name: &str,
    number: Result<i64, NoNumber>,
    how: How,
) -> bool {
    let Ok(key) = String::from_str(alloc, name) else {
        return false;
    };
    match memoized(alloc, cache, key, sheet) {
        Ok(reply) => reply.output == number && reply.how == how,
        Err(_) => false,
    }
}

/// Whether a call returns this total of a row, of which A3 is empty and B1 is no number, and ends as `how`.
fn is_total(
    alloc: Global,
    cache: &mut CacheData<RowTotal>,
    sheet: &Sheet,
    total: i64,
    how: How,
) -> bool {
    let Ok(row) = names(alloc, &["A1", "A2", "A3", "B1"]) else {
        return false;
    };
    match memoized(alloc, cache, row, sheet) {
        Ok(reply) => reply.output == total && reply.how == how,
        Err(_) => false,
    }
}

/// Whether this is the value of the cell of a name, by the totals of ranges up to a depth of 4.
fn is_ranged(alloc: Global, kept: &mut Ranges, sheet: &Sheet, name: &str, value: i64) -> bool {
    let Ok(name) = String::from_str(alloc, name) else {
        return false;
    };
    let mut recorder = Recorder::new(alloc, sheet.view(alloc));
    match ranged(kept, name, 4, &mut recorder) {
        Ok(now) => now == Some(value),
        Err(_) => false,
    }
}

/// Whether this is the total of the range of these cells, up to a depth of 4.
fn is_range_total(
    alloc: Global,
    kept: &mut Ranges,
    sheet: &Sheet,
    cells: &[&str],
    total: Option<i64>,
) -> bool {
    let Ok(names) = names(alloc, cells) else {
        return false;
    };
    let mut recorder = Recorder::new(alloc, sheet.view(alloc));
    match range_total(kept, Range { names, limit: 4 }, &mut recorder) {
        Ok(now) => now == total,
        Err(_) => false,
    }
}

/// A sheet, and the caches of its functions.
#[derive(Drop)]
struct Desk {
    sheet: Sheet,
    plain: CacheData<PlainNumber>,
    rows: CacheData<RowTotal>,
    ranges: Ranges,
}

impl Desk {
    /// An empty sheet, with empty caches.
    fn new(alloc: Global) -> Desk {
        Desk {
            sheet: Sheet::new(alloc),
            plain: CacheData::new(alloc),
            rows: CacheData::new(alloc),
            ranges: (CacheData::new(alloc), CacheData::new(alloc)),
        }
    }
}

/// A change of the sheet, or a call with its wanted output and how it should end.
#[derive(Clone, Copy)]
enum Step<'a> {
    /// Puts a number into the cell of a name.
    Set(&'a str, i64),
    /// Puts the sum of cells into the cell of a name.
    Sum(&'a str, &'a [&'a str]),
    /// The plain number of the cell of a name.
    Plain(&'a str, Result<i64, NoNumber>, How),
    /// The total of the row.
    Row(i64, How),
    /// The value of the cell of a name by ranges, and how many values and totals are kept then.
    Ranged(&'a str, i64, usize, usize),
    /// The total of the range of these cells.
    Total(&'a [&'a str], Option<i64>),
}

/// Whether a step has the wanted result.
fn is_done(alloc: Global, desk: &mut Desk, step: Step<'_>) -> bool {
    let sheet = &mut desk.sheet;
    match step {
        Set(name, number) => is_set(alloc, sheet, name, number),
        Sum(name, of) => is_sum(alloc, sheet, name, of),
        Plain(name, number, how) => is_plain(alloc, &mut desk.plain, sheet, name, number, how),
        Row(total, how) => is_total(alloc, &mut desk.rows, sheet, total, how),
        Ranged(name, value, cells, ranges) => {
            is_ranged(alloc, &mut desk.ranges, sheet, name, value)
                && desk.ranges.0.len() == cells
                && desk.ranges.1.len() == ranges
        }
        Total(cells, total) => is_range_total(alloc, &mut desk.ranges, sheet, cells, total),
    }
}

/// The index of the first step with another result; 0 also if the sheet could not be filled first.
fn first_undone_on(alloc: Global, desk: &mut Desk, steps: &[Step<'_>]) -> Option<usize> {
    if !is_filled(alloc, &mut desk.sheet) {
        return Some(0);
    }
    for (place, step) in steps.iter().enumerate() {
        if !is_done(alloc, desk, *step) {
            return Some(place);
        }
    }
    None
}

/// The same on a new sheet.
fn first_undone(alloc: Global, steps: &[Step<'_>]) -> Option<usize> {
    let mut desk = Desk::new(alloc);
    first_undone_on(alloc, &mut desk, steps)
}

#[test]
fn a_reason_is_kept_as_a_number_is(rt: HostRuntime) {
    let steps: &[Step<'_>] = &[
        Plain("A1", Ok(1), How::Stored),
        Plain("B1", Err(NoNumber::Sum), How::Stored),
        Plain("A3", Err(NoNumber::Nothing), How::Stored),
        Plain("B1", Err(NoNumber::Sum), How::Hit),
        Set("A3", 5),
        Plain("A3", Ok(5), How::Stored),
        // the cell of A1 is as it was, and then again
        Plain("A1", Ok(1), How::Hit),
        Set("A1", -7),
        Plain("A1", Ok(-7), How::Stored),
        Set("A1", 1),
        Plain("A1", Ok(1), How::Hit),
    ];
    assert_eq!(rt; first_undone(rt.alloc(), steps), None);
}

#[test]
fn a_row_is_added_up(rt: HostRuntime) {
    let steps: &[Step<'_>] = &[
        Row(3, How::Stored),
        Row(3, How::Hit),
        Set("A1", 10),
        Row(12, How::Stored),
    ];
    assert_eq!(rt; first_undone(rt.alloc(), steps), None);
}

#[test]
fn two_functions_call_one_another(rt: HostRuntime) {
    let steps: &[Step<'_>] = &[
        Sum("B2", &["A1", "A2"]),
        // C1 at 4, B1 and A1 at 3, A1 and A2 at 2; their ranges at 3 and 2
        Ranged("C1", 4, 5, 2),
        // B1, A1 and A2 at 4 and 3; the range at 3
        Ranged("B1", 3, 7, 3),
        // B2 refers to the same range, which is kept
        Ranged("B2", 3, 8, 3),
        Ranged("C1", 4, 8, 3),
        Set("A1", 10),
        // C1 at 4, B1 and A1 at 3, A1 at 2; their ranges at 3 and 2
        Ranged("C1", 22, 12, 5),
    ];
    assert_eq!(rt; first_undone(rt.alloc(), steps), None);
}

#[test]
fn a_range_in_a_circle_has_no_total(rt: HostRuntime) {
    let steps: &[Step<'_>] = &[
        Sum("A1", &["C1"]),
        Total(&["A1", "A2"], None),
        Total(&["A2", "A3"], Some(2)),
    ];
    assert_eq!(rt; first_undone(rt.alloc(), steps), None);
}
