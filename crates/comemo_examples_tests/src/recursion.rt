//! Tests of the functions that call themselves and write.

use comemo::{Both, CacheData, Fault, ReadAndWrite, Recorder, Top, Track, memoized_mut_with};
use comemo_examples::all_equal::{AllEqual, compared};
use comemo_examples::ruler::{Ruler, rule};
use comemo_examples::totals::{NotesTotals, RunningTotal};
use comemo_examples::{Cells, Notebook};
use std::alloc::Global;
use std::test::Fail;

/// Whether a ruler of this height, drawn in a new notebook of this owner and room, has this result and leaves these
/// marks.
fn is_ruled(
    alloc: Global,
    cache: &mut CacheData<Ruler>,
    height: u64,
    (owner, room): (u64, usize),
    ended: Result<(), Fault>,
    marks: &[u64],
) -> bool {
    let mut book = Notebook::new(alloc, owner, room);
    let ruled = rule(alloc, cache, height, &mut book);
    ruled == ended && book.lines() == marks
}

#[test]
fn a_ruler_is_drawn_by_the_marks_below(rt: HostRuntime) {
    let alloc = rt.alloc();
    let mut cache: CacheData<Ruler> = CacheData::new(alloc);
    let rulers: &[(u64, u64, &[u64], usize)] = &[
        // The heights 0, 1 and 2 are stored, each once.
        (2, 7, &[1, 7, 2, 7, 1, 7], 3),
        // All but the mark of height 3 is drawn by hits.
        (3, 7, &[1, 7, 2, 7, 1, 7, 3, 7, 1, 7, 2, 7, 1, 7], 4),
        // Another owner's entries don't agree, except that of height 0, which asked for none.
        (2, 8, &[1, 8, 2, 8, 1, 8], 6),
    ];
    for (height, owner, marks, len) in rulers {
        let is_so = is_ruled(alloc, &mut cache, *height, (*owner, 100), Ok(()), *marks);
        assert!(rt; is_so, "for {height} of {owner}");
        assert_eq!(rt; cache.len(), *len);
    }
}

#[test]
fn a_ruler_that_has_no_room_is_begun(rt: HostRuntime) {
    let alloc = rt.alloc();
    let mut cache: CacheData<Ruler> = CacheData::new(alloc);
    let rulers: &[(Fault, &[u64])] = &[
        // The fourth line fails, in the run of height 2. The heights 0 and 1 were stored.
        (Fault::Memory, &[1, 7, 2]),
        // The second line fails, in the hit of height 1.
        (Fault::Write, &[1]),
    ];
    for (fault, marks) in rulers {
        let is_so = is_ruled(alloc, &mut cache, 2, (7, marks.len()), Err(*fault), *marks);
        assert!(rt; is_so, "for {marks:?}");
        assert_eq!(rt; cache.len(), 2);
    }
}

/// Whether the total of this many cells, noted in a new notebook of this room, has this result and leaves these totals.
fn is_totalled(
    alloc: Global,
    cache: &mut CacheData<RunningTotal>,
    (cells, count): (&Cells, u32),
    room: usize,
    ended: Result<u64, Fault>,
    totals: &[u64],
) -> bool {
    let mut book = Notebook::new(alloc, 7, room);
    let mut both = ReadAndWrite {
        first: cells.view(alloc),
        second: &mut book,
    };
    let mut own: CacheData<NotesTotals> = CacheData::new(alloc);
    let is_so = match memoized_mut_with(
        alloc,
        &mut own,
        cache,
        count,
        &mut both,
        &mut Top::new(),
        true,
    ) {
        Ok(reply) => ended == Ok(reply.output),
        Err(fault) => ended == Err(fault),
    };
    is_so && both.second.lines() == totals
}

#[test]
fn a_total_is_noted_by_the_totals_before(rt: HostRuntime) -> Result<(), Fail> {
    let alloc = rt.alloc();
    // The cells hold 1, 4, 7 and 10.
    let mut cells = Cells::new(alloc, 4)?;
    let mut cache: CacheData<RunningTotal> = CacheData::new(alloc);
    // The number that the last cell is set to, how many cells are totalled, the totals, and how many entries there are
    // then.
    let calls: &[(u64, u32, &[u64], usize)] = &[
        // The totals of 0, 1, 2 and 3 cells are stored, each once.
        (10, 3, &[1, 5, 12], 4),
        // All but the total of 4 cells is noted by a hit.
        (10, 4, &[1, 5, 12, 22], 5),
        (90, 4, &[1, 5, 12, 102], 6),
        // The last cell was not asked.
        (91, 3, &[1, 5, 12], 6),
        (10, 4, &[1, 5, 12, 22], 6),
    ];
    for (last, count, totals, len) in calls {
        cells.set(3, *last);
        let total = totals[totals.len() - 1];
        let is_so = is_totalled(alloc, &mut cache, (&cells, *count), 9, Ok(total), *totals);
        assert!(rt; is_so, "for {count} and {last}");
        assert_eq!(rt; cache.len(), *len);
    }
    Ok(())
}

#[test]
fn totals_that_have_no_room_are_begun(rt: HostRuntime) -> Result<(), Fail> {
    let alloc = rt.alloc();
    let cells = Cells::new(alloc, 4)?;
    let mut cache: CacheData<RunningTotal> = CacheData::new(alloc);
    let calls: &[(Fault, &[u64])] = &[
        // The third total fails, in the run of 3 cells. Those of fewer were stored.
        (Fault::Memory, &[1, 5]),
        // The second fails, in the hit of 2 cells.
        (Fault::Write, &[1]),
    ];
    for (fault, totals) in calls {
        let is_so = is_totalled(
            alloc,
            &mut cache,
            (&cells, 3),
            totals.len(),
            Err(*fault),
            *totals,
        );
        assert!(rt; is_so, "for {totals:?}");
        assert_eq!(rt; cache.len(), 3);
    }
    Ok(())
}

/// Whether a comparison of the first cells of two values returns this.
fn is_compared(
    alloc: Global,
    cache: &mut CacheData<AllEqual>,
    (one, other): (&Cells, &Cells),
    count: u32,
    equal: bool,
) -> bool {
    let both = Both {
        first: one.view(alloc),
        second: other.view(alloc),
    };
    let mut recorder = Recorder::new(alloc, both.view(alloc));
    compared(cache, count, &mut recorder) == Ok(equal)
}

#[test]
fn cells_are_compared_by_those_before(rt: HostRuntime) -> Result<(), Fail> {
    let alloc = rt.alloc();
    let one = Cells::new(alloc, 4)?;
    let mut other = Cells::new(alloc, 4)?;
    let mut cache: CacheData<AllEqual> = CacheData::new(alloc);
    // The place that is set to 0, how many cells are compared, the result, and how many entries there are then.
    let calls: &[(usize, u32, bool, usize)] = &[
        (9, 3, true, 3),
        // All but the last comparison is a hit.
        (3, 4, false, 4),
        (3, 3, true, 4),
        // Those up to the place are new, except the first.
        (1, 3, false, 6),
    ];
    for (place, count, equal, len) in calls {
        other.set(*place, 0);
        let is_so = is_compared(alloc, &mut cache, (&one, &other), *count, *equal);
        assert!(rt; is_so, "for {count} cells, with place {place} set");
        assert_eq!(rt; cache.len(), *len);
    }
    Ok(())
}
