//! The rows by their numbers.
ghost use Rattle.std.specs.Prelude.{IfSome, Contains};
ghost use Rattle.bench_rows.specs.Started.{row_numbers};

use crate::ages::{hits_stay_young, touches_go_by_answers, touches_stay_young};
use crate::chains::chains_share_what_is_kept;
use crate::exact::{keys_of_one_hash_are_kept_apart, what_is_said_to_be_kept_is_found};
use crate::hashes::{a_kept_hash_follows_its_item, two_pieces_hash_as_the_whole};
use crate::late::late_runs;
use crate::limits::a_limit_holds_for_a_hit;
use crate::numbers::numbers_are_kept;
use crate::orders::runs_in_another_order;
use crate::outcome::Outcome;
use crate::places::places_are_kept;
use crate::recordings::recordings_absorb_and_hold;
use crate::refusals::{a_refused_write_is_done_again, a_run_that_lost_something_is_incomplete};
use crate::sessions::{
    a_script_too_high_is_told_so, a_script_without_a_number_says_why,
    a_value_is_kept_until_its_files_change, scripts_that_misbehave_are_told_so,
    the_bytes_of_files_are_counted,
};
use crate::settled::no_run_is_lost;
use crate::sharing::{a_shared_cache_stores_one_of_two, branches_and_evictions};
use crate::streams::what_was_answered_was_written;
use crate::texts::{functions_are_kept, two_kinds_of_questions};
use crate::trees::{
    a_call_that_was_taken_out_stays_seen, a_path_follows_the_stored_ones,
    an_empty_path_is_found_unasked, calls_are_asked_in_order, paths_that_part,
    what_is_kept_is_found_alone, what_is_stored_stays,
};
use crate::views::a_view_asks_once;
use crate::workers::{
    two_runs_that_ask_in_turned_order, two_runs_that_ask_other_questions, workers_beside_evictions,
};
use crate::writes::hits_write_again;
use std::alloc::Global;
use std::rt::Clock;
use std::sync::Wait;
use std::thread::Threads;

/// Runs each row, and returns the first that failed. Running out of memory is a failure.
///
/// The longest row starts seventeen threads, of which sixteen make two thousand calls each.
pub fn run_rows<R: Threads + Wait + Clock + Sync>(rt: &R, alloc: Global) -> Outcome
    ensures { IfSome result (Contains row_numbers) }
{
    let mut rows = Outcome::new();
    rows.row("1", Ok(paths_that_part(alloc)));
    rows.row("2", Ok(a_path_follows_the_stored_ones(alloc)));
    rows.row("3", Ok(what_is_kept_is_found_alone(alloc)));
    rows.row("4", Ok(what_is_stored_stays(alloc)));
    rows.row("5", Ok(an_empty_path_is_found_unasked(alloc)));
    rows.row("6", Ok(calls_are_asked_in_order(alloc)));
    rows.row("7", Ok(a_call_that_was_taken_out_stays_seen(alloc)));
    rows.row("8", Ok(two_kinds_of_questions(alloc)));
    rows.row("9", Ok(a_value_is_kept_until_its_files_change(alloc)));
    rows.row("10", Ok(a_script_too_high_is_told_so(alloc)));
    rows.row("11", Ok(a_script_without_a_number_says_why(alloc)));
    rows.row("12", hits_stay_young(alloc));
    rows.row("13", hits_write_again(alloc));
    rows.row("14", places_are_kept(alloc, 1000));
    rows.row("15", Ok(a_shared_cache_stores_one_of_two(rt, alloc)));
    rows.row("16", Ok(runs_in_another_order(alloc)));
    rows.row("17", Ok(numbers_are_kept(alloc)));
    rows.row("18", Ok(chains_share_what_is_kept(alloc)));
    rows.row("19", recordings_absorb_and_hold(alloc));
    rows.row("21", touches_stay_young(alloc));
    rows.row("22", Ok(two_pieces_hash_as_the_whole(alloc)));
    rows.row("23", Ok(a_kept_hash_follows_its_item(alloc)));
    rows.row("24", Ok(the_bytes_of_files_are_counted(alloc)));
    rows.row("25", Ok(functions_are_kept(alloc)));
    rows.row("R8", Ok(branches_and_evictions(rt, alloc)));
    rows.row("R10", Ok(no_run_is_lost(alloc)));
    rows.row("R11", Ok(a_view_asks_once(alloc)));
    rows.row("R12", what_was_answered_was_written(alloc));
    rows.row("R13", Ok(two_runs_that_ask_other_questions(rt, alloc)));
    rows.row("R13", Ok(touches_go_by_answers(alloc)));
    rows.row("R13", Ok(scripts_that_misbehave_are_told_so(alloc)));
    rows.row("R13", Ok(a_limit_holds_for_a_hit(alloc)));
    rows.row("R13", Ok(workers_beside_evictions(rt, alloc)));
    rows.row("R14", Ok(keys_of_one_hash_are_kept_apart(alloc)));
    rows.row("R14", Ok(what_is_said_to_be_kept_is_found(alloc)));
    rows.row("R14", Ok(two_runs_that_ask_in_turned_order(rt, alloc)));
    rows.row("R15", Ok(late_runs(rt, alloc)));
    rows
}

/// Runs the rows that go on when they run out of memory, and returns the first that was wrong.
///
/// These are 12, 13, 14 with twenty places, 19, 20, 21 and two of R12. After each failed allocation they compare
/// results, entries, ages, writes and recordings with what they should be.
pub fn run_scarce_rows(alloc: Global) -> Outcome {
    let mut rows = Outcome::new();
    rows.scarce_row("12", hits_stay_young(alloc));
    rows.scarce_row("13", hits_write_again(alloc));
    rows.scarce_row("14", places_are_kept(alloc, 20));
    rows.scarce_row("19", recordings_absorb_and_hold(alloc));
    rows.scarce_row("21", touches_stay_young(alloc));
    rows.scarce_row("20", a_run_that_lost_something_is_incomplete(alloc));
    rows.scarce_row("R12", a_refused_write_is_done_again(alloc));
    rows.scarce_row("R12", what_was_answered_was_written(alloc));
    rows
}
