//! A list of items, each done by a branch: in threads, or in turn.
ghost use Rattle.std.specs.Prelude.{◌≡◌, ◌⊎◌, ◌<◌, ℕ, length, IfOk, IfErr, slice_index_or};
ghost use Rattle.std.specs.List.{AllZip};
ghost use Rattle.comemo.specs.Recursive.{TellsOwn};
ghost use Rattle.comemo_branches.specs.Branches.{BranchRan, BranchTold, FirstFails, GoesOn, KeepsBranches, MayEnd, TookEach};

use crate::ended::{join_each, join_one, keep, run_branch};
use comemo::{Branch, Fault};
use std::marker::{Send, Sync};
use std::thread::{Threads, for_each_mut};

/// Calls a closure with each item, in at most this many threads. With one or none, all calls are in the thread of the
/// run. Each call is a branch with a recorder of its own.
///
/// Joins the branches in the order of the items, and returns their outputs in that order.
///
/// Fails with the first fault in that order, `Incomplete` as `Memory`, or if out of memory. The run then records nothing of
/// that branch and of those after it, and it may go on: what it returns is right if the branches that it joined tell it.
/// Only if memory ran out while a branch was joined, the recording is incomplete.
pub fn map_in_threads<
    R: Threads + Sync,
    P: Branch + Send + Sync + Drop,
    J: Sync,
    X: Send + Drop,
    F: Fn(&mut P, &J) -> Result<X, Fault> + Sync,
>(rt: &R, threads: usize, of: &mut P, items: &[J], f: &F) -> Result<Vec<X>, Fault>
    requires callable { F.IsAlwaysCallable f.now }
    requires keeps { KeepsBranches F.Fn f.now P.seen (P.seen of.now) }
    ensures told { TellsOwn P.fits (P.seen of.old) (P.seen of.new) result (λ outputs m. AllZip
        (BranchTold F.Fn f.now P.seen (P.seen of.old) P.fits m) items.now outputs.items) }
    ensures took { IfOk result (λ outputs. TookEach F.Fn f.now P.seen (P.seen of.old) P.took
        (P.seen of.old) (P.seen of.new) items.now outputs.items) }
    ensures fault { IfErr result (λ fault. (fault ≡ Fault.Memory)
        ⊎ FirstFails F.Fn f.now P.seen (P.seen of.old) items.now fault) }
    ensures goes_on { IfErr result (GoesOn P.fits (P.seen of.old) (P.seen of.new)) }
{
    let mut ended: Vec<Result<(X, P), Fault>> = Vec::new(of.allocator());
    ended.resize_with(items.len(), || Err(Fault::Memory))?;
    run_branches(rt, threads.max(1), of, items, f, ended.as_mut_slice());
    join_each(of, items, f, ended)
}

/// As `map_in_threads`, in the thread of the run, for functions that have no right to start threads. After a fault
/// it calls the closure no more.
pub fn map_in_turn<P: Branch + Drop, J, X: Drop, F: Fn(&mut P, &J) -> Result<X, Fault>>(
    of: &mut P,
    items: &[J],
    f: &F,
) -> Result<Vec<X>, Fault>
    requires callable { F.IsAlwaysCallable f.now }
    requires keeps { KeepsBranches F.Fn f.now P.seen (P.seen of.now) }
    ensures told { TellsOwn P.fits (P.seen of.old) (P.seen of.new) result (λ outputs m. AllZip
        (BranchTold F.Fn f.now P.seen (P.seen of.old) P.fits m) items.now outputs.items) }
    ensures took { IfOk result (λ outputs. TookEach F.Fn f.now P.seen (P.seen of.old) P.took
        (P.seen of.old) (P.seen of.new) items.now outputs.items) }
    ensures fault { IfErr result (λ fault. (fault ≡ Fault.Memory)
        ⊎ FirstFails F.Fn f.now P.seen (P.seen of.old) items.now fault) }
    ensures goes_on { IfErr result (GoesOn P.fits (P.seen of.old) (P.seen of.new)) }
{
    let mut outputs = Vec::new(of.allocator());
    for item in items {
        let ended = run_branch(of, item, f);
        let output = join_one(of, ended)?;
        keep(&mut outputs, output)?;
    }
    Ok(outputs)
}

/// Runs a branch for each item, and puts what became of it at the item's place.
fn run_branches<
    R: Threads + Sync,
    P: Branch + Send + Sync + Drop,
    J: Sync,
    X: Send + Drop,
    F: Fn(&mut P, &J) -> Result<X, Fault> + Sync,
>(rt: &R, threads: usize, of: &P, items: &[J], f: &F, ended: &mut [Result<(X, P), Fault>])
    requires threads { 0 < threads }
    requires callable { F.IsAlwaysCallable f.now }
    requires len { length ended.old ≡ length items.now }
    ensures len { length ended.new ≡ length ended.old }
    ensures ran { (i : ℕ) (d : _) (e : _) → i < length items.now
        → MayEnd (BranchRan F.Fn f.now P.seen (P.seen of.now) (slice_index_or items.now i d))
        (slice_index_or ended.new i e) }
{
    for_each_mut(
        rt,
        ended,
        threads,
        &|i, end|
            requires { (i < length items.now) × F.IsAlwaysCallable f.now }
            ensures { (d : _) → MayEnd (BranchRan F.Fn f.entry.now P.seen (P.seen of.entry.now)
                (slice_index_or items.entry.now i d)) end.new }
        { *end = run_branch(of, &items[i], f) },
    );
}
