//! Two branches of different kinds, each done by a closure of its own.
ghost use Rattle.std.specs.Prelude.{◌≡◌, ◌⊎◌, IfOk, IfErr};
ghost use Rattle.comemo.specs.Recursive.{TellsOwn};
ghost use Rattle.comemo_branches.specs.Branches.{GoesOn, KeepsPart, MayEnd, MayFail, MayGive, PartRan, PartTold, TookOne};

use crate::ended::join_one;
use comemo::{Branch, Fault};
use std::marker::{Send, Sync};
use std::thread::{Threads, join};

/// Does two branches. With two threads or more, the first is in a thread of its own, and the second in that of the run;
/// else both are in that of the run.
///
/// Joins the first and then the second, and returns their outputs.
///
/// Fails with the first one's fault, or else with the second one's, `Incomplete` as `Memory`, or if out of memory. The run
/// may then go on, as after `map_in_threads`.
pub fn join_in_threads<
    R: Threads,
    P: Branch + Send + Sync + Drop,
    X: Send + Drop,
    Y: Drop,
    F: FnOnce(&mut P) -> Result<X, Fault> + Send,
    G: FnOnce(&mut P) -> Result<Y, Fault>,
>(rt: &R, threads: usize, of: &mut P, first: F, second: G) -> Result<(X, Y), Fault>
    requires first { F.IsAlwaysCallable first }
    requires second { G.IsAlwaysCallable second }
    requires keeps_first { KeepsPart F.FnOnce first P.seen (P.seen of.now) }
    requires keeps_second { KeepsPart G.FnOnce second P.seen (P.seen of.now) }
    ensures told { TellsOwn P.fits (P.seen of.old) (P.seen of.new) result (λ outputs m.
        PartTold F.FnOnce first P.seen (P.seen of.old) P.fits m outputs.0
        × PartTold G.FnOnce second P.seen (P.seen of.old) P.fits m outputs.1) }
    ensures took { IfOk result (λ outputs. (mid : _)
        × TookOne P.seen P.took (PartRan F.FnOnce first P.seen (P.seen of.old))
        (P.seen of.old) mid outputs.0
        × TookOne P.seen P.took (PartRan G.FnOnce second P.seen (P.seen of.old))
        mid (P.seen of.new) outputs.1) }
    ensures fault { IfErr result (λ fault. (fault ≡ Fault.Memory)
        ⊎ (MayFail (PartRan F.FnOnce first P.seen (P.seen of.old)) fault
        ⊎ (MayGive (PartRan F.FnOnce first P.seen (P.seen of.old))
        × MayFail (PartRan G.FnOnce second P.seen (P.seen of.old)) fault))) }
    ensures goes_on { IfErr result (GoesOn P.fits (P.seen of.old) (P.seen of.new)) }
{
    let (one, other) = run_parts(rt, threads, of, first, second);
    let left = join_one(of, one)?;
    let right = join_one(of, other)?;
    Ok((left, right))
}

/// Runs both branches. Returns how they ended.
fn run_parts<
    R: Threads,
    P: Branch + Send + Sync + Drop,
    X: Send + Drop,
    Y: Drop,
    F: FnOnce(&mut P) -> Result<X, Fault> + Send,
    G: FnOnce(&mut P) -> Result<Y, Fault>,
>(
    rt: &R,
    threads: usize,
    of: &P,
    first: F,
    second: G,
) -> (Result<(X, P), Fault>, Result<(Y, P), Fault>)
    requires first { F.IsAlwaysCallable first }
    requires second { G.IsAlwaysCallable second }
    ensures first { MayEnd (PartRan F.FnOnce first P.seen (P.seen of.now)) result.0 }
    ensures second { MayEnd (PartRan G.FnOnce second P.seen (P.seen of.now)) result.1 }
{
    if threads < 2 {
        return (run_part(of, first), run_part(of, second));
    }
    join(
        rt,
        move ||
            requires { F.IsAlwaysCallable first }
        { run_part(of, first) },
        move ||
            requires { G.IsAlwaysCallable second }
        { run_part(of, second) },
    )
}

/// Runs one of the two. Returns the closure's output, and the recorder that it asked through.
///
/// Fails if the closure does.
fn run_part<P: Branch + Drop, X: Drop, F: FnOnce(&mut P) -> Result<X, Fault>>(
    of: &P,
    f: F,
) -> Result<(X, P), Fault>
    requires { F.IsAlwaysCallable f }
    ensures { MayEnd (PartRan F.FnOnce f P.seen (P.seen of.now)) result }
{
    let mut branch = of.fork();
    let output = f(&mut branch)?;
    Ok((output, branch))
}
