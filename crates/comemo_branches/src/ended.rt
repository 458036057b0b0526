//! One branch of a run, and the joining of branches that ended.
ghost use Rattle.std.specs.Prelude.{◌≡◌, ◌⊎◌, ◌<◌, ℕ, ◌++◌, ◌∷◌, [], length, vec_len, slice_index_or, IfOk, IfErr, OnOk};
ghost use Rattle.std.specs.List.{AllZip};
ghost use Rattle.comemo.specs.Recursive.{TellsOwn};
ghost use Rattle.comemo_branches.specs.Branches.{BranchRan, BranchTold, FirstFails, GaveTo, GoesOn, IsEnded, KeepsBranches, MayEnd, NotJoined, TookEach};

use comemo::{Branch, Fault};
use std::alloc::AllocError;

/// Runs a branch. Returns the closure's output, and the recorder that it asked through.
///
/// Fails if the closure does.
pub fn run_branch<P: Branch + Drop, J, X: Drop, F: Fn(&mut P, &J) -> Result<X, Fault>>(
    of: &P,
    item: &J,
    f: &F,
) -> Result<(X, P), Fault>
    requires { F.IsAlwaysCallable f.now }
    ensures { MayEnd (BranchRan F.Fn f.now P.seen (P.seen of.now) item.now) result }
{
    let mut branch = of.fork();
    let output = f(&mut branch, item)?;
    Ok((output, branch))
}

/// Joins the branches of these items, which ended so, in their order. Returns their outputs. Calls no closure.
///
/// Fails with the first fault, `Incomplete` as `Memory`, or if out of memory. The branches after that are dropped.
pub fn join_each<P: Branch + Drop, J, X: Drop, F: Fn(&mut P, &J) -> Result<X, Fault>>(
    of: &mut P,
    items: &[J],
    f: &F,
    ended: Vec<Result<(X, P), Fault>>,
) -> Result<Vec<X>, Fault>
    requires len { vec_len ended ≡ length items.now }
    requires ran { (i : ℕ) (d : _) (e : _) → i < length items.now
        → MayEnd (BranchRan F.Fn f.now P.seen (P.seen of.now) (slice_index_or items.now i d))
        (slice_index_or ended.items i e) }
    requires keeps { KeepsBranches F.Fn f.now P.seen (P.seen of.now) }
    ensures told { TellsOwn P.fits (P.seen of.old) (P.seen of.new) result (λ outputs m. AllZip
        (BranchTold F.Fn f.now P.seen (P.seen of.old) P.fits m) items.now outputs.items) }
    ensures took { IfOk result (λ outputs. TookEach F.Fn f.now P.seen (P.seen of.old) P.took
        (P.seen of.old) (P.seen of.new) items.now outputs.items) }
    ensures fault { IfErr result (λ fault. (fault ≡ Fault.Memory)
        ⊎ FirstFails F.Fn f.now P.seen (P.seen of.old) items.now fault) }
    ensures goes_on { IfErr result (GoesOn P.fits (P.seen of.old) (P.seen of.new)) }
{
    // The contract alone needs these.
    let _ = items;
    let _ = f;
    let mut outputs = Vec::new(of.allocator());
    for end in ended {
        let output = join_one(of, end)?;
        keep(&mut outputs, output)?;
    }
    Ok(outputs)
}

/// Appends an output. Fails if out of memory.
pub fn keep<X: Drop>(outputs: &mut Vec<X>, output: X) -> Result<(), AllocError>
    ensures { OnOk result (outputs.new.items ≡ outputs.old.items ++ output ∷ []) }
{
    Ok(outputs.push(output)?)
}

/// Joins a branch that ended, and returns its output.
///
/// Fails with the branch's fault, `Incomplete` as `Memory`, or if out of memory.
pub fn join_one<P: Branch + Drop, X: Drop>(
    of: &mut P,
    end: Result<(X, P), Fault>,
) -> Result<X, Fault>
    requires { IsEnded P.seen (P.seen of.now) end }
    ensures told { TellsOwn P.fits (P.seen of.old) (P.seen of.new) result
        (λ output m. GaveTo P.seen (λ recording. P.fits recording m) end output) }
    ensures took { IfOk result (GaveTo P.seen
        (λ recording. P.took (P.seen of.old) (P.seen of.new) recording.pairs) end) }
    ensures fault { IfErr result (NotJoined (P.seen of.old) (P.seen of.new) end) }
{
    match end {
        Ok((output, branch)) => {
            of.join(branch)?;
            Ok(output)
        }
        Err(Fault::Incomplete) => Err(Fault::Memory),
        Err(fault) => Err(fault),
    }
}
