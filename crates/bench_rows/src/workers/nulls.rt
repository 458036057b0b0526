//! Evictions of a shared cache.
ghost use Rattle.std.specs.Prelude.{◌≡◌};
ghost use Rattle.std.proofs.Common.{rules};

use comemo::internal::Evict;
use comemo::{Fault, Function, Hold, How, Recorder, Run, memoized};
use std::alloc::Global;

/// Returns 0.
pub struct Null;

impl Function for Null {
    type Key = ();

    type Call = ();

    type Answer = ();

    type Out = u64;

    ghost means = { λ _ _ out. out ≡ 0 };

    ghost laws = { Prim.search rules };
}

impl Run<(), ()> for Null {
    fn run(_: &(), _: &mut Recorder<'_, ()>, _: &mut ()) -> Result<u64, Fault> {
        Ok(0)
    }
}

/// Whether an eviction drops entries as old as its bound, and a hit refreshes its entry, in a cache with one holder and
/// one evictor.
pub fn evictions_reach_a_cache<H: Hold<Null>, E: Evict>(
    alloc: Global,
    cache: &mut H,
    evictor: &E,
) -> Result<bool, Fault> {
    // How many evictions with bound 1 precede a call, and the call's result.
    let calls: &[(u32, How)] = &[
        (0, How::Stored),
        (1, How::Hit),
        (1, How::Hit),
        (2, How::Stored),
    ];
    for (times, how) in calls {
        for _ in 0..*times {
            evictor.evict(1);
        }
        let nothing = ();
        let reply = memoized(alloc, cache, (), &nothing)?;
        if reply.output != 0 || reply.how != *how {
            return Ok(false);
        }
    }
    Ok(true)
}
