//! The row of a script under changing limits.

use calc_core::evaluation::{Eval, EvalFault, evaluate};
use calc_core::files::Files;
use calc_core::scripts::Outcome;
use comemo::{CacheData, How, Reply, Top, Track};
use std::alloc::Global;

/// Evaluates the script `1` under a limit, without files.
fn one_under(
    alloc: Global,
    cache: &mut CacheData<Eval>,
    limit: u64,
) -> Result<Reply<Outcome>, EvalFault> {
    let files = Files::new(alloc);
    evaluate(
        alloc,
        cache,
        &files.view(alloc),
        "1",
        limit,
        &mut Top::new(),
    )
}

/// Whether the value is 1, and came about like this.
fn is_one(came_to: Result<Reply<Outcome>, EvalFault>, how: How) -> bool {
    let Ok(reply) = came_to else {
        return false;
    };
    reply.output.value == Ok(1) && reply.how == how
}

/// Whether a script that is too deep for a call's limit is reported even if it is cached, and stays cached.
pub(crate) fn a_limit_holds_for_a_hit(alloc: Global) -> bool {
    let mut cache: CacheData<Eval> = CacheData::new(alloc);
    let first = is_one(one_under(alloc, &mut cache, 1), How::Stored);
    let is_too_deep = matches!(one_under(alloc, &mut cache, 0), Err(EvalFault::TooDeep));
    let third = is_one(one_under(alloc, &mut cache, 1), How::Hit);
    first && is_too_deep && third
}
