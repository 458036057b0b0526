//! A wave: the turns of keys of which none waits for another, dealt out to threads.
ghost use Rattle.std.specs.Prelude.{◌≡◌, ◌<◌, length, IfOk};
ghost use Rattle.std.specs.List.{All};

use crate::takes::Takes;
use comemo::{Provider, Query, Round, Track};
use std::alloc::{AllocError, Global};
use std::marker::{Send, Sync};
use std::thread::{Threads, for_each_mut};

/// The turns that a thread takes, and its provider.
#[derive(Drop)]
struct Lane<'p, 'a, T: Track, Q: Query<T>, P: Provider<T, Q>> {
    provider: &'p mut P,
    takes: Takes<'a, T, Q, P>,
}

/// Takes the turns of a wave, in as many threads as there are providers and turns; one turn alone is taken in this
/// thread. A thread whose turn fails takes no more.
///
/// Fails if there is no provider, or if out of memory.
pub fn take_wave<
    'a,
    R: Threads + Sync,
    T: Track + Sync,
    Q: Query<T> + Send + Sync,
    P: Provider<T, Q> + Send,
>(
    rt: &R,
    round: &Round<'a, T, Q>,
    providers: &mut [P],
    mut wave: Takes<'a, T, Q, P>,
) -> Result<Takes<'a, T, Q, P>, AllocError>
where
    T::Call: Send,
    T::Answer: Send,
    Q::At: Send + Sync,
    Q::Output: Send + Sync,
    requires { wave ≡ round.now.value }
    ensures { IfOk result (λ taken. taken ≡ round.now.value) }
{
    let Some(provider) = providers.first_mut() else {
        return Err(AllocError);
    };
    if wave.len() < 2 {
        wave.turn_each(round, provider);
        return Ok(wave);
    }
    let turns = wave.take_all();
    let mut lanes = deal(round.alloc(), providers, turns)?;
    run_lanes(rt, round, lanes.as_mut_slice());
    gather(&mut wave, lanes)?;
    Ok(wave)
}

/// Deals turns out to providers, in order and as many to each. Fails if out of memory.
fn deal<'p, 'a, T: Track, Q: Query<T>, P: Provider<T, Q>>(
    alloc: Global,
    providers: &'p mut [P],
    mut turns: Takes<'a, T, Q, P>,
) -> Result<Vec<Lane<'p, 'a, T, Q, P>>, AllocError>
    ensures { IfOk result (λ lanes. All (λ lane. lane.takes ≡ turns.entry) lanes.items) }
{
    let share = turns.len().div_ceil(providers.len().max(1));
    let mut lanes = Vec::new(alloc);
    let each = providers.iter_mut();
    for provider in each {
        if turns.len() == 0 {
            break;
        }
        let later = turns.cut(share)?;
        lanes.push(Lane {
            provider,
            takes: turns,
        })?;
        turns = later;
    }
    Ok(lanes)
}

/// Adds the turns of lanes at the end, in their order. Fails if out of memory.
fn gather<'a, T: Track, Q: Query<T>, P: Provider<T, Q>>(
    turns: &mut Takes<'a, T, Q, P>,
    lanes: Vec<Lane<'_, 'a, T, Q, P>>,
) -> Result<(), AllocError>
    requires { All (λ lane. lane.takes ≡ turns.old) lanes.items }
    ensures { turns.new ≡ turns.old }
{
    for lane in lanes {
        turns.append(lane.takes)?;
    }
    Ok(())
}

/// Takes the turns of each lane, in a thread of its own where one can be made.
fn run_lanes<
    'a,
    R: Threads + Sync,
    T: Track + Sync,
    Q: Query<T> + Send + Sync,
    P: Provider<T, Q> + Send,
>(rt: &R, round: &Round<'a, T, Q>, lanes: &mut [Lane<'_, 'a, T, Q, P>])
where
    T::Call: Send,
    T::Answer: Send,
    Q::At: Send + Sync,
    Q::Output: Send + Sync,
    requires { All (λ lane. lane.takes ≡ round.now.value) lanes.old }
    ensures { All (λ lane. lane.takes ≡ round.now.value) lanes.new }
{
    let threads = lanes.len().max(1);
    for_each_mut(
        rt,
        lanes,
        threads,
        &|_, lane|
            requires { lane.now.takes ≡ round.now.value }
            ensures { lane.new.takes ≡ round.entry.now.value }
        { run_lane(lane, round) },
    );
}

/// Takes the turns of a lane.
fn run_lane<'a, T: Track, Q: Query<T>, P: Provider<T, Q>>(
    lane: &mut Lane<'_, 'a, T, Q, P>,
    round: &Round<'a, T, Q>,
)
    requires { lane.old.takes ≡ round.now.value }
    ensures { lane.new.takes ≡ round.now.value }
{
    let Lane { provider, takes } = lane;
    takes.turn_each(round, &mut **provider);
}
