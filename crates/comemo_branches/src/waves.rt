//! Rounds whose turns threads take.
ghost use Rattle.std.specs.Prelude.{◌≡◌, IsTrue, IfErr, IfOk, OnOk};
ghost use Rattle.std.specs.List.{All, AllZip};
ghost use Rattle.comemo.specs.Rounds.{FailsBy};
ghost use Rattle.comemo.specs.Sequence.{held};
ghost use Rattle.comemo.specs.Answered.{StaysKnown};

use crate::ended::keep;
use crate::lanes::take_wave;
use crate::waits::Waits;
use comemo::{Fault, Provider, Query, Round, RoundError, Track};
use std::marker::{Send, Sync};
use std::thread::Threads;

/// The outputs at these keys, in their order, as `Round::output` makes them known, with a thread for each provider. Each
/// output is looked up or computed once for all threads.
///
/// The keys that wait for no output are a wave. The threads take the turns of a wave, while the round is only read; then
/// this thread makes the outputs known. A wave of one key is taken in this thread. So the turns are the same whichever
/// thread ends first.
///
/// Fails with the first fault in the order of a wave, if an output needs itself, or if out of memory; what became known
/// stays known. If there is no provider, and an output isn't known, it fails as if out of memory.
pub fn outputs_in_threads<
    'a,
    R: Threads + Sync,
    T: Track + Sync,
    Q: Query<T> + Send + Sync,
    P: Provider<T, Q> + Send,
>(
    rt: &R,
    round: &mut Round<'a, T, Q>,
    providers: &mut [P],
    keys: &[Q::At],
) -> Result<Vec<Q::Output>, RoundError<Q::At>>
where
    T::Call: Send,
    T::Answer: Send,
    Q::At: Send + Sync,
    Q::Output: Send + Sync,
    ensures value { round.new.value ≡ round.old.value }
    ensures gives { IfOk result (λ outputs. AllZip (λ key output.
        IsTrue (Q.Output.eq (Q.gives key (T.answers round.old.value)) output))
        keys.now outputs.items) }
    ensures known { OnOk result (All (λ key. IsTrue (held Q.At.eq round.new.known key)) keys.now) }
    ensures stays { StaysKnown Q.At.eq round.old.known round.new.known }
    ensures err { IfErr result (FailsBy P.fails) }
{
    let mut waits = Waits::new(round.alloc(), round.value());
    waits.begin_each(round, keys)?;
    for _i in 0..u64::MAX {
        let wave = waits.take_wave();
        if wave.len() == 0 {
            break;
        }
        let taken = take_wave(rt, round, providers, wave)?;
        waits.settle_each(round, taken)?;
    }
    match waits.into_circle() {
        Some(key) => Err(RoundError::Circle(key)),
        None => known_outputs(round, keys),
    }
}

/// The known outputs at keys, in their order. Fails if one isn't known, or if out of memory.
fn known_outputs<T: Track, Q: Query<T>>(
    round: &Round<'_, T, Q>,
    keys: &[Q::At],
) -> Result<Vec<Q::Output>, RoundError<Q::At>>
    ensures gives { IfOk result (λ outputs. AllZip (λ key output.
        IsTrue (Q.Output.eq (Q.gives key (T.answers round.now.value)) output))
        keys.now outputs.items) }
    ensures known { OnOk result (All (λ key. IsTrue (held Q.At.eq round.now.known key)) keys.now) }
    ensures err { IfErr result (FailsBy (λ _ _. ⊥)) }
{
    let mut outputs = Vec::new(round.alloc());
    for key in keys {
        match round.get(key) {
            Some(output) => keep(&mut outputs, output.clone()?)?,
            None => return Err(RoundError::Fault(Fault::Memory)),
        }
    }
    Ok(outputs)
}
