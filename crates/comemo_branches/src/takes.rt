//! The turns of the keys of a wave.
ghost use Rattle.std.specs.Prelude.{◌≡◌, IsTrue, IfErr, IfOk};
ghost use Rattle.std.specs.List.{All};
ghost use Rattle.comemo.specs.Rounds.{OnOutput};

use comemo::internal::{Trail, Turned, Unknown};
use comemo::{Fault, Provider, Query, Round, Track};
use std::alloc::{AllocError, Global};
use std::marker::{Model, PhantomData};
use std::mem;

/// The result of a turn.
pub type Ended<K, O> = Result<Turned<K, O>, Fault>;

/// A key whose output isn't known yet, and what its look-up asked so far.
#[derive(Drop)]
pub struct Waiting<'a, T: Track, Q: Query<T>> {
    /// The key.
    pub key: Q::At,
    /// What its look-up asked.
    pub trail: Trail<Unknown<'a, T, Q>>,
}

impl<'a, T: Track, Q: Query<T>> Waiting<'a, T, Q> {
    /// A key of which nothing was looked up yet. Does not allocate.
    pub fn new(alloc: Global, of: &'a T, key: Q::At) -> Self
        ensures key { result.key ≡ key }
        ensures at { result.trail ≡ of.now }
    {
        Waiting {
            key,
            trail: Trail::empty(alloc, of),
        }
    }

    /// Takes a turn of the key.
    fn turn<P: Provider<T, Q>>(
        &mut self,
        round: &Round<'a, T, Q>,
        provider: &mut P,
    ) -> Ended<Q::At, Q::Output>
        requires { self.old.trail ≡ round.now.value }
        ensures same { self.new ≡ self.old }
        ensures gives { IfOk result (λ turned. OnOutput turned (λ output.
            IsTrue (Q.Output.eq (Q.gives self.old.key (T.answers round.now.value)) output))) }
        ensures fault { IfErr result (P.fails self.old.key) }
    {
        round.take_turn(provider, &self.key, &mut self.trail, 0)
    }
}

/// A key of a wave, and what became of its turn once that was taken. Contracts see the value that it is at.
#[derive(Drop)]
pub struct Take<'a, T: Track, Q: Query<T>, P: Provider<T, Q>> {
    /// The number of the key.
    pub number: usize,
    /// The key.
    pub waiting: Waiting<'a, T, Q>,
    /// What became of its turn.
    pub ended: Option<Ended<Q::At, Q::Output>>,
    /// The provider that calls its function.
    pub provider: PhantomData<P>,
}

impl<'a, T: Track, Q: Query<T>, P: Provider<T, Q>> Model for Take<'a, T, Q, P> {
    ghost use Rattle.std.specs.Prelude.{IsTrue, IfErr, IfOk, IfSome};
    ghost use Rattle.comemo.specs.Rounds.{OnOutput};

    ghost Value = { T };

    ghost coded = { T.code };

    ghost view = { λ s. s.waiting.trail };

    ghost invariant = { λ s. IfSome s.ended (λ ended.
        IfOk ended (λ turned. OnOutput turned (λ output.
        IsTrue (Q.Output.eq (Q.gives s.waiting.key (T.answers s.waiting.trail)) output)))
        × IfErr ended (P.fails s.waiting.key)) };
}

impl<'a, T: Track, Q: Query<T>, P: Provider<T, Q>> Take<'a, T, Q, P> {
    /// The turn of a key, which has this number. It isn't taken yet.
    pub fn new(number: usize, waiting: Waiting<'a, T, Q>) -> Self
        ensures { result ≡ waiting.entry.trail }
    {
        Take {
            number,
            waiting,
            ended: None,
            provider: PhantomData,
        }
    }

    /// Takes the turn. Returns whether the function of the key didn't fail.
    pub fn turn(&mut self, round: &Round<'a, T, Q>, provider: &mut P) -> bool
        requires { self.old ≡ round.now.value }
        ensures { self.new ≡ self.old }
    {
        let ended = self.waiting.turn(round, provider);
        let is_ok = ended.is_ok();
        self.ended = Some(ended);
        is_ok
    }
}

/// Turns of keys, in order. Contracts see the value that they are at.
#[derive(Drop)]
pub struct Takes<'a, T: Track, Q: Query<T>, P: Provider<T, Q>> {
    alloc: Global,
    of: &'a T,
    /// The turns.
    pub items: Vec<Take<'a, T, Q, P>>,
}

impl<'a, T: Track, Q: Query<T>, P: Provider<T, Q>> Model for Takes<'a, T, Q, P> {
    ghost use Rattle.std.specs.Prelude.{◌≡◌};
    ghost use Rattle.std.specs.List.{All};

    ghost Value = { T };

    ghost coded = { T.code };

    ghost view = { λ s. s.of.now };

    ghost invariant = { λ s. All (λ take. take ≡ s.of.now) s.items.items };
}

impl<'a, T: Track, Q: Query<T>, P: Provider<T, Q>> Takes<'a, T, Q, P> {
    /// No turn. Does not allocate.
    pub fn new(alloc: Global, of: &'a T) -> Self
        ensures { result ≡ of.now }
    {
        Takes {
            alloc,
            of,
            items: Vec::new(alloc),
        }
    }

    /// How many turns there are.
    pub fn len(&self) -> usize {
        self.items.len()
    }

    /// Adds a turn at the end. Fails if out of memory.
    pub fn push(&mut self, take: Take<'a, T, Q, P>) -> Result<(), AllocError>
        requires { take ≡ self.old }
        ensures { self.new ≡ self.old }
    {
        self.items.push(take)?;
        Ok(())
    }

    /// Takes out all turns.
    pub fn take_all(&mut self) -> Self
        ensures all { result ≡ self.old }
        ensures same { self.new ≡ self.old }
    {
        let nothing = Takes::new(self.alloc, self.of);
        mem::replace(self, nothing)
    }

    /// Takes out the turns from a place on, if there is one. Fails if out of memory.
    pub fn cut(&mut self, place: usize) -> Result<Self, AllocError>
        ensures cut { IfOk result (λ cut. cut ≡ self.old) }
        ensures same { self.new ≡ self.old }
    {
        let place = place.min(self.items.len());
        let items = self.items.split_off(place)?;
        Ok(Takes {
            alloc: self.alloc,
            of: self.of,
            items,
        })
    }

    /// Adds other turns at the end. Fails if out of memory.
    pub fn append(&mut self, other: Self) -> Result<(), AllocError>
        requires { other ≡ self.old }
        ensures { self.new ≡ self.old }
    {
        let Takes {
            alloc: _,
            of: _,
            mut items,
        } = other;
        self.items.append(&mut items)?;
        Ok(())
    }

    /// The turns, in order.
    pub fn into_items(self) -> Vec<Take<'a, T, Q, P>>
        ensures { All (λ take. take ≡ self.entry) result.items }
    {
        let Takes {
            alloc: _,
            of: _,
            items,
        } = self;
        items
    }

    /// Takes the turns in order, up to one that fails.
    pub fn turn_each(&mut self, round: &Round<'a, T, Q>, provider: &mut P)
        requires { self.old ≡ round.now.value }
        ensures { self.new ≡ self.old }
    {
        turn_up_to_fault(self.items.as_mut_slice(), round, provider);
    }
}

/// Takes turns in order, up to one that fails.
fn turn_up_to_fault<'a, T: Track, Q: Query<T>, P: Provider<T, Q>>(
    takes: &mut [Take<'a, T, Q, P>],
    round: &Round<'a, T, Q>,
    provider: &mut P,
)
    requires { All (λ take. take ≡ round.now.value) takes.old }
    ensures { All (λ take. take ≡ round.now.value) takes.new }
{
    for i in 0..takes.len() {
        let take = &mut takes[i];
        if !take.turn(round, provider) {
            break;
        }
    }
}
