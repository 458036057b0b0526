//! The keys of a round that wait for outputs of others.
ghost use Rattle.std.specs.Prelude.{◌≡◌, IfErr, IfSome, OnErr, ⊤};
ghost use Rattle.std.specs.List.{All};
ghost use Rattle.comemo.specs.Rounds.{FailsBy};
ghost use Rattle.comemo.specs.Answered.{StaysKnown};

use crate::takes::{Take, Takes, Waiting};
use comemo::internal::Turned;
use comemo::{Provider, Query, Round, RoundError, Track};
use std::alloc::{AllocError, Global};
use std::collections::HashMap;
use std::hash::Hash;
use std::marker::Model;
use std::mem;

/// Which keys need which, by numbers.
#[derive(Drop)]
struct Links<K: Eq + Hash> {
    alloc: Global,
    // the numbers of the keys that were ever begun
    numbers: HashMap<K, usize>,
    // by number: the key that it needed last
    needs: Vec<usize>,
    // by number: the keys that wait for it
    needed_by: Vec<Vec<usize>>,
}

impl<K: Eq + Hash + Drop> Links<K> {
    /// No key was begun. Does not allocate.
    fn new(alloc: Global) -> Self {
        Links {
            alloc,
            numbers: HashMap::new(alloc),
            needs: Vec::new(alloc),
            needed_by: Vec::new(alloc),
        }
    }

    /// The number of a key, if it was begun.
    fn number(&self, key: &K) -> Option<usize> {
        self.numbers.get(key).copied()
    }

    /// Begins a key, and returns its number. Fails if out of memory.
    fn begin(&mut self, key: K) -> Result<usize, AllocError> {
        let number = self.needs.len();
        self.numbers.insert(key, number)?;
        self.needs.push(number)?;
        self.needed_by.push(Vec::new(self.alloc))?;
        Ok(number)
    }

    /// Notes that a key waits for another. Fails if out of memory.
    fn note(&mut self, number: usize, needed: usize) -> Result<(), AllocError> {
        if let Some(needs) = self.needs.get_mut(number) {
            *needs = needed;
        }
        if let Some(waiting) = self.needed_by.get_mut(needed) {
            waiting.push(number)?;
        }
        Ok(())
    }

    /// The keys that wait for a key, which do so no more.
    fn take_waiting(&mut self, number: usize) -> Vec<usize> {
        let none = Vec::new(self.alloc);
        match self.needed_by.get_mut(number) {
            Some(waiting) => mem::replace(waiting, none),
            None => none,
        }
    }

    /// A key that is reached after so many steps, each from a key to the one that it needed last.
    fn after_steps(&self, steps: usize, from: usize) -> usize {
        let mut number = from;
        for _i in 0..steps {
            if let Some(needed) = self.needs.get(number) {
                number = *needed;
            }
        }
        number
    }
}

/// The keys of a round that wait for outputs of others, and those whose turn is next. Contracts see the value that they
/// are at.
#[derive(Drop)]
pub struct Waits<'a, T: Track, Q: Query<T>, P: Provider<T, Q>> {
    alloc: Global,
    of: &'a T,
    links: Links<Q::At>,
    // by number: the keys that wait
    asleep: Vec<Option<Waiting<'a, T, Q>>>,
    ready: Takes<'a, T, Q, P>,
}

impl<'a, T: Track, Q: Query<T>, P: Provider<T, Q>> Model for Waits<'a, T, Q, P> {
    ghost use Rattle.std.specs.Prelude.{◌≡◌, IfSome};
    ghost use Rattle.std.specs.List.{All};

    ghost Value = { T };

    ghost coded = { T.code };

    ghost view = { λ s. s.of.now };

    ghost invariant = { λ s. (s.ready ≡ s.of.now)
        × All (λ slot. IfSome slot (λ waits. waits.trail ≡ s.of.now)) s.asleep.items };
}

impl<'a, T: Track, Q: Query<T>, P: Provider<T, Q>> Waits<'a, T, Q, P> {
    /// No key waits. Does not allocate.
    pub fn new(alloc: Global, of: &'a T) -> Self
        ensures { result ≡ of.now }
    {
        Waits {
            alloc,
            of,
            links: Links::new(alloc),
            asleep: Vec::new(alloc),
            ready: Takes::new(alloc, of),
        }
    }

    /// Begins each of these keys that isn't known. Fails if out of memory.
    pub fn begin_each(&mut self, round: &Round<'a, T, Q>, keys: &[Q::At]) -> Result<(), AllocError>
        ensures { self.new ≡ self.old }
    {
        for key in keys {
            if round.get(key).is_none() {
                self.number_of(key)?;
            }
        }
        Ok(())
    }

    /// Takes out the keys whose turn is next.
    pub fn take_wave(&mut self) -> Takes<'a, T, Q, P>
        ensures at { result ≡ self.old }
        ensures same { self.new ≡ self.old }
    {
        self.ready.take_all()
    }

    /// Makes known what the turns of a wave returned, and has the others wait. Fails with the first fault of a turn in
    /// order, or if out of memory.
    pub fn settle_each(
        &mut self,
        round: &mut Round<'a, T, Q>,
        wave: Takes<'a, T, Q, P>,
    ) -> Result<(), RoundError<Q::At>>
        requires wave { wave ≡ self.old }
        requires round { round.old.value ≡ self.old }
        ensures same { self.new ≡ self.old }
        ensures value { round.new.value ≡ round.old.value }
        ensures stays { StaysKnown Q.At.eq round.old.known round.new.known }
        ensures err { IfErr result (FailsBy P.fails) }
    {
        for take in wave.into_items() {
            self.settle(round, take)?;
        }
        Ok(())
    }

    /// Makes known what a turn returned, or has its key wait.
    fn settle(
        &mut self,
        round: &mut Round<'a, T, Q>,
        take: Take<'a, T, Q, P>,
    ) -> Result<(), RoundError<Q::At>>
        requires take { take ≡ self.old }
        requires round { round.old.value ≡ self.old }
        ensures same { self.new ≡ self.old }
        ensures value { round.new.value ≡ round.old.value }
        ensures stays { StaysKnown Q.At.eq round.old.known round.new.known }
        ensures err { IfErr result (FailsBy P.fails) }
    {
        let Take {
            number,
            waiting,
            ended,
            provider: _,
        } = take;
        match ended {
            Some(Ok(Turned::Output(output))) => {
                round.learn(waiting.key, output)?;
                self.wake_each(number)?;
            }
            Some(Ok(Turned::Needs(needed))) => self.sleep(round, number, waiting, &needed)?,
            Some(Err(fault)) => return Err(RoundError::Fault(fault)),
            None => self.ready.push(Take::new(number, waiting))?,
        }
        Ok(())
    }

    /// Has a key wait for another, or be ready if the other is known by now. Fails if out of memory.
    fn sleep(
        &mut self,
        round: &Round<'a, T, Q>,
        number: usize,
        waiting: Waiting<'a, T, Q>,
        needed: &Q::At,
    ) -> Result<(), AllocError>
        requires { waiting.trail ≡ self.old }
        ensures { self.new ≡ self.old }
    {
        if round.get(needed).is_some() {
            return self.ready.push(Take::new(number, waiting));
        }
        let needed = self.number_of(needed)?;
        self.links.note(number, needed)?;
        self.put(number, Some(waiting));
        Ok(())
    }

    /// Makes the keys ready that wait for a key. Fails if out of memory.
    fn wake_each(&mut self, number: usize) -> Result<(), AllocError>
        ensures { self.new ≡ self.old }
    {
        for number in self.links.take_waiting(number) {
            if let Some(waiting) = self.put(number, None) {
                self.ready.push(Take::new(number, waiting))?;
            }
        }
        Ok(())
    }

    /// The number of a key, which is begun unless it was. Fails if out of memory.
    fn number_of(&mut self, key: &Q::At) -> Result<usize, AllocError>
        ensures { self.new ≡ self.old }
    {
        if let Some(number) = self.links.number(key) {
            return Ok(number);
        }
        let number = self.links.begin(key.clone()?)?;
        self.asleep.push(None)?;
        let waiting = Waiting::new(self.alloc, self.of, key.clone()?);
        self.ready.push(Take::new(number, waiting))?;
        Ok(number)
    }

    /// Has a key wait, or no more. Returns what waited.
    fn put(
        &mut self,
        number: usize,
        waiting: Option<Waiting<'a, T, Q>>,
    ) -> Option<Waiting<'a, T, Q>>
        requires { IfSome waiting (λ waits. waits.trail ≡ self.old) }
        ensures same { self.new ≡ self.old }
        ensures at { IfSome result (λ waits. waits.trail ≡ self.old) }
    {
        if number < self.asleep.len() {
            return mem::replace(&mut self.asleep[number], waiting);
        }
        None
    }

    /// A key whose output needs itself, if keys wait while none is ready.
    pub fn into_circle(self) -> Option<Q::At> {
        let Waits {
            alloc: _,
            of: _,
            links,
            mut asleep,
            ready: _,
        } = self;
        let first = asleep.iter().position(|slot| slot.is_some())?;
        let number = links.after_steps(asleep.len(), first);
        let waiting = asleep.get_mut(number)?.take()?;
        Some(waiting.key)
    }
}
