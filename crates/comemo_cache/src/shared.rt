//! One cache for many threads: locks around the entries, and the access that calls have. Only storing and look-ups
//! allocate.
ghost use Rattle.std.specs.Prelude.{◌≡◌, ◌≤◌, ◌-◌, ◌^◌, min, sum, [], Option, None, Some, true, false, IfErr, IfSome, OnOk, OnErr};
ghost use Rattle.std.specs.Option.{unwrap_or};
ghost use Rattle.std.specs.Sync.RwLock.{write_guard_value};
ghost use Rattle.std.specs.List.{All};
ghost use Rattle.comemo_base.specs.Lookup.{under};
ghost use Rattle.comemo_base.specs.Insertion.{IsReason};
ghost use Rattle.comemo_base.specs.declared.insertion.InsertError.TheVariants.{MissingCall};
ghost use Rattle.comemo_cache.specs.Meaning.{IsNamed, IsNamedRun, exactly, run};
ghost use Rattle.comemo_cache.specs.Cache.{Entries, Evicts, Stands, TouchesAt};
ghost use Rattle.comemo_cache.specs.Storing.{Stores};
ghost use Rattle.comemo_cache.specs.Held.{ChangesBehind, Held, Leads, Stays};

use crate::cache::{CacheData, Found, Function, Meant, Peeked};
use crate::contents::Contents;
use crate::explain::Explanation;
use crate::hold::{Hold, Reads};
use comemo_base::{CallSequence, InsertError};
use comemo_track::input::Input;
use comemo_track::track::Call;
use std::alloc::{AllocError, Global};
use std::array;
use std::hash::{FoldHasher, Hash, Hasher};
use std::marker::{Model, PhantomData};
use std::sync::atomic::{AtomicU64, Ordering};
use std::sync::{Arc, RwLock, RwLockWriteGuard, Wait};

/// The number of lanes in a shard.
const LANES: usize = 4;

/// The number of shards of a cache. The first six bits of a key's hash choose its shard.
const SHARDS: usize = 64;

/// A reference to the entries of a shard, or to none if the shard never had one.
#[derive(Drop)]
struct EntriesRef<M: Function> {
    data: Option<Arc<CacheData<M>>>,
}

impl<M: Function> Model for EntriesRef<M> {
    ghost use Rattle.std.specs.Prelude.{Option};
    ghost use Rattle.std.specs.Option.{option_map};
    ghost use Rattle.std.specs.Arc.{arc_value};
    ghost use Rattle.std.specs.Coded.{coded_option, coded_list};
    ghost use Rattle.comemo_base.specs.Tree.{stored_code};
    ghost use Rattle.comemo_cache.specs.Cache.{Entries, kept_code};

    ghost Value = { Option (Entries M.Key M.Call M.Answer M.Out) };

    ghost coded = { coded_option (coded_list (stored_code M.Key.code M.Call.code M.Answer.code
        (kept_code M.Out.code M.Call.code))) };

    ghost view = { λ s. option_map arc_value s.data };
}

impl<M: Function> EntriesRef<M> {
    /// A reference to none.
    fn new() -> Self
        ensures { result ≡ None }
    {
        EntriesRef { data: None }
    }

    /// Another reference to the same entries, or to none.
    fn another(&self) -> Self
        ensures { IfSome result (λ es. self.now ≡ Some es) }
    {
        match &self.data {
            // A clone fails if the count is full. Look-ups in that lane then find nothing, which is safe.
            Some(data) => EntriesRef {
                data: data.clone().ok(),
            },
            None => EntriesRef::new(),
        }
    }

    /// Makes an empty list of entries if there is none.
    fn begin(&mut self, alloc: Global) -> Result<(), AllocError>
        ensures begun { OnOk result (self.new ≡ Some (unwrap_or self.old [])) }
        ensures err { OnErr result (self.new ≡ self.old) }
    {
        if self.data.is_none() {
            self.data = Some(Arc::new(alloc, CacheData::new(alloc))?);
        }
        Ok(())
    }

    /// Stores a run, as `CacheData::store`. Fails if there is another reference to the entries.
    fn store(
        &mut self,
        key: M::Key,
        reads: CallSequence<M::Call, M::Answer>,
        output: M::Out,
        writes: Vec<M::Call>,
    ) -> Result<(), InsertError>
        requires reads { All (λ p. M.Call.is_write p.0 ≡ false) reads.pairs }
        requires written { All (λ c. M.Call.is_write c ≡ true) writes.items }
        requires stands { Stands ⟦<M as Meant>⟧.meaning
            (run key reads.pairs output writes.items) }
        requires settled { IsNamedRun ⟦<M as Meant>⟧.meaning key reads.pairs }
        ensures stored { OnOk result (Leads self.old self.new (λ es es'.
            Stores (exactly ⟦<M as Meant>⟧.meaning) es
            (run key reads.pairs output writes.items) es')) }
        ensures reason { IfErr result (λ error. Held self.old (λ es.
            IsReason M.Call.eq M.Answer.eq (under M.Key.eq es key) reads.pairs error)) }
        ensures named { IfErr result (λ error. error ≡ MissingCall
            → ¬ IsNamed ⟦<M as Meant>⟧.meaning) }
        ensures err { OnErr result (self.new ≡ self.old) }
    {
        let Some(data) = &mut self.data else {
            return Err(InsertError::Memory);
        };
        let Some(entries) = Arc::get_mut(data) else {
            // Not reached after `withdraw`, which leaves one reference.
            return Err(InsertError::Memory);
        };
        entries.store(key, reads, output, writes)
    }

    /// Sets an entry's age to 0, as `CacheData::touch`, unless there is another reference to the entries.
    fn touch(&mut self, key: &M::Key, answers: &[M::Answer])
        ensures { ChangesBehind (TouchesAt M.Answer.eq M.Key.eq key.now answers.now)
            self.old self.new }
    {
        let Some(data) = &mut self.data else {
            return;
        };
        if let Some(entries) = Arc::get_mut(data) {
            entries.touch(key, answers);
        }
    }

    /// Drops old entries, as `CacheData::evict`, unless there is another reference to them.
    fn evict(&mut self, max_age: usize)
        ensures { ChangesBehind (Evicts max_age) self.old self.new }
    {
        let Some(data) = &mut self.data else {
            return;
        };
        if let Some(entries) = Arc::get_mut(data) {
            entries.evict(max_age);
        }
    }
}

/// A lane of a shard: a lock, and behind it a reference to the shard's entries.
///
/// A look-up locks only its own lane, for reading. So look-ups in different lanes write no memory in common, and don't
/// wait for each other's processors.
#[derive(Drop)]
struct Lane<M: Function> {
    entries: RwLock<EntriesRef<M>>,
    // Padding to 128 bytes, which processors fetch at once, so that lanes don't disturb each other.
    padding: [u64; 10],
}

impl<M: Function> Lane<M> {
    /// A lane of a shard without entries.
    fn new() -> Self {
        Lane {
            entries: RwLock::new(EntriesRef::new()),
            padding: [0; 10],
        }
    }

    /// The lanes of one shard.
    fn shard(_: PhantomData<Self>) -> [Self; LANES] {
        [Lane::new(), Lane::new(), Lane::new(), Lane::new()]
    }
}

/// All lanes of a shard, locked for writing: no look-up is under way.
#[derive(Drop)]
struct ExclusiveGuard<'a, M: Function> {
    first: RwLockWriteGuard<'a, EntriesRef<M>>,
    second: RwLockWriteGuard<'a, EntriesRef<M>>,
    third: RwLockWriteGuard<'a, EntriesRef<M>>,
    fourth: RwLockWriteGuard<'a, EntriesRef<M>>,
}

impl<'a, M: Function> ExclusiveGuard<'a, M> {
    /// Locks a shard's lanes in their order, so that no two callers wait for each other.
    fn new<R: Wait>(rt: &R, shard: &'a [Lane<M>; LANES]) -> Self {
        ExclusiveGuard {
            first: shard[0].entries.write(rt),
            second: shard[1].entries.write(rt),
            third: shard[2].entries.write(rt),
            fourth: shard[3].entries.write(rt),
        }
    }
}

impl<M: Function> ExclusiveGuard<'_, M> {
    /// Leaves the first lane's reference as the only one, so that the entries can be changed.
    fn withdraw(&mut self)
        ensures first { write_guard_value self.new.first ≡ write_guard_value self.old.first }
        ensures second { write_guard_value self.new.second ≡ None }
        ensures third { write_guard_value self.new.third ≡ None }
        ensures fourth { write_guard_value self.new.fourth ≡ None }
    {
        *self.second = EntriesRef::new();
        *self.third = EntriesRef::new();
        *self.fourth = EntriesRef::new();
    }

    /// Makes all lanes refer to the first lane's entries.
    fn publish(&mut self)
        ensures first { write_guard_value self.new.first ≡ write_guard_value self.old.first }
        ensures second { IfSome (write_guard_value self.new.second)
            (λ es. write_guard_value self.old.first ≡ Some es) }
        ensures third { IfSome (write_guard_value self.new.third)
            (λ es. write_guard_value self.old.first ≡ Some es) }
        ensures fourth { IfSome (write_guard_value self.new.fourth)
            (λ es. write_guard_value self.old.first ≡ Some es) }
    {
        *self.second = self.first.another();
        *self.third = self.first.another();
        *self.fourth = self.first.another();
    }
}

/// A cache that threads share, by reference or by `Arc`.
///
/// It has 64 shards, and all entries under a key are in one of them: calls in different shards don't wait for each
/// other. Each shard has four lanes, each with its own lock. A look-up takes one of them, a change takes them all:
/// look-ups in different lanes don't disturb each other. Its type ensures that entries are right, whichever thread
/// stored them. It takes 32 KiB in place.
#[derive(Drop)]
pub struct Cache<M: Function> {
    alloc: Global,
    shards: [[Lane<M>; LANES]; SHARDS],
    // The number of shares made, which distributes them over the lanes.
    shares: AtomicU64,
}

impl<M: Function> Cache<M> {
    /// An empty cache. Does not allocate.
    pub fn new(alloc: Global) -> Self {
        // The checker only covers a closure that returns lanes if it holds something of their type.
        let of: PhantomData<Lane<M>> = PhantomData;
        Cache {
            alloc,
            shards: array::from_fn(move |_| Lane::shard(of)),
            shares: AtomicU64::new(0),
        }
    }

    /// Access for calls of one thread: each step locks its key's shard, with this right to wait.
    ///
    /// Keep one for each thread: a new one counts in memory that all threads share.
    pub fn hold<'a, R: Wait>(&'a self, rt: &'a R) -> Shared<'a, M, R> {
        Shared {
            cache: self,
            share: self.shares.fetch_add(1, Ordering::SeqCst) as usize,
            rt,
        }
    }

    /// Drops old entries, as `CacheData::evict`. It is one step: it holds all locks at one moment, so each step of a
    /// call comes before or after it, in every shard.
    pub fn evict<R: Wait>(&self, rt: &R, max_age: usize) {
        evict_shards(rt, &self.shards, max_age);
    }

    /// What the cache holds, summed over its shards. A number that doesn't fit is the greatest `usize`.
    ///
    /// Each shard is locked in turn: other threads may change the shards that were counted and those that are left.
    pub fn contents<R: Wait>(&self, rt: &R) -> Contents
        ensures sum { result.entries ≡ min (sum result.ages) (2 ^ 64 - 1) }
        ensures few { result.keys ≤ result.entries }
    {
        let mut held = Contents::nothing();
        for shard in &self.shards {
            let entries = shard[0].entries.read(rt);
            if let Some(data) = &entries.data {
                held = held.plus(data.contents());
            }
        }
        held
    }

    /// The keys under which a kept run asked one of these calls, cloned, as `CacheData::reached`.
    ///
    /// Each shard is locked in turn: other threads may change the shards that were looked at and those that are left.
    /// Fails if out of memory.
    pub fn reached<R: Wait>(&self, rt: &R, calls: &[M::Call]) -> Result<Vec<M::Key>, AllocError> {
        let mut keys = Vec::new(self.alloc);
        for shard in &self.shards {
            let entries = shard[0].entries.read(rt);
            if let Some(data) = &entries.data {
                put_reached(data, calls, &mut keys)?;
            }
        }
        Ok(keys)
    }

    /// The shard that has the entries under a key. The key is hashed here and again by the shard's map, which ignores
    /// the bits that choose the shard.
    fn shard(&self, key: &M::Key) -> &[Lane<M>; LANES] {
        let mut hasher = FoldHasher::default();
        key.hash(&mut hasher);
        &self.shards[(hasher.finish() >> 58) as usize]
    }
}

/// Appends clones of the keys that a change of these calls reaches.
///
/// Fails if out of memory. Some keys may then be missing.
fn put_reached<M: Function>(
    kept: &CacheData<M>,
    calls: &[M::Call],
    keys: &mut Vec<M::Key>,
) -> Result<(), AllocError> {
    for key in kept.reached(calls)? {
        let own = key.clone()?;
        keys.push(own)?;
    }
    Ok(())
}

/// Drops old entries of these shards, and locks them all in order first.
///
/// A call locks one shard only and evictions lock in one order, so there is no deadlock. A shard is evicted after all
/// later shards were locked, and then unlocked.
fn evict_shards<M: Function, R: Wait>(rt: &R, shards: &[[Lane<M>; LANES]], max_age: usize) {
    let Some((shard, rest)) = shards.split_first() else {
        return;
    };
    let mut guard = ExclusiveGuard::new(rt, shard);
    evict_shards(rt, rest, max_age);
    guard.withdraw();
    guard.first.evict(max_age);
    guard.publish();
}

/// A share of a cache, for the calls of one thread. Each step takes the lock and releases it. Look-ups share the lock;
/// a touch and a store hold it exclusively.
///
/// Its entries aren't known, since other threads may change them between two steps.
#[derive(Drop)]
pub struct Shared<'a, M: Function, R: Wait> {
    cache: &'a Cache<M>,
    // Its number, which chooses the lane of its look-ups.
    share: usize,
    rt: &'a R,
}

impl<M: Function, R: Wait> Hold<M> for Shared<'_, M, R> {
    ghost entries = { λ _. None };

    fn look<In: Input<Call = M::Call, Key = M::Key, Answer = M::Answer>>(
        &mut self,
        key: &M::Key,
        input: &mut In,
    ) -> Result<Option<Found<M>>, AllocError> {
        let lane = &self.cache.shard(key)[self.share % LANES];
        let entries = lane.entries.read(self.rt);
        let Some(data) = &entries.data else {
            return Ok(None);
        };
        data.look(key, input)
    }

    fn peek<In: Input<Call = M::Call, Key = M::Key, Answer = M::Answer>>(
        &mut self,
        key: &M::Key,
        input: &mut In,
    ) -> Result<Option<Peeked<M>>, AllocError> {
        let lane = &self.cache.shard(key)[self.share % LANES];
        let entries = lane.entries.read(self.rt);
        let Some(data) = &entries.data else {
            return Ok(None);
        };
        data.peek(key, input)
    }

    fn explain<In: Input<Call = M::Call, Key = M::Key, Answer = M::Answer>>(
        &mut self,
        alloc: Global,
        key: &M::Key,
        input: &mut In,
    ) -> Result<Explanation<M::Call, M::Answer>, AllocError> {
        let lane = &self.cache.shard(key)[self.share % LANES];
        let entries = lane.entries.read(self.rt);
        let Some(data) = &entries.data else {
            return Ok(Explanation::NeverKept);
        };
        data.explain(alloc, key, input)
    }

    fn touch(&mut self, key: &M::Key, answers: &[M::Answer]) {
        let mut guard = ExclusiveGuard::new(self.rt, self.cache.shard(key));
        guard.withdraw();
        guard.first.touch(key, answers);
        guard.publish();
    }

    fn store<Q: Reads<Call = M::Call, Answer = M::Answer>>(
        &mut self,
        key: M::Key,
        reads: Q,
        output: M::Out,
        writes: Vec<M::Call>,
    ) -> Result<(), InsertError>
        requires reads { All (λ p. M.Call.is_write p.0 ≡ false) (Q.pairs reads) }
        requires written { All (λ c. M.Call.is_write c ≡ true) writes.items }
        requires stands { Stands ⟦<M as Meant>⟧.meaning
            (run key (Q.pairs reads) output writes.items) }
        requires settled { IsNamedRun ⟦<M as Meant>⟧.meaning key (Q.pairs reads) }
        ensures stored { let none : Option (Entries M.Key M.Call M.Answer M.Out) = None in
            OnOk result (Leads none none (λ es es'.
            Stores (exactly ⟦<M as Meant>⟧.meaning) es
            (run key (Q.pairs reads) output writes.items) es')) }
        ensures reason { let none : Option (Entries M.Key M.Call M.Answer M.Out) = None in
            IfErr result (λ error. Held none (λ es.
            IsReason M.Call.eq M.Answer.eq (under M.Key.eq es key) (Q.pairs reads) error)) }
        ensures named { IfErr result (λ error. error ≡ MissingCall
            → ¬ IsNamed ⟦<M as Meant>⟧.meaning) }
        ensures err { let none : Option (Entries M.Key M.Call M.Answer M.Out) = None in
            OnErr result (Stays none none) }
    {
        let reads = reads.into_sequence();
        let mut guard = ExclusiveGuard::new(self.rt, self.cache.shard(&key));
        guard.withdraw();
        // On error the shard has no entries, so there is nothing for the lanes to refer to.
        guard.first.begin(self.cache.alloc)?;
        let stored = guard.first.store(key, reads, output, writes);
        guard.publish();
        stored
    }
}
