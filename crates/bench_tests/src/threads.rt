//! Workers that share a cache, and holders that do a step wrong.

use crate::dead::{Dead, Step};
use crate::overtaken::Overtaken;
use bench_rows::workers::{
    Meeting, Null, doubled, evictions_reach_a_cache, evictions_reach_all_keys, two_runs_of_one_key,
};
use comemo::internal::evictors::evict;
use comemo::internal::{Evict, Evictor, Hashed, register_evictor};
use comemo::{Cache, CacheData, Fault, Function, Hold, How, memoized};
use comemo_examples::Town;
use comemo_examples::double::Double;
use comemo_examples::shared::warmths;
use comemo_examples::warmth::Warmth;
use std::alloc::{AllocError, Global};
use std::sync::{Arc, Mutex, RwLock, Wait};
use std::thread::{Threads, join};

#[test]
fn a_holder_that_neither_looks_nor_stores_is_found(rt: HostRuntime) {
    let alloc = rt.alloc();
    let steps: &[Step] = &[Step::Look, Step::Store];
    for step in steps {
        let dead = *step;
        let cache: Cache<Double> = Cache::new(alloc);
        let held = cache.hold(&rt);
        let left = Dead { alloc, held, dead };
        let held = cache.hold(&rt);
        let right = Dead { alloc, held, dead };
        let met = two_runs_of_one_key(&rt, alloc, left, right);
        assert!(rt; matches!(met, Ok(false)));
    }
}

#[test]
fn a_lock_that_is_held_over_a_run_is_found(rt: HostRuntime) {
    let alloc = rt.alloc();
    let lock: RwLock<CacheData<Double>> = RwLock::new(CacheData::new(alloc));
    let gate = Meeting::new(&rt, 2, 100);
    let (left, right) = join(
        &rt,
        || doubled(alloc, &mut *lock.write(&rt), 21, &gate),
        || doubled(alloc, &mut *lock.write(&rt), 21, &gate),
    );
    let is_found = match (left, right) {
        (Ok(left), Ok(right)) => left.is_none() || right.is_none(),
        _ => false,
    };
    assert!(rt; is_found);
}

/// Evicts nothing.
#[derive(Drop)]
struct Idle;

impl Evict for Idle {
    fn evict(&self, _max_age: usize) {}
}

#[test]
fn an_evictor_that_evicts_nothing_is_found(rt: HostRuntime) {
    let alloc = rt.alloc();
    let cache: Cache<Null> = Cache::new(alloc);
    let reached = evictions_reach_a_cache(alloc, &mut cache.hold(&rt), &Idle);
    assert!(rt; matches!(reached, Ok(false)));
    let cache: Cache<Double> = Cache::new(alloc);
    let reached = evictions_reach_all_keys(alloc, &mut cache.hold(&rt), &Idle);
    assert!(rt; matches!(reached, Ok(false)));
}

/// An evictor of a shared cache.
fn evictor_of<M: Function, R: Wait + Drop + Clone>(
    rt: &R,
    cache: &Arc<Cache<M>, Global>,
) -> Result<Evictor<M, R>, AllocError> {
    let rt = rt.clone()?;
    let cache = Arc::try_clone(cache)?;
    Ok(Evictor::new(cache, rt))
}

#[test]
fn an_eviction_reaches_all_keys(rt: HostRuntime) -> Result<(), AllocError> {
    let alloc = rt.alloc();
    let cache: Arc<Cache<Double>, Global> = Arc::new(alloc, Cache::new(alloc))?;
    let evictor = evictor_of(&rt, &cache)?;
    let reached = evictions_reach_all_keys(alloc, &mut cache.hold(&rt), &evictor);
    assert!(rt; matches!(reached, Ok(true)));
    Ok(())
}

/// Whether a call returns the double of 7, and ends as `how`.
fn doubles_seven<H: Hold<Double>>(alloc: Global, held: &mut H, how: How) -> bool {
    let nothing = ();
    match memoized(alloc, held, 7, &nothing) {
        Ok(reply) => reply.output == 14 && reply.how == how,
        Err(_) => false,
    }
}

/// The age of the entry for the double of 7.
fn age_of_seven<H: Hold<Double>>(cache: &mut H) -> Option<usize> {
    match cache.look(&7, &mut Hashed(7)) {
        Ok(Some(found)) => Some(found.age),
        _ => None,
    }
}

#[test]
fn each_share_finds_what_another_kept(rt: HostRuntime) {
    let alloc = rt.alloc();
    let cache: Cache<Double> = Cache::new(alloc);
    assert!(rt; doubles_seven(alloc, &mut cache.hold(&rt), How::Stored));
    for _ in 1..9_u32 {
        assert!(rt; doubles_seven(alloc, &mut cache.hold(&rt), How::Hit));
    }
    cache.evict(&rt, 0);
    for _ in 0..9_u32 {
        assert!(rt; age_of_seven(&mut cache.hold(&rt)).is_none());
    }
}

/// Towns with so many degrees.
fn towns(alloc: Global, degrees: &[u64]) -> Result<Vec<Town>, AllocError> {
    let people = 900;
    let mut towns = Vec::new(alloc);
    for degrees in degrees {
        let degrees = *degrees;
        towns.push(Town { people, degrees })?;
    }
    Ok(towns)
}

/// Whether the warmths of three towns, which threads find, are these.
fn are_warmths<R: Threads + Wait + Sync>(
    rt: &R,
    alloc: Global,
    cache: &Cache<Warmth>,
    towns: &[Town],
    wanted: &[Result<u64, Fault>],
) -> bool {
    match warmths(rt, alloc, cache, towns) {
        Ok(table) => table.as_slice() == wanted,
        Err(_) => false,
    }
}

#[test]
fn a_table_is_made_by_threads(rt: HostRuntime) -> Result<(), AllocError> {
    let alloc = rt.alloc();
    let towns = towns(alloc, &[21, 4, 30])?;
    let cache: Cache<Warmth> = Cache::new(alloc);
    let wanted: &[Result<u64, Fault>] = &[Ok(21), Ok(4), Ok(30)];
    for _ in 0..2_u32 {
        assert!(rt; are_warmths(&rt, alloc, &cache, towns.as_slice(), wanted));
    }
    Ok(())
}

#[test]
fn a_holder_that_does_not_touch_is_found(rt: HostRuntime) -> Result<(), AllocError> {
    let alloc = rt.alloc();
    let cache: Arc<Cache<Null>, Global> = Arc::new(alloc, Cache::new(alloc))?;
    let evictor = evictor_of(&rt, &cache)?;
    let mut held = Dead {
        alloc,
        held: cache.hold(&rt),
        dead: Step::Touch,
    };
    let reached = evictions_reach_a_cache(alloc, &mut held, &evictor);
    assert!(rt; matches!(reached, Ok(false)));
    Ok(())
}

/// Evicts a cache, and then appends its number to a list.
#[derive(Drop)]
struct Numbered<M: Function, R: Wait + Drop> {
    evictor: Evictor<M, R>,
    number: u32,
    list: Arc<Mutex<Vec<u32>>, Global>,
    rt: R,
}

impl<M: Function, R: Wait + Drop> Evict for Numbered<M, R> {
    fn evict(&self, max_age: usize) {
        self.evictor.evict(max_age);
        let _ = self.list.lock(&self.rt).push(self.number);
    }
}

impl<M: Function, R: Wait + Drop + Clone> Numbered<M, R> {
    /// An evictor of this cache with this number, in a box.
    fn new(
        rt: &R,
        alloc: Global,
        cache: &Arc<Cache<M>, Global>,
        number: u32,
        list: &Arc<Mutex<Vec<u32>>, Global>,
    ) -> Result<Box<Self>, AllocError> {
        let own = rt.clone()?;
        let list = Arc::try_clone(list)?;
        let evictor = evictor_of(rt, cache)?;
        let numbered = Numbered {
            evictor,
            number,
            list,
            rt: own,
        };
        Ok(Box::new(alloc, numbered)?)
    }
}

/// Whether a call of `Null` returns its output, and ends as `how`.
fn gives_nothing<H: Hold<Null>>(alloc: Global, held: &mut H, how: How) -> bool {
    let nothing = ();
    match memoized(alloc, held, (), &nothing) {
        Ok(reply) => reply.output == 0 && reply.how == how,
        Err(_) => false,
    }
}

/// Whether calls are stored after each eviction by these evictors, and are hits in between.
fn are_evicted<R: Wait>(
    rt: &R,
    alloc: Global,
    evictors: &[Box<dyn Evict>],
    doubles: &Cache<Double>,
    nulls: &Cache<Null>,
) -> bool {
    let hows: &[How] = &[How::Stored, How::Hit, How::Stored];
    let mut is_so = true;
    for how in hows {
        if *how == How::Stored {
            evict(evictors, 0);
        }
        let is_doubled = doubles_seven(alloc, &mut doubles.hold(rt), *how);
        let is_nothing = gives_nothing(alloc, &mut nulls.hold(rt), *how);
        is_so = is_so && is_doubled && is_nothing;
    }
    is_so
}

#[test]
fn registered_evictors_evict_in_order(rt: HostRuntime) -> Result<(), AllocError> {
    let alloc = rt.alloc();
    let list: Arc<Mutex<Vec<u32>>, Global> = Arc::new(alloc, Mutex::new(Vec::new(alloc)))?;
    let doubles: Arc<Cache<Double>, Global> = Arc::new(alloc, Cache::new(alloc))?;
    let nulls: Arc<Cache<Null>, Global> = Arc::new(alloc, Cache::new(alloc))?;
    let first = Numbered::new(&rt, alloc, &doubles, 1, &list)?;
    let second = Numbered::new(&rt, alloc, &nulls, 2, &list)?;
    let mut evictors: Vec<Box<dyn Evict>> = Vec::new(alloc);
    assert!(rt; register_evictor(&mut evictors, first).is_ok());
    assert!(rt; register_evictor(&mut evictors, second).is_ok());
    assert!(rt; are_evicted(&rt, alloc, evictors.as_slice(), &doubles, &nulls));
    assert!(rt; list.lock(&rt).as_slice() == [1, 2, 1, 2].as_slice());
    Ok(())
}

#[test]
fn an_eviction_that_overtakes_a_hit_comes_before_or_after_its_touch(rt: HostRuntime) {
    let alloc = rt.alloc();
    let cache: Cache<Double> = Cache::new(alloc);
    let held = &mut cache.hold(&rt);
    assert!(rt; doubles_seven(alloc, held, How::Stored));
    let overtaken = &mut Overtaken {
        cache: &cache,
        held: cache.hold(&rt),
        rt: &rt,
        max_age: 3,
    };
    // An entry of age 0 counts as touched before the eviction. One of age 1 is looked up twice, and touched after the
    // next two evictions.
    let ages: &[usize] = &[1, 0];
    for age in ages {
        assert!(rt; doubles_seven(alloc, overtaken, How::Hit));
        assert!(rt; age_of_seven(held) == Some(*age));
    }
}
