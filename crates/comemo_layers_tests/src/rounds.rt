//! Calls in a row, for which a value that keeps its answers is asked each question once.
ghost use Rattle.std.specs.Prelude.{◌≡◌, ◌+◌, ◌%◌, ◌^◌, ℕ, IfOk, ⊤, nat_eq};
ghost use Rattle.comemo_cutoff.specs.declared.cells.Get.{Get};

use crate::counted::{Counted, Pair};
use comemo::{CacheData, Fault, Track, memoized};
use comemo_cutoff::Get;
use comemo_kept::{Job, KeptShared, Says, with_kept};
use std::alloc::{AllocError, Global};
use std::marker::{Brand, Send, Sync};
use std::sync::Wait;
use std::test::Fail;
use std::thread::{Threads, map_indices};

/// The total of the sums of neighbours, for the first places. Fails if out of memory.
fn sums<T: Track<Call = Get, Answer = u64>>(
    alloc: Global,
    count: u32,
    of: &T,
) -> Result<u64, AllocError> {
    let mut cache: CacheData<Pair> = CacheData::new(alloc);
    let mut total = 0u64;
    for place in 0..count {
        match memoized(alloc, &mut cache, (place, place.wrapping_add(1)), of) {
            Ok(reply) => total = total.wrapping_add(reply.output),
            Err(_) => return Err(AllocError),
        }
    }
    Ok(total)
}

/// The total of the sums of neighbours, for the first places.
#[derive(Drop)]
struct AllSums {
    alloc: Global,
    count: u32,
}

impl Job<Get, u64> for AllSums {
    type Output = Result<u64, AllocError>;

    // the test compares totals
    ghost gives = { λ _ _ _. ⊤ };

    fn run_on<T: Track<Call = Get, Answer = u64>>(self, value: &T) -> Result<u64, AllocError> {
        sums(self.alloc, self.count, value)
    }
}

/// The sum of the numbers at two places.
#[derive(Drop)]
struct OneSum {
    alloc: Global,
    places: (u32, u32),
}

impl Job<Get, u64> for OneSum {
    type Output = Result<u64, Fault>;

    ghost gives = { λ job m result. IfOk result (λ sum. sum
        ≡ (m (record { place = job.places.0 }) + m (record { place = job.places.1 })) % 2 ^ 64) };

    fn run_on<T: Track<Call = Get, Answer = u64>>(self, value: &T) -> Result<u64, Fault> {
        let mut cache: CacheData<Pair> = CacheData::new(self.alloc);
        let reply = memoized(self.alloc, &mut cache, self.places, value)?;
        Ok(reply.output)
    }
}

/// The sum at two places of a value that keeps its answers.
fn sum_of_kept(alloc: Global, of: &Counted, places: (u32, u32)) -> Result<u64, Fault>
    ensures { IfOk result (λ sum. sum ≡ (of.now.number + of.now.number) % 2 ^ 64) }
{
    with_kept(alloc, of, OneSum { alloc, places })
}

/// The totals of as many threads, added up. Fails if out of memory.
fn sums_in_threads<R: Threads + Sync, T: Track<Call = Get, Answer = u64> + Sync>(
    rt: &R,
    alloc: Global,
    threads: usize,
    of: &T,
) -> Result<u64, AllocError> {
    let mut all = 0u64;
    for total in map_indices(rt, alloc, threads, &|_| sums(alloc, 100, of))? {
        all = all.wrapping_add(total?);
    }
    Ok(all)
}

/// The totals of threads that share what a value keeps, and how often it was asked then; twice in a row.
fn asked_in_threads<R: Threads + Wait + Sync, B: Says<Get, u64> + Send + Sync>(
    rt: &R,
    alloc: Global,
    threads: usize,
    of: &Counted,
) -> Result<[(u64, u64); 2], AllocError>
    requires { (call : Get) (answer : ℕ) → B.says call answer ≡ nat_eq of.now.number answer }
{
    let kept: KeptShared<'_, Counted, R, B> = KeptShared::new(alloc, rt, of);
    let first = sums_in_threads(rt, alloc, threads, &kept)?;
    let asked = of.asked();
    let second = sums_in_threads(rt, alloc, threads, &kept)?;
    Ok([(first, asked), (second, of.asked())])
}

#[test]
fn a_kept_answer_is_asked_once(rt: HostRuntime) -> Result<(), Fail> {
    let alloc = rt.alloc();
    let value = Counted::new(7);
    let plain = sums(alloc, 100, &value)?;
    assert_eq!(rt; value.asked(), 200);
    let total = with_kept(alloc, &value, AllSums { alloc, count: 100 })?;
    assert_eq!(rt; total, plain);
    assert_eq!(rt; value.asked(), 301);
    assert_eq!(rt; sum_of_kept(alloc, &value, (3, 3))?, 14);
    assert_eq!(rt; value.asked(), 302);
    Ok(())
}

#[test]
fn threads_share_what_is_kept(rt: HostRuntime) -> Result<(), Fail> {
    let alloc = rt.alloc();
    for (threads, total, most) in [(1, 1400, 101), (4, 5600, 404)] {
        let value = Counted::new(7);
        let [first, second] = asked_in_threads::<_, Brand>(&rt, alloc, threads, &value)?;
        assert_eq!(rt; first.0, total);
        assert!(rt;
            101 <= first.1 && first.1 <= most,
            "{threads} threads asked {} times",
            first.1
        );
        assert_eq!(rt; second, (total, first.1));
    }
    Ok(())
}
