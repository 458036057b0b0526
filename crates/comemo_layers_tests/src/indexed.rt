//! An index of keys by the calls that they rest on, beside a plain list of what was noted of each key.
ghost use Rattle.std.specs.Prelude.{◌<◌, length};

use comemo::internal::CallSequence;
use comemo_dependents::Dependents;
use comemo_examples::Get;
use std::alloc::Global;

/// How many keys there are, from 0 on.
const KEYS: usize = 6;

/// How many places can be asked, from 0 on.
const PLACES: u32 = 10;

/// Whether the bit of a place is set.
fn has(places: u32, place: u32) -> bool
    requires { place < 32 }
{
    places & (1 << place) != 0
}

/// Reads of the places whose bits are set; `None` if out of memory.
fn reads_of(alloc: Global, places: u32) -> Option<CallSequence<Get, u64>> {
    let mut reads = CallSequence::new(alloc);
    for place in 0..PLACES {
        if has(places, place) && reads.insert(Get { place }, 7).is_err() {
            return None;
        }
    }
    Some(reads)
}

/// The calls of the places whose bits are set; `None` if out of memory.
fn calls_of(alloc: Global, places: u32) -> Option<Vec<Get>> {
    let mut calls = Vec::new(alloc);
    for place in 0..PLACES {
        if has(places, place) && calls.push(Get { place }).is_err() {
            return None;
        }
    }
    Some(calls)
}

/// Notes reads of a key, in the index and in the list. Where memory is refused, nothing is noted of the key.
fn note(alloc: Global, index: &mut Dependents<u64, Get>, noted: &mut [u32], key: usize, places: u32)
    requires { key < length noted.old }
{
    if let Some(reads) = reads_of(alloc, places) {
        let is_noted = index.note(key as u64, &reads).is_ok();
        noted[key] = if is_noted { places } else { 0 };
    }
}

/// Whether the keys that rest on one of these places are reached and no others, unless memory is refused.
fn is_exact(alloc: Global, index: &Dependents<u64, Get>, noted: &[u32], places: u32) -> bool {
    let Some(calls) = calls_of(alloc, places) else {
        return true;
    };
    let Ok(reached) = index.reached(calls.as_slice()) else {
        return true;
    };
    let len = reached.len();
    let mut found = 0_u64;
    for key in reached {
        found |= 1 << (*key % 64);
    }
    let mut wanted = 0_u64;
    for (key, own) in noted.iter().enumerate() {
        if *own & places != 0 {
            wanted |= 1 << (key % 64);
        }
    }
    found == wanted && u32::try_from(len) == Ok(wanted.count_ones())
}

/// Some of the places, by a random number.
fn some_places(random: u64) -> u32 {
    u32::try_from(random & (random >> 10) & 0x3ff).unwrap_or(0)
}

#[test]
fn an_index_reaches_what_a_list_does(rt: HostRuntime) {
    let alloc = rt.alloc();
    let mut index: Dependents<u64, Get> = Dependents::new(alloc);
    let mut noted = [0_u32; KEYS];
    let mut random = 1_u64;
    for step in 0..400_u32 {
        random = random
            .wrapping_mul(6364136223846793005)
            .wrapping_add(1442695040888963407);
        let key = (random >> 60) as usize % KEYS;
        if random >> 57 & 7 < 2 {
            index.remove(&(key as u64));
            noted[key] = 0;
        } else {
            note(
                alloc,
                &mut index,
                &mut noted,
                key,
                some_places(random >> 36),
            );
        }
        let asked = some_places(random >> 13);
        assert!(rt; is_exact(alloc, &index, &noted, asked), "step {step}");
        assert!(rt; is_exact(alloc, &index, &noted, 0x3ff), "step {step}");
    }
    for key in 0..KEYS {
        index.remove(&(key as u64));
        noted[key] = 0;
    }
    assert!(rt; is_exact(alloc, &index, &noted, 0x3ff));
}
