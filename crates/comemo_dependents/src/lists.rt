//! The sets of keys of an index, one for each call that keys rest on.
ghost use Rattle.std.specs.Prelude.{◌≡◌, ◌&&◌, ◌||◌, not, true, false, IsTrue, OnOk, OnErr, IfOk};
ghost use Rattle.std.specs.List.{list_any};
ghost use Rattle.std.specs.HashSet.{contains, contains_by};
ghost use Rattle.comemo_base.specs.Sequence.{held};
ghost use Rattle.comemo_dependents.specs.Lists.{lists_key};

use comemo_base::CallSequence;
use comemo_track::Call;
use std::alloc::{AllocError, Global};
use std::collections::{HashMap, HashSet};
use std::hash::Hash;

/// The keys that rest on each call.
pub(crate) type Lists<K, C> = HashMap<C, HashSet<K>>;

/// Clones of the calls of reads.
pub(crate) fn calls_of<C: Call + Drop, R>(
    alloc: Global,
    reads: &CallSequence<C, R>,
) -> Result<Vec<C>, AllocError>
    ensures { IfOk result (λ calls. (call : C)
        → list_any (C.eq call) calls.items ≡ held C.eq reads.now.pairs call) }
{
    let mut calls = Vec::new(alloc);
    for slot in reads.slots() {
        let Some((call, _)) = slot else {
            continue;
        };
        calls.push(call.clone()?)?;
    }
    Ok(calls)
}

/// Lists a key under a call. On error no list changes.
fn link<K: Eq + Hash + Drop, C: Call + Drop>(
    alloc: Global,
    lists: &mut Lists<K, C>,
    call: &C,
    key: K,
) -> Result<(), AllocError>
    ensures ok { OnOk result ((c : C) (k : K) → lists_key K.eq C.eq lists.new c k
        ≡ ((C.eq c call.now && K.eq k key) || lists_key K.eq C.eq lists.old c k)) }
    ensures err { OnErr result ((c : C) (k : K)
        → lists_key K.eq C.eq lists.new c k ≡ lists_key K.eq C.eq lists.old c k) }
{
    if let Some(keys) = lists.get_mut(call) {
        keys.insert(key)?;
        return Ok(());
    }
    let mut keys = HashSet::new(alloc);
    keys.insert(key)?;
    lists.insert(call.clone()?, keys)?;
    Ok(())
}

/// Lists a key under each call of reads. On error under some of them.
pub(crate) fn link_all<K: Clone + Eq + Hash + Drop, C: Call + Drop, R>(
    alloc: Global,
    lists: &mut Lists<K, C>,
    key: &K,
    reads: &CallSequence<C, R>,
) -> Result<(), AllocError>
    requires clones_equal { (x y : K) → K.is_clone x y → IsTrue (K.eq x y) }
    ensures ok { OnOk result ((c : C) (k : K) → lists_key K.eq C.eq lists.new c k
        ≡ (lists_key K.eq C.eq lists.old c k || (K.eq k key.now && held C.eq reads.now.pairs c))) }
    ensures within { (c : C) (k : K) → lists_key K.eq C.eq lists.new c k ≡ true
        → (lists_key K.eq C.eq lists.old c k || (K.eq k key.now && held C.eq reads.now.pairs c)) ≡ true }
    ensures others { (c : C) (k : K) → K.eq k key.now ≡ false
        → lists_key K.eq C.eq lists.new c k ≡ lists_key K.eq C.eq lists.old c k }
{
    for slot in reads.slots() {
        let Some((call, _)) = slot else {
            continue;
        };
        link(alloc, lists, call, key.clone()?)?;
    }
    Ok(())
}

/// Takes a key from the list of a call, and drops the list if it is empty then.
fn unlink<K: Eq + Hash + Drop, C: Call + Drop>(lists: &mut Lists<K, C>, call: &C, key: &K)
    ensures { (c : C) (k : K) → lists_key K.eq C.eq lists.new c k
        ≡ (lists_key K.eq C.eq lists.old c k && not (C.eq c call.now && K.eq k key.now)) }
{
    let Some(keys) = lists.get_mut(call) else {
        return;
    };
    keys.remove(key);
    let is_empty = keys.is_empty();
    if is_empty {
        lists.remove(call);
    }
}

/// Takes a key from the lists of these calls.
pub(crate) fn unlink_all<K: Eq + Hash + Drop, C: Call + Drop>(
    lists: &mut Lists<K, C>,
    calls: &[C],
    key: &K,
)
    ensures { (c : C) (k : K) → lists_key K.eq C.eq lists.new c k
        ≡ (lists_key K.eq C.eq lists.old c k
        && not (K.eq k key.now && list_any (C.eq c) calls.now)) }
{
    for call in calls {
        unlink(lists, call, key);
    }
}

/// Takes in the keys of a list.
pub(crate) fn take_in<'a, K: Eq + Hash>(
    reached: &mut HashSet<&'a K>,
    keys: &'a HashSet<K>,
) -> Result<(), AllocError>
    ensures { OnOk result ((k : K) → contains_by (λ r. K.eq k r.now) reached.new
        ≡ (contains_by (λ r. K.eq k r.now) reached.old || contains K.eq keys.now k)) }
{
    for key in keys {
        reached.insert(key)?;
    }
    Ok(())
}
