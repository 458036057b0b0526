//! Where the calls of a sequence lie: the first few in a list, later ones in a map. Calls are looked up in constant
//! expected time.
ghost use Rattle.std.specs.Prelude.{◌≡◌, ◌≤◌, ◌<◌, ◌+◌, [], None, true, false, length, IsOk, OnOk, OnErr, MatchOption};
ghost use Rattle.std.specs.List.{All, AllWithin, HoldsAt};
ghost use Rattle.comemo_base.specs.Slots.{place_of, PutsAt, KeepsBut};

use std::alloc::{AllocError, Global};
use std::collections::HashMap;
use std::hash::Hash;
use std::marker::Model;

/// How many calls the list holds.
///
/// Most runs ask few calls. A map's first entry allocates three times and hashes each call; a list allocates once, and
/// comparing two calls mostly compares a word or two.
const FEW: usize = 8;

/// A map from calls to places, one word long until it has a call: most sequences never need it, and are moved more
/// often than asked.
#[derive(Drop)]
struct Many<C: Eq + Hash> {
    alloc: Global,
    map: Option<Box<HashMap<C, usize>>>,
}

impl<C: Eq + Hash> Model for Many<C> {
    ghost use Rattle.std.specs.HashMap.{spare};
    ghost use Rattle.comemo_base.specs.Slots.{Places as Kept, places_code, entries_of_map, spare_of_map};

    ghost Value = { Kept C };

    ghost coded = { places_code C.code };

    ghost view = { λ s. record { entries = entries_of_map s.map; room = spare_of_map s.map } };
}

impl<C: Eq + Hash> Many<C> {
    /// An empty map. Does not allocate.
    fn new(alloc: Global) -> Self
        ensures { result.entries ≡ [] }
    {
        Many { alloc, map: None }
    }

    /// The place of a call, if it has one.
    fn get(&self, call: &C) -> Option<usize>
        ensures { result ≡ place_of C.eq self.now call.now }
    {
        match &self.map {
            Some(map) => map.get(call).copied(),
            None => None,
        }
    }

    /// Makes room for more calls; for 0 it does not allocate.
    ///
    /// Not inlined, as `insert`: the caller would pay for all its locals, and a map is large.
    #[inline(never)]
    fn reserve(&mut self, more: usize) -> Result<(), AllocError>
    where
        C: Drop,
        ensures same { (call : C) → place_of C.eq self.new call ≡ place_of C.eq self.old call }
        ensures room { OnOk result (more ≤ self.new.room) }
        ensures err { OnErr result (self.new.entries ≡ self.old.entries) }
    {
        if more == 0 {
            return Ok(());
        }
        let mut map = match self.map.take() {
            Some(map) => map,
            None => Box::new(self.alloc, HashMap::new(self.alloc))?,
        };
        let made = map.reserve(more);
        self.map = Some(map);
        made
    }

    /// Puts a call at a place. On error no place changes.
    #[inline(never)]
    fn insert(&mut self, call: C, place: usize) -> Result<(), AllocError>
    where
        C: Drop,
        ensures put { OnOk result (PutsAt C.eq call place self.old self.new) }
        ensures room { self.old.room ≤ self.new.room + 1 }
        ensures succeeds { 0 < self.old.room → IsOk result }
        ensures err { OnErr result (self.new.entries ≡ self.old.entries) }
    {
        let mut map = match self.map.take() {
            Some(map) => map,
            None => Box::new(self.alloc, HashMap::new(self.alloc))?,
        };
        let put = map.insert(call, place);
        self.map = Some(map);
        match put {
            Ok(_) => Ok(()),
            Err(_) => Err(AllocError),
        }
    }

    /// Takes out a call's place, and returns the call that was stored.
    fn take(&mut self, call: &C) -> Option<C>
        ensures found { MatchOption result (place_of C.eq self.old call.now ≡ None)
            (λ known. C.eq call.now known ≡ true) }
        ensures others { KeepsBut C.eq call.now self.old self.new }
    {
        let Some(map) = &mut self.map else {
            return None;
        };
        let (known, _) = map.remove_entry(call)?;
        Some(known)
    }
}

/// The place of each call ever seen. No two of the calls are equal.
#[derive(Drop)]
pub(crate) struct Places<C: Eq + Hash> {
    // The first calls, compared one by one.
    few: Vec<(C, usize)>,
    // Calls that came when `few` was full.
    many: Many<C>,
}

impl<C: Eq + Hash> Model for Places<C> {
    ghost use Rattle.std.specs.Prelude.{◌++◌, vec_len, vec_capacity};
    ghost use Rattle.comemo_base.specs.Slots.{Places as Kept, places_code, room_of};

    ghost Value = { Kept C };

    ghost coded = { places_code C.code };

    ghost view = { λ s. record {
      entries = s.few.items ++ s.many.entries;
      room = room_of (vec_len s.few) (vec_capacity s.few) s.many.room;
    } };
}

/// The index of a call in a list.
fn position<C: Eq>(list: &[(C, usize)], call: &C) -> Option<usize>
    ensures { MatchOption result (All (λ e. C.eq call.now e.0 ≡ false) list.now)
        (λ at. (at < length list.now) × AllWithin (λ e. C.eq call.now e.0 ≡ false) list.now 0 at
        × HoldsAt (λ e. C.eq call.now e.0 ≡ true) list.now at) }
{
    for (at, entry) in list.iter().enumerate() {
        if *call == entry.0 {
            return Some(at);
        }
    }
    None
}

impl<C: Eq + Hash> Places<C> {
    /// No places. Does not allocate.
    pub(crate) fn new(alloc: Global) -> Self
        ensures { result.entries ≡ [] }
    {
        Places {
            few: Vec::new(alloc),
            many: Many::new(alloc),
        }
    }

    /// The place of a call, if it was seen.
    pub(crate) fn get(&self, call: &C) -> Option<usize>
        ensures { result ≡ place_of C.eq self.now call.now }
    {
        if let Some(at) = position(self.few.as_slice(), call) {
            return Some(self.few[at].1);
        }
        self.many.get(call)
    }

    /// Makes room for more calls, so that inserting them does not allocate.
    pub(crate) fn reserve(&mut self, more: usize) -> Result<(), AllocError>
    where
        C: Drop,
        ensures same { (call : C) → place_of C.eq self.new call ≡ place_of C.eq self.old call }
        ensures room { OnOk result (more ≤ self.new.room) }
        ensures err { OnErr result (self.new.entries ≡ self.old.entries) }
    {
        let free = FEW.saturating_sub(self.few.len());
        self.few.reserve(free)?;
        self.many.reserve(more.saturating_sub(free))
    }

    /// Puts a call that was never seen at a place. On error no place changes.
    pub(crate) fn insert(&mut self, call: C, place: usize) -> Result<(), AllocError>
    where
        C: Drop,
        requires new { place_of C.eq self.old call ≡ None }
        ensures put { OnOk result (PutsAt C.eq call place self.old self.new) }
        ensures room { self.old.room ≤ self.new.room + 1 }
        ensures succeeds { 0 < self.old.room → IsOk result }
        ensures err { OnErr result (self.new.entries ≡ self.old.entries) }
    {
        let len = self.few.len();
        if len < FEW {
            self.few.reserve(FEW - len)?;
            self.few.push_reserved((call, place));
            return Ok(());
        }
        self.many.insert(call, place)?;
        Ok(())
    }

    /// Takes out a call's place, and returns the call that was stored.
    pub(crate) fn take(&mut self, call: &C) -> Option<C>
        ensures found { MatchOption result (place_of C.eq self.old call.now ≡ None)
            (λ known. C.eq call.now known ≡ true) }
        ensures others { KeepsBut C.eq call.now self.old self.new }
    {
        if let Some(at) = position(self.few.as_slice(), call) {
            let (known, _) = self.few.remove(at);
            return Some(known);
        }
        self.many.take(call)
    }
}
