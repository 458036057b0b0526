//! A list that contracts see as its items, and whose clones share them.
ghost use Rattle.std.specs.Prelude.{◌≡◌, IfOk};
ghost use Rattle.std.specs.Cmp.Lexicographic.{pointwise, slice_cmp, slice_partial_cmp, lists_equiv, lists_agrees, lists_total, lists_ties, lists_per, lists_po};
ghost use Rattle.comemo_text.specs.Lists.{equal_if_same};

use comemo::Answer;
use std::alloc::AllocError;
use std::cmp::Ordering;
use std::fmt;
use std::fmt::{Debug, Formatter, Write};
use std::marker::Model;
use std::sync::ArcSlice;

/// A list for answers and outputs: contracts see its items, and its clones share them.
///
/// Two `Vec`s of the same items are not one value, since each has its own allocation. Two `Items` are.
#[derive(Drop)]
pub struct Items<T> {
    shared: ArcSlice<T>,
}

impl<T> Model for Items<T> {
    ghost use Rattle.std.specs.Prelude.{List};
    ghost use Rattle.std.specs.Coded.{coded_list};
    ghost use Rattle.std.specs.Arc.{arc_slice_items};

    ghost Value = { List T };

    ghost coded = { coded_list T.code };

    ghost view = { λ items. arc_slice_items items.shared };
}

impl<T> Items<T> {
    /// The items, in order.
    pub fn as_slice(&self) -> &[T]
        ensures { result.now ≡ self.now }
    {
        self.shared.as_slice()
    }
}

impl<T: Drop> Items<T> {
    /// The items of a `Vec`, which are not copied. Fails if out of memory.
    pub fn new(list: Vec<T>) -> Result<Self, AllocError>
        ensures { IfOk result (λ items. items ≡ list.items) }
    {
        let shared = ArcSlice::from_vec(list)?;
        Ok(Items { shared })
    }
}

impl<T: Drop> Clone for Items<T> {
    ghost is_clone = { λ items copy. copy ≡ items };

    fn clone(&self) -> Result<Self, AllocError> {
        let shared = self.shared.clone()?;
        Ok(Items { shared })
    }
}

impl<T: PartialEq> PartialEq for Items<T> {
    ghost eq = { pointwise T.eq };

    ghost laws = { lists_per T.laws };

    fn eq(&self, other: &Self) -> bool {
        self.as_slice() == other.as_slice()
    }
}

impl<T: Eq> Eq for Items<T> {
    ghost laws = { lists_equiv T.Eq.laws };
}

impl<T: PartialOrd> PartialOrd for Items<T> {
    ghost partial_cmp = { slice_partial_cmp T.partial_cmp };

    ghost laws = { lists_po T.PartialOrd.laws };

    fn partial_cmp(&self, other: &Self) -> Option<Ordering> {
        self.as_slice().partial_cmp(&other.as_slice())
    }
}

impl<T: Ord> Ord for Items<T> {
    ghost cmp = { slice_cmp T.cmp };

    ghost total = { lists_total T.total };

    ghost matches_partial_cmp = { λ x y. lists_agrees T.matches_partial_cmp x y };

    ghost matches_eq = { λ x y. lists_ties T.cmp T.matches_eq x y };

    fn cmp(&self, other: &Self) -> Ordering {
        self.as_slice().cmp(&other.as_slice())
    }
}

impl<T: Debug> Debug for Items<T> {
    fn fmt<W: Write>(&self, f: &mut Formatter<W>) -> fmt::Result {
        f.debug_list().slice(self.as_slice()).finish()
    }
}

impl<T: Ord + Drop> Answer for Items<T> {
    ghost clones = { equal_if_same (lists_equiv T.Eq.laws) };
}
