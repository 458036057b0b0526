//! Generic callers of values that keep their hash. Each shows what follows from the contracts alone.
ghost use Rattle.std.specs.Prelude.{◌≡◌, IsTrue};
ghost use Rattle.std.specs.Fn.{FnOnceReturnsAtMut};

use comemo_base::{Prehashed, Tagged, hash, hash_any};
use std::hash::Hash;

/// Whether two values are equal, and the hash of each. Equal values have the same hash, since they feed the same bytes.
pub fn compare<T: Hash + Tagged>(a: &Prehashed<T>, b: &Prehashed<T>) -> (bool, u128, u128)
    ensures { IsTrue result.0 → result.1 ≡ result.2 }
{
    (a == b, hash(a), hash(b))
}

/// Whether two values of one item are equal. They are, however each was made.
pub fn equals_a_second(item: u32) -> bool
    ensures { IsTrue result }
{
    Prehashed::from(item) == Prehashed::new(item)
}

/// The value of an item, made by `from` and by `new`. Both are the same.
pub fn make_both_ways<T: Hash + Tagged + Copy>(item: T) -> (Prehashed<T>, Prehashed<T>)
    ensures from { result.0 ≡ item }
    ensures new { result.1 ≡ result.0 }
{
    (Prehashed::from(item), Prehashed::new(item))
}

/// The item of the default value, which is a default of the item's type.
pub fn take_default<T: Hash + Tagged + Default>() -> T
    ensures { T.is_default result }
{
    let value: Prehashed<T> = Prehashed::default();
    value.into_inner()
}

/// The item of a value, borrowed and taken out. Both are the same.
pub fn read_and_take<T: Hash + Tagged + Copy>(value: Prehashed<T>) -> (T, T)
    ensures lent { result.0 ≡ value }
    ensures taken { result.1 ≡ value }
{
    let lent = *value;
    (lent, value.into_inner())
}

/// Changes the item of a value by a function, and returns the hash of the value and that of its new item's number. Both
/// are the same, since the number that the value feeds is that of the new item.
pub fn update_and_hash<T: Hash + Tagged, F: FnOnce(&mut T)>(
    value: &mut Prehashed<T>,
    change: F,
) -> (u128, u128)
    requires { F.IsAlwaysCallable change }
    ensures item { FnOnceReturnsAtMut F.FnOnce change value.old tt value.new }
    ensures number { result.0 ≡ result.1 }
{
    value.update(change);
    let item: &T = value;
    (hash(value), hash(&hash_any(item)))
}

#[cfg(test)]
mod tests {
    use super::*;
    use comemo_base::SipHasher13;
    use std::hash::Hasher;

    // The hash of some bytes, with both keys 0.
    fn number_of(bytes: &[u8]) -> u128 {
        let mut hasher = SipHasher13::new();
        hasher.write(bytes);
        hasher.finish128()
    }

    // Whether a value has the item 7, and not the other's item.
    fn is_seven(value: Prehashed<u32>, other: Prehashed<u32>) -> bool {
        let is_item = *value == 7;
        let is_equal = value == Prehashed::new(7);
        let is_other = value == other;
        let is_taken = value.into_inner() == 7;
        is_item && is_equal && !is_other && is_taken
    }

    // Whether a value and its clone keep their item when the value's own place is overwritten.
    fn stays_apart(mut value: Prehashed<u32>) -> bool {
        let copied = value;
        let Ok(cloned) = value.clone() else {
            return false;
        };
        let old = value.update(|item| {
            let old = *item;
            *item = 8;
            old
        });
        let is_changed = old == 7 && *value == 8;
        is_changed && is_seven(copied, value) && is_seven(cloned, value)
    }

    #[test]
    fn a_number_is_copied_and_cloned(rt: HostRuntime) {
        assert!(rt; stays_apart(Prehashed::new(7)));
    }

    #[test]
    fn generic_callers_see_what_they_were_given(rt: HostRuntime) {
        let (equal, first, second) = compare(&Prehashed::new(7u32), &Prehashed::new(8u32));
        assert!(rt; !equal);
        assert!(rt; first != second);
        assert!(rt; equals_a_second(7));
        let (from, new) = make_both_ways(-3i16);
        assert!(rt; from == new);
        assert!(rt; read_and_take(new) == (-3, -3));
        assert_eq!(rt; take_default::<u64>(), 0);
        let mut value = Prehashed::new(7u8);
        let number = number_of(&[1, 0, 0, 0, 0, 0, 0, 0, 9]);
        let fed = number_of(&number.to_le_bytes());
        assert!(rt; update_and_hash(&mut value, |item| *item = 9) == (fed, fed));
    }
}
