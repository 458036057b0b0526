//! A key that only contracts read.
ghost use Rattle.std.specs.Prelude.{◌≡◌};
ghost use base.Fml.{ftrue};

use std::marker::{Model, PhantomData, Send, Sync};

/// A key without bytes, which only contracts read. Unlike the kit's `Snapshot`, a lock that holds it can be shared by
/// threads.
pub struct GhostKey<K> {
    marker: PhantomData<K>,
    pub ghost value: { K },
}

impl<K> Model for GhostKey<K> {
    ghost also_owns = { λ _. ftrue };
}

impl<K> GhostKey<K> {
    /// A key as it is now.
    pub(crate) fn of(key: &K) -> GhostKey<K>
        ensures { result.value ≡ key.now }
    {
        // Only the contract uses it.
        let _ = key;
        GhostKey {
            marker: PhantomData,
        }
    }
}

// It owns nothing, so any thread may own or share it.
unsafe impl<K> Send for GhostKey<K> {}

unsafe impl<K> Sync for GhostKey<K> {}

impl<K> Drop for GhostKey<K> {
    fn drop(self) {
        let Self { marker: _ } = self;
    }
}
