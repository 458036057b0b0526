//! A list of evictors, owned by its maker: one call evicts all their caches.
ghost use Rattle.std.specs.Prelude.{◌≡◌, ◌++◌, ◌∷◌, [], OnOk, OnErr};

use crate::eviction::Evict;
use std::alloc::AllocError;

/// Appends an evictor to a list. On error the list is unchanged, and the evictor is dropped.
pub fn register_evictor(
    list: &mut Vec<Box<dyn Evict>>,
    evictor: Box<dyn Evict>,
) -> Result<(), AllocError>
    ensures added { OnOk result (list.new.items ≡ list.old.items ++ evictor ∷ []) }
    ensures err { OnErr result (list.new.items ≡ list.old.items) }
{
    list.push(evictor)?;
    Ok(())
}

/// Runs each evictor of a list, in order, with the same bound.
pub fn evict(list: &[Box<dyn Evict>], max_age: usize) {
    for evictor in list {
        evictor.evict(max_age);
    }
}
