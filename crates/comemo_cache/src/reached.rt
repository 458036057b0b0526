//! What a change reaches: the keys whose runs asked given calls.
ghost use Rattle.std.specs.Prelude.{◌≡◌, IsTrue, IfOk, false};
ghost use Rattle.std.specs.List.{All, Any};
ghost use Rattle.comemo_tree.specs.Reach.{AsksUnder, asks_one};
ghost use Rattle.comemo_cache.specs.Reaching.{StaysUnreached};

use crate::cache::{CacheData, Function, Meant};
use std::alloc::AllocError;

impl<M: Function> CacheData<M> {
    /// The keys under which a kept run asked one of these calls, each once, by reference and in no particular order.
    ///
    /// If the answers change at these calls alone, look-ups under all other keys find what they found. Asks nothing.
    /// Linear in the nodes that there is room for, times the calls. Fails if out of memory.
    pub fn reached(&self, calls: &[M::Call]) -> Result<Vec<&M::Key>, AllocError>
        ensures all { IfOk result (λ keys. All (λ e. IsTrue (asks_one M.Call.eq calls.now e.path)
            → Any (λ k. IsTrue (M.Key.eq e.key k.now)) keys.items) self.now) }
        ensures only { IfOk result (λ keys.
            All (λ k. AsksUnder M.Call.eq calls.now M.Key.eq self.now k.now) keys.items) }
        ensures stays { IfOk result (λ keys. (key : M.Key)
            → All (λ k. M.Key.eq key k.now ≡ false) keys.items
            → StaysUnreached ⟦<M as Meant>⟧.meaning calls.now self.now key) }
    {
        let keys = self.tree.reached(calls)?;
        Ok(keys)
    }
}
