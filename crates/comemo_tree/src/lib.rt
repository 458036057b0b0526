//! The call tree on slabs: the map from keys and paths of calls to values in which memoized outputs are found. It has
//! the contracts of the plain tree of `comemo_plain`. A look-up follows one path, however many entries there are.
//!
//! A value is stored under a key and the calls that a run asked. It is found by their answers until a test drops it:
//!
//! ```rust
//! use comemo_base::CallSequence;
//! use comemo_tree::CallTree;
//! use std::test::Fail;
//!
//! fn what_is_stored_is_found_until_it_is_dropped(rt: HostRuntime) -> Result<(), Fail> {
//!     let mut run = CallSequence::new(rt.alloc());
//!     let _ = run.insert(b'a', 2)?;
//!     let mut tree: CallTree<u32, u8, u64, u64> = CallTree::new(rt.alloc());
//!     tree.insert(7, run, 20)?;
//!     let found = tree.get(&7, &mut |_: &u8| Ok(2))?;
//!     assert_eq!(rt; found.copied(), Some(20));
//!     tree.retain(|value: &mut u64| *value < 20);
//!     let gone = tree.get(&7, &mut |_: &u8| Ok(2))?;
//!     assert_eq!(rt; gone.copied(), None);
//!     Ok(())
//! }
//! ```
//!
//! These lines run as a test in the crate `comemo_tree_tests`, in `src/examples.rt`.
#![tactic(auto)]

mod change;
pub mod children;
mod ghost_key;
mod insertion;
mod print;
mod reach;
mod retention;
pub mod settled;
mod shape;
pub mod steps;
pub mod tree;
pub mod values;

pub use settled::{Asks, Settled};
pub use steps::{Keep, TreeOp, TreeReply};
pub use tree::CallTree;
pub use values::Values;
