//! The base of constrained memoization: SipHash-1-3-128, values with their hash, sequences of calls, and the definition
//! of a call tree. The crate `comemo_tree` has the tree that caches use, and `comemo_plain` one that is a plain list.
//!
//! A sequence has the calls that a run asked, each with its answer. It takes in a call once, and remembers a call whose
//! pair was taken out:
//!
//! ```rust
//! use comemo_base::CallSequence;
//! use std::test::Fail;
//!
//! fn a_sequence_takes_in_a_call_once(rt: HostRuntime) -> Result<(), Fail> {
//!     let mut run: CallSequence<u8, u64> = CallSequence::new(rt.alloc());
//!     let _ = run.insert(b'a', 10)?;
//!     let _ = run.insert(b'b', 20)?;
//!     assert_eq!(rt; run.extract(&b'b'), Some(20));
//!     assert_eq!(rt; run.insert(b'b', 30)?, false);
//!     assert_eq!(rt; run.next(), Some((b'a', 10)));
//!     assert_eq!(rt; run.next(), None);
//!     Ok(())
//! }
//! ```
//!
//! These lines run as a test in the crate `comemo_tree_tests`, in `src/examples.rt`.
#![tactic(auto)]

pub mod hashing;
pub mod insertion;
pub(crate) mod places;
pub mod sequence;
pub mod sip;
pub mod tags;

pub use hashing::{Prehashed, hash, hash_any};
pub use insertion::InsertError;
pub use sequence::CallSequence;
pub use sip::SipHasher13;
pub use tags::Tagged;
