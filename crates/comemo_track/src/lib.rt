//! Tracked values, the views that read and write them, the sinks that record the calls, and the inputs that memoized
//! functions make of these.
//!
//! A view sends its calls to a recording. The recording stays valid for each value that answers them alike, so also
//! after a change that no call saw:
//!
//! ```rust
//! use comemo_examples::{Town, TownCall};
//! use comemo_track::{Constraint, Track};
//! use std::test::Fail;
//!
//! fn a_recording_holds_until_an_answer_changes(rt: HostRuntime) -> Result<(), Fail> {
//!     let mut town = Town {
//!         people: 900,
//!         degrees: 21,
//!     };
//!     let mut recording = Constraint::new(rt.alloc());
//!     let degrees = town
//!         .track(rt.alloc())
//!         .ask(TownCall::Degrees, &mut recording)?;
//!     assert_eq!(rt; degrees, 21);
//!     town.people = 1000;
//!     assert!(rt; recording.validate(&town)?);
//!     town.degrees = 4;
//!     assert!(rt; !recording.validate(&town)?);
//!     Ok(())
//! }
//! ```
//!
//! `Town` is of the crate `comemo_examples`. These lines run as a test in the crate `comemo_tests`, in
//! `src/examples.rt`, through the crate `comemo`, which has all that this one has.
#![tactic(auto)]

pub mod answer;
pub mod both;
pub mod both_mut;
pub mod constraint;
pub mod input;
pub mod mapped;
pub mod multi;
pub mod part;
pub mod read_and_write;
pub mod track;
pub mod tracked;
pub mod writing;

pub use answer::Answer;
pub use both::Both;
pub use both_mut::BothMut;
pub use constraint::Constraint;
pub use input::{Hashed, Input, Keyed, KeyedMut};
pub use mapped::{CallMap, MappedSink};
pub use multi::{First, Multi, MultiAnswer, MultiCall, Second};
pub use part::{LendPart, Part};
pub use read_and_write::ReadAndWrite;
pub use track::{Breaking, Call, Sink, Top, Track, TrackedWith, View, Written};
pub use tracked::Tracked;
pub use writing::{TrackedMut, TrackedMutWith};
