//! Tracked values, and memoized functions of them as a user of the library writes them: from one that asks nothing to
//! ones that call others, call themselves or write.
//!
//! How warm a town is, asked before it grows and after:
//!
//! ```rust
//! use comemo::{CacheData, How, memoized};
//! use comemo_examples::Town;
//! use comemo_examples::warmth::Warmth;
//!
//! let mut cache: CacheData<Warmth> = CacheData::new(alloc);
//! let mut town = Town { people: 900, degrees: 21 };
//! let first = memoized(alloc, &mut cache, (), &town)?;
//! assert_eq!(rt; (first.output, first.how), (21, How::Stored));
//!
//! town.people = 7000;
//! let grown = memoized(alloc, &mut cache, (), &town)?;
//! assert_eq!(rt; (grown.output, grown.how), (21, How::Hit));
//! ```
//!
//! Each function states which questions a run asks, since its output is kept under them. A run fails with
//! `Fault::Memory` if out of memory for an answer, the recording or its output. One that calls others passes on their
//! faults.
//!
//! An emitter and a log are only written, a counter and a notebook are read and written, and the other values are only
//! read. A read that returns a number does not allocate and never fails:
//!
//! ```rust
//! use comemo::{Top, Track};
//! use comemo_examples::{Cells, Counter, CounterCall, Emitter, EmitterCall, Get};
//!
//! let mut cells = Cells::new(alloc, 3)?;
//! assert_eq!(rt; cells.ask(&Get { place: 2 }), Ok(7));
//! cells.set(2, 40);
//! assert_eq!(rt; cells.ask(&Get { place: 2 }), Ok(40));
//! assert_eq!(rt; cells.ask(&Get { place: 3 }), Ok(0));
//!
//! let mut emitter = Emitter::new(alloc);
//! for text in ["to", "day"] {
//!     let emit = EmitterCall::Emit(String::from_str(alloc, text)?);
//!     emitter.track_mut(alloc).write(emit, &mut Top::new())?;
//! }
//! assert_eq!(rt; emitter.text(), "today");
//!
//! let mut counter = Counter { number: u64::MAX };
//! counter.track_mut(alloc).write(CounterCall::Add(3), &mut Top::new())?;
//! assert_eq!(rt; counter.number, 2);
//! ```
#![tactic(auto)]

pub mod adding;
pub mod all_equal;
pub mod both_pass;
pub mod both_written;
pub mod cells;
pub mod chains;
pub mod contexts;
pub mod counter;
pub mod double;
pub mod emitter;
pub mod greetings;
pub mod kinds;
pub mod late;
pub mod letters;
pub mod listing;
pub mod loader;
pub mod log;
pub mod notebook;
pub mod numbers;
pub mod orders;
pub mod passes;
pub mod places;
pub mod read_and_write;
pub mod region;
pub mod report;
pub mod ruler;
pub mod sequences;
pub mod several;
pub mod shared;
pub mod tally;
pub mod texts;
pub mod totals;
pub mod town;
pub mod warmth;

pub use cells::{Cells, Get};
pub use contexts::{Context, ContextCall, Page, Place, Row};
pub use counter::{Counter, CounterCall};
pub use emitter::{Emitter, EmitterCall};
pub use log::{Log, LogCall};
pub use notebook::{Notebook, NotebookCall};
pub use town::{Town, TownCall};
