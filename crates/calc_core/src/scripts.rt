//! Scripts of the program `calc`: their parts, and what they mean.
//!
//! A script is numbers and calls `eval PATH` of scripts in files, with `+` between them. Its value depends on the
//! files; this module needs none. It cuts a script into parts, and adds up their values.
//!
//! ```rust
//! use calc_core::scripts::{CalcFault, Outcome, Part, Parts, Total};
//!
//! let mut parts = Parts::new("-7 + eval a");
//! assert_eq!(rt; parts.next(), Some(Part::Number(-7)));
//! assert_eq!(rt; parts.next(), Some(Part::Eval("a")));
//! assert_eq!(rt; parts.next(), None);
//!
//! let mut total = Total::new();
//! let most = Outcome { value: Ok(i32::MAX), height: 1 };
//! assert_eq!(rt; total.add(most), Ok(()));
//! assert_eq!(rt; total.add(most), Err(CalcFault::Overflow));
//! ```

pub mod outcome;
pub mod part;

pub use outcome::{CalcFault, Outcome, Total};
pub use part::{Part, Parts};
