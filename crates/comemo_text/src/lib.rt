//! Texts and lists for keys, calls and answers: contracts see the bytes or the items, and clones share them.
#![tactic(auto)]

mod items;
mod text;

pub use items::Items;
pub use text::Text;
