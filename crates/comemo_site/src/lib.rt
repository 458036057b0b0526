//! A small site builder: pages that include and link one another, rendered by memoized functions.
#![tactic(auto)]

pub mod address;
pub mod block;
pub mod build;
pub mod html;
pub mod link;
pub mod log;
pub mod names;
pub mod parse;
pub mod publish;
pub mod reason;
pub mod render;
pub mod report;
pub mod site;
pub mod table;
pub mod tally;
pub mod title;
pub mod warns;
