//! Checks save texts and merges them with net changes, in blocks over a store.
#![tactic(auto)]

pub mod check;
mod counting;
pub mod counts;
pub mod fault;
pub mod lists;
pub mod merge;
pub mod objects;
pub mod opening;
pub mod passing;
pub mod source;
