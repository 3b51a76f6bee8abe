//! Begins a save with a data file.
#![tactic(auto)]

mod base;
mod begin;
mod counting;
mod journal;
pub mod kept;
mod sinks;
mod start;
mod writing;
