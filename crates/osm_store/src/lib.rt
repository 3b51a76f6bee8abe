//! Files behind a trait: a store in memory, and one that stops.
#![tactic(auto)]

mod begun;
pub mod memory_store;
pub mod stopping_store;
pub mod store;
