//! What a save and its journal keep together.
#![tactic(auto)]

mod batches;
pub mod ends;
pub mod fault;
pub mod found;
pub mod heads;
pub mod laid;
pub mod laws;
pub mod names;
pub mod net;
pub mod next;
mod own;
pub mod start;
