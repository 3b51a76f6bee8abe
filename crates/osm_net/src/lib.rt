//! Net changes: what many changes leave, to be laid over a mirror at once.
#![tactic(auto)]

mod counting;
mod index;
pub mod laws;
pub mod lists;
pub mod net;
pub mod objects;
mod recent;
mod slots;
