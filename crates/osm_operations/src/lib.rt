//! What may happen to a folder and a save, in any order, and what is true afterwards.
#![tactic(auto)]

pub mod bases;
pub mod laws;
pub mod operation;
mod runs;
pub mod whole_folders;
pub mod world;
