//! What a save holds with net changes laid over it, read object by object and count by count.
#![tactic(auto)]

pub mod counts;
pub mod laws;
pub mod objects;
pub mod opening;
