//! A mirror of all objects, with the edits counted by user and by changeset.
#![tactic(auto)]

pub mod counts;
pub mod laws;
pub mod mirror;
pub mod objects;
