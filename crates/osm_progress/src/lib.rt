//! The progress of a run over a folder: a watched store, and what its reads say.
#![tactic(auto)]

pub mod course;
pub mod progress;
pub mod watched_store;
