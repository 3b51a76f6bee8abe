//! A world of events: a publisher, its archive and a follower, and the laws of its histories.
#![tactic(auto)]

pub mod event;
pub mod laws;
pub mod world;
