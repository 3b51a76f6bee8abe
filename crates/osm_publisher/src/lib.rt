//! A publisher of numbered sequences, and the texts of a published sequence.
#![tactic(auto)]

pub mod published;
pub mod publisher;
