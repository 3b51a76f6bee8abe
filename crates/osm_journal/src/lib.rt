//! The text of a journal: the batches that a follower has taken since its save was written. A text
//! spells at most one journal.
#![tactic(auto)]

pub mod batch;
pub mod journal;
pub mod opening;
