//! Sequences that came early, held by number until the sequences before them are applied.
#![tactic(auto)]

pub mod holding;
pub mod laws;
