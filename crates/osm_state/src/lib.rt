//! States of published sequences: reading and writing `state.txt`, and the paths of the files of a
//! sequence.
#![tactic(auto)]

pub mod laws;
pub mod paths;
mod properties;
pub mod state;
pub mod state_text;
