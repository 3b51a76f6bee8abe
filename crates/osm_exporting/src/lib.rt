//! Exports the objects of a save of any size to a data file, while they are read.
#![tactic(auto)]

mod copy;
mod data_writer;
mod flat_writer;
pub mod kept;
mod laid;
mod objects;
