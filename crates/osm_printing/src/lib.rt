//! The show text of a save of any size, printed block by block.
#![tactic(auto)]

mod copy;
pub mod kept;
mod laid;
mod parts;
mod printer;
pub mod show;
mod start;
