//! A run of the follower over a folder, which holds only new sequences in memory.
#![tactic(auto)]

mod gathered;
mod keeping;
pub mod kept;
mod news;
mod put;
mod round;
mod taken;
