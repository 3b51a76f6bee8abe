//! A follower of numbered sequences.
#![tactic(auto)]

pub mod begin;
pub mod delivery;
mod drain;
pub mod follower;
pub mod lag;
pub mod laws;
pub mod restart;
pub mod view;
