//! Plain, slow judges of the replies of a world, for tests. The contract of each is the definition
//! that it computes.
#![tactic(auto)]

pub mod breaks;
pub mod history;
pub mod judge;
pub mod legal;
pub mod plain;
mod reading;
pub mod views;
