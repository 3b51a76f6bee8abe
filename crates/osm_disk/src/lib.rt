//! Files on the disk, each replaced whole, and locks.
#![tactic(auto)]

pub mod disk_store;
pub mod lock;
pub mod names;
mod opened;
pub mod opening;
pub mod places;
pub mod reading;
mod replacing;
mod rights;
