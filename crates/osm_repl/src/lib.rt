//! Carries out what the command line asks for, and says how a run ends.
#![tactic(auto)]

mod asking;
mod auditing;
pub mod causes;
pub mod checks;
pub mod ending;
pub mod execution;
pub mod fields;
pub mod notes;
mod numbers;
pub mod order_fault;
mod printing;
mod ranges;
pub mod refusal;
mod refused;
pub mod sizes;
mod sought;
mod summing;
pub mod twice;
