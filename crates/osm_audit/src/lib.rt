//! Audits of a folder: what is wrong with the files of a range of numbers.
#![tactic(auto)]

pub mod audit;
mod changes;
mod contents;
pub mod finding;
pub mod laws;
mod numbers;
pub mod report;
mod states;
mod texts;
