//! What a range of numbers comes to: reading it, handing on what changed, and counting it.
#![tactic(auto)]

mod cells;
pub mod changes;
pub mod changes_laws;
mod collected;
pub mod columns;
mod combination;
mod counted;
mod csv;
mod json;
pub mod latest;
pub mod range;
mod reading;
pub mod report;
mod table;
pub mod taker;
mod taking;
pub mod tally;
pub mod tally_laws;
mod text;
mod writing;
