//! Changes of OpenStreetMap objects within their limits, batches of changes, times, filters, and
//! what a form of change files is.
#![tactic(auto)]

pub mod batch;
pub mod change;
pub mod content;
pub mod data;
pub mod files;
pub mod filter;
pub mod flat;
pub mod form;
pub mod kind;
pub mod limits;
pub mod lists;
pub mod memory;
pub mod meta;
mod short;
pub mod text;
pub mod time;
