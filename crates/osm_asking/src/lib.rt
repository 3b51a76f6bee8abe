//! Asking a save of any size and its journal: the objects with some keys, the counts of edits, and
//! the sum of all objects' lines.
#![tactic(auto)]

pub mod ask_fault;
mod at_end;
pub mod block;
mod block_sums;
pub mod choice;
mod chosen;
pub mod counts;
pub mod fault;
pub mod find;
pub mod fingerprint;
pub mod get;
mod json;
pub mod kept;
mod laid;
pub mod laws;
mod object_lines;
pub mod opening;
mod passing;
pub mod referred;
mod rows;
mod saved_objects;
pub mod side;
mod sum;
mod sums;
pub mod words;
