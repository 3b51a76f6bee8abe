//! OPL, the line format for OpenStreetMap changes: files, their lines, and the texts in a line.
#![tactic(auto)]

mod after;
mod after_coordinates;
mod after_lists;
mod after_texts;
mod after_time;
mod coordinates;
pub mod data;
mod escapes;
mod fields;
mod files;
pub mod flat;
pub mod flat_lists;
pub mod flat_parts;
pub mod last_time;
pub mod lines;
mod lists;
mod metadata;
mod numbers;
mod objects;
pub mod opl;
mod plain;
mod prepend;
mod taken_lists;
pub mod texts;
pub mod written;
