//! Change files in the form o5c and data files in the form o5m (OSM wiki, O5m).
#![tactic(auto)]

mod chains;
pub mod counters;
pub mod data;
pub mod datasets;
pub mod file_string;
pub mod files;
pub mod flat_nodes;
mod hashed_string;
mod latest;
pub mod metadata;
pub mod numbers;
pub mod o5c;
mod objects;
pub mod reader;
pub mod references;
mod same_bytes;
mod string_index;
pub mod strings;
mod tags;
pub mod writer;
