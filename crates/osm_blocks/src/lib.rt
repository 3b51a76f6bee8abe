//! Files in blocks: reading them, finding their lines, and writing them.
#![tactic(auto)]

pub mod block_reader;
pub mod block_writer;
pub mod fault;
pub mod line_reader;
