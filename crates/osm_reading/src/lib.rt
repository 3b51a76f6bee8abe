//! What the readers and writers of all formats share: the pieces and lines of a text, sequence
//! numbers, why a reader refuses its input, and writing a whole text.
#![tactic(auto)]

pub mod lines;
pub mod number_lines;
pub mod pieces;
pub mod refusal;
pub mod sequence;
pub mod writing;
