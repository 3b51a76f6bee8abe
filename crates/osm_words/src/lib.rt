//! The words of the command line, and what they ask for.
#![tactic(auto)]

pub mod command_line;
pub mod echo;
mod help;
pub mod locks;
pub mod orders;
