//! The save text of a follower: its base, number, time, filter and mirror. A text has at most one
//! meaning.
#![tactic(auto)]

pub mod counts;
mod filter;
pub mod head;
pub mod lines;
pub mod numbers;
pub mod objects;
pub mod order;
pub mod save;
pub mod shown;
pub mod stop;
pub mod version;
