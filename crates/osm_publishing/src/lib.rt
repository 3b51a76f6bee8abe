//! The runs of the program that publish into a folder, convert a file, and report a lag.
#![tactic(auto)]

mod compare;
pub mod convert;
pub mod lag;
pub mod publish;
pub mod publish_as;
