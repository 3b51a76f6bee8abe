//! Scripts of events, their replays and reply texts.
#![tactic(auto)]

mod asks;
pub mod fault;
pub mod replay;
pub mod replies;
pub mod script;
pub mod show;
