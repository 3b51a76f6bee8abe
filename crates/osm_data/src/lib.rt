//! Data files of any size, in OPL and in o5m: reading their objects, one block after another.
#![tactic(auto)]

mod counting;
pub mod data_reader;
mod datasets;
mod extents;
pub mod fault;
mod keys;
mod o5m_carried;
mod o5m_counting;
pub mod o5m_data;
mod o5m_held;
mod o5m_passing;
pub mod object_sink;
mod opl_counting;
pub mod opl_data;
mod opl_objects;
mod opl_so_far;
