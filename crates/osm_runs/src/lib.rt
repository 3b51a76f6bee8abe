//! What all runs of the program share: faults, reports, options, the names and forms of files, and
//! reading the newest state, a number's files and a file that is kept.
#![tactic(auto)]

pub mod check;
pub mod csv_rows;
pub mod data_form;
pub mod fault;
mod fetch;
pub mod files;
pub mod filters;
pub mod form;
pub mod json_line;
pub mod json_values;
pub mod kept;
pub mod missing;
pub mod names;
pub mod number;
pub mod options;
pub mod progress;
pub mod report;
pub mod same;
pub mod save_fault;
pub mod standing;
pub mod top;
pub mod writing;
