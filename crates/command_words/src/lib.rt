//! The words of a command line, by any table of commands: which call they are, with its values, and what they ask for.
#![tactic(auto)]

pub mod forms;
pub mod lists;
pub mod requests;
pub mod typed;
pub mod values;
