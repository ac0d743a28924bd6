//! What a caller in the same process gives and keeps in memory of his own: spans of bytes, and a diagram.
#![tactic(auto)]

pub mod kept;
pub mod spans;
