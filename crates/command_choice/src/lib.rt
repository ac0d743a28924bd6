//! A command that is one of two, by what its words ask for: no code runs here.
#![tactic(auto)]
