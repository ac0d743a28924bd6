//! The top call: a command line is run over named inputs and two outputs, by all commands.
#![tactic(auto)]

mod commands;
mod inputs;
mod request;
mod second;
mod sure;
mod theory;
mod top;

pub use command_run::Status;
pub use commands::Command;
pub use inputs::{Inputs, inputs_of};
pub use request::Request;
pub use second::SecondInput;
pub use sure::run_surely;
pub use survey_command::random_graph::survey_graph;
pub use theory::laws;
pub use top::{reply_to, run};
