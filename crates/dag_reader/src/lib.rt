//! Graph text: the `dag` texts of DAGitty in one profile, read and written.
//!
//! `read_graph(alloc, text)` gives the graph, the names and the roles that a text says, or its first fault.
#![tactic(auto)]

mod building;
mod bytes;
mod edges;
mod fault_text;
mod faults;
mod grammar;
mod graph;
mod law;
mod marks;
mod reading;
mod roles;
mod round;
mod said;
mod statements;
mod tokens;
mod words;
mod writing;

pub use faults::GraphFault;
pub use graph::ReadGraph;
pub use law::{the_answers, the_grammar};
pub use marks::Role;
pub use reading::read_graph;
pub use round::the_written_text;
pub use writing::write_graph;
