//! What the commands have in common: the outcome of an answer and what is told of it, as text or as JSON, refused names and graphs,
//! the line of an open path, and the sets of a separation.
#![tactic(auto)]

mod format;
mod outcome;
mod path;
mod query;
mod refusal;

pub use format::Format;
pub use outcome::{Outcome, Reply};
pub use path::push_open;
pub use query::push_query;
pub use refusal::{refuse, refuse_graph, refuse_size};
