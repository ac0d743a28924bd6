//! The command `graph`: a graph, or its observed graph.
mod answer;
mod objects;
mod reply;
mod request;
mod round;

pub use answer::Answer;
pub use reply::{graph_answer, graph_reply};
pub use request::{ROW, Request};
pub use round::laws;
