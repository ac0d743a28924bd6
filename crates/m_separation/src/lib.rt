//! Separation in acyclic graphs with directed and bidirected edges.
//!
//! `separated(&graph, x, y, w)` says whether no walk from x to y is open given w, and `open_path(&graph, x, y, w)` gives a path that is.
#![tactic(auto)]

mod marks;
mod paths;
mod search;
mod states;

pub use marks::Mark;
pub use paths::{OpenPath, open_path};
pub use search::{reach, separated};
