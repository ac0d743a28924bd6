//! Acyclic mixed graphs on at most 64 named vertices, and sets of vertices.
//!
//! `Graph::build(n, &directed, &both)` gives the graph of some edges, and `graph.ancestors(set)` the ancestors of a set.
#![tactic(auto)]

mod cycles;
mod guesses;
mod lists;
mod mixed;
mod name_keys;
mod names;
mod pairs;
mod rows;
mod sets;
mod text;

pub use lists::{Cycle, Order};
pub use mixed::{BuildFault, Graph};
pub use name_keys::{key_of, key_of_digits, with_digit};
pub use names::{AddFault, Names, is_name};
pub use rows::{Rows, joined, reached};
pub use sets::{MembersLeft, VSet};
pub use text::Text;
