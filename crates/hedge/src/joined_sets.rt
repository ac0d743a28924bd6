//! Districts of a mixed graph, trees of links over joined sets, and children on shortest paths.
//!
//! `districts(&graph, within)` gives the districts in the order of the graph.
mod linked;
mod lists;
mod nearest;
mod spanning;

pub use linked::{district_of, districts};
pub use lists::{Choice, Districts, Links};
pub use nearest::child_choice;
pub use spanning::links;
