//! Reads rows of cases from JSON and shows what is found, for the programs that run such rows.
//!
//! A vertex is a number below 64, a set a list of vertices, an edge a pair of them. A graph is said by the number of its vertices, `n`,
//! and its edges, `directed` and `both`. A member that a row lacks is 0, false or empty.
#![tactic(auto)]

mod hedges;
mod printed;
mod reading;
mod running;
mod showing;

pub use hedges::hedge;
pub use printed::Printed;
pub use reading::{
    Inputs, all_below, built, bytes, flag, graph, list, names, number, numbers, pairs, set, text,
    texts, vertex, wide_numbers,
};
pub use running::print_rows;
pub use showing::{Entries, Members, Path, Rows};
