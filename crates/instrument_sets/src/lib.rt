//! The minimal sets of strata in which vertices are conditional instruments, listed without a walk over all subsets.
//!
//! `list_strata(alloc, &graph, x, y, z, most, &mut steps)` gives those of z, sorted, each once; `list_instruments(..)` those of each vertex.
#![tactic(auto)]

mod instruments;
mod strata;

pub use instruments::{Candidate, list_instruments};
pub use strata::list_strata;
