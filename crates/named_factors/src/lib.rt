//! A formula over names and primed names as factors that are evaluated over counts.
//!
//! `named_factors(alloc, n, x, &main)` gives the factors of a sum of a product of terms.
#![tactic(auto)]

mod factors;
mod names;
mod theory;

pub use factors::named_factors;
pub use theory::laws;
