//! The two models of a hedge, as data: they agree on all observations, and differ on the effect.
//!
//! `build(alloc, &graph, x, y, &hedge)` gives the two models.
#![tactic(auto)]

mod carrying;
mod causes;
mod counter_pair;
mod mechanisms;
mod pairs;
pub mod parity;
mod parts;
mod theory;

pub use counter_pair::CounterPair;
pub use pairs::build;
pub use theory::laws;
