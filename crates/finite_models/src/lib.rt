//! Finite causal models with hidden causes: worlds, solutions, weights.
//!
//! `weight(&model, &graph, done, event, at)` is the weight of an event under an intervention.
#![tactic(auto)]

mod causes;
mod checking;
mod inputs;
mod mechanisms;
mod model;
mod outputs;
mod parities;
mod solving;
mod tables;
mod theory;
mod weighing;
mod worlds;

pub use checking::{cap, check_model};
pub use inputs::is_hedged;
pub use model::{Cause, Mechanism, Model, ModelFault, Part, WeightFault};
pub use outputs::{parents_place, with_digit};
pub use parities::{carried_parity, hedge_parity};
pub use theory::laws;
pub use weighing::weight;
