//! The latent projection: a graph with hidden vertices as a graph on the observed ones.
//!
//! `project(&graph, latent)` is the graph on the vertices that are left.
#![tactic(auto)]

mod dropping;
mod latents;
mod numbers;
mod parts;
mod theory;

pub use dropping::observed;
pub use latents::project;
pub use numbers::renumber;
pub use parts::Observed;
pub use theory::laws;
