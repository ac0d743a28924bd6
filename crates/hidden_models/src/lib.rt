//! Models of a diagram with hidden vertices, folded to models of its observed graph.
//!
//! `fold_model(alloc, &graph, latent, &model)` is a model of the observed graph that gives observed events the same probabilities.
#![tactic(auto)]

mod digits;
mod entries;
mod evaluation;
mod faults;
mod filling;
mod folding;
mod parities;
mod parts;
mod ranges;
mod reaching;
pub mod theory;

pub use faults::FoldFault;
pub use folding::fold_model;
