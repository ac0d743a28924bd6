//! A hedge and its two models as JSON.
//!
//! `push_hedge(&mut object, &names, &hedge)` writes the hedge with its choices and links, and `push_models` the models.
#![tactic(auto)]

mod bits;
mod hedges;
mod models;
mod parts;

pub use hedges::push_hedge;
pub use models::push_models;
