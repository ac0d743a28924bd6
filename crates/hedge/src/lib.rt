//! Hedges as data, and whether they hold.
//!
//! `holds(&graph, x, y, &hedge)` says whether it is a hedge for the effect of x on y.
#![tactic(auto)]

mod choices;
mod entries;
mod hedge;
mod holding;
pub mod joined_sets;
mod theory;

pub use crate::joined_sets::{
    Choice, Districts, Links, child_choice, district_of, districts, links,
};
pub use hedge::{Hedge, HedgeFault};
pub use holding::holds;
pub use theory::laws;
