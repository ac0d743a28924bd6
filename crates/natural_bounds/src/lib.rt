//! Bounds of effects that may have no formula: natural bounds, sharpened by conditional instruments.
//!
//! `instrument(&graph, x, y, z, w)` says whether z is an instrument, in the strata of w, for the effect of x on y.
#![tactic(auto)]

mod ends;
mod instruments;
mod theory;

pub use ends::End;
pub use instruments::{InstrumentFault, instrument};
pub use theory::laws;
