//! The bounds of effects over tables of counts, in any kind of quantity.
//!
//! `effect_bound::<Exact>(&scope, End::AtLeast, cell)` is what the effect at a cell is at least, and
//! `bounds_over(alloc, &counts, n, question, exact)` has the bounds at all cells.
#![tactic(auto)]

mod cells;
mod comparing;
mod crossings;
mod found;
mod methods;
mod pairs;
mod questions;
mod ratios;
mod strata;
mod values;
mod wide;

pub use crossings::{Crossing, crossing_at};
pub use found::{CellCrossing, Found, bounds_over};
pub use natural_bounds::End;
pub use questions::{Method, Question, Scope};
pub use ratios::Ratio;
pub use strata::effect_bound;
pub use values::{CellBounds, CellFault, Value, bounds_at};
pub use wide::OfRatio;
