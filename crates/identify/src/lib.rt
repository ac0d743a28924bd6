//! Identification of effects: a formula for P(y | do(x)) from what is observed, or a hedge, which
//! shows that there is none (Shpitser and Pearl 2006).
//!
//! `identify(alloc, &graph, x, y)` gives the one or the other, the formula with its derivation;
//! `identify_formula(alloc, &graph, x, y)` makes no derivation. `is_identifiable(&graph, x, y)` says whether there is a
//! formula, and asks for no memory. The other public functions are their parts, for further procedures over the same districts.
#![tactic(auto)]

mod answer;
mod deciding;
mod expressions;
pub mod factors;
mod gathering;
mod groups;
mod homes;
mod identifying;
mod mains;
mod stops;
mod wanted;

pub use answer::{Answer, Factors, FormulaAnswer, Stop};
pub use deciding::{find_hedge, is_identifiable};
pub use gathering::{add_found, no_factors};
pub use identifying::{ancestors_outside, identify, identify_formula, observed, order_of};
pub use mains::assembled;
pub use stops::{hedge_between, hedge_of};
pub use wanted::Wanted;
