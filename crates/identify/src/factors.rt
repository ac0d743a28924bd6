//! The factor of one district in the procedure that identifies an effect: its expression, its
//! definitions, and the steps of the do-calculus that make it (Shpitser and Pearl 2006, on the
//! districts of Tian and Pearl 2002).
//!
//! `factor(alloc, wanted, &graph, &order, c, first)` gives it. The functions on expressions and on lists of steps are
//! those of which it is made, for the formula of all districts.
mod body;
mod district_factor;
mod moves;
mod place;
mod pushing;
mod rounds;
mod sets;
mod terms;

pub use district_factor::{Factor, FactorFault};
pub use moves::members_in;
pub use pushing::{push_at, push_each, push_with};
pub use rounds::{factor, factor_under};
pub use sets::ancestors_in;
pub use terms::sum_if;
