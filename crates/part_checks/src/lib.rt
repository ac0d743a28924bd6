//! Counterfactual effects in parts that are handed in: whether the parts are accepted, and so make up the effect, whoever wrote them.
//!
//! `check_natural_parts(alloc, &graph, x, m, y, z, parts)` says so for P(y[x, m[x']] | z), and `check_treated_parts(alloc, &graph, x, y, z, parts)` for
//! P(y under do(x) | x and z as observed). `derive_natural_parts` and `derive_treated_parts` make such parts.
#![tactic(auto)]

mod answers;
mod making;
mod natural;
mod reading;
mod treated;

pub use answers::{NaturalPartsFault, TreatedFormula, TreatedPartsFault};
pub use making::{derive_natural_parts, derive_treated_parts};
pub use natural::check_natural_parts;
pub use treated::check_treated_parts;
