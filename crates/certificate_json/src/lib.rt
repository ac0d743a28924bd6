//! Certificates as JSON: alone on a line, or inside another object.
//!
//! `formula_certificate_line(alloc, &names, &target, &formula, &derivation)` gives the line of a formula's certificate, and
//! `push_formula_certificate(&mut object, &names, &target, &formula, &derivation)` writes the same object as a value; so it is for a hedge.
//! `part_certificate_line(alloc, &names, &certificate)` gives the line of one in parts.
//! What is written is read back by `certificate::read_answer` (`written_is_read`).
#![tactic(auto)]

mod certificates;
mod formulas;
mod hedges;
mod laws;
mod parts;
mod steps;

pub use certificates::{
    certificate_line, formula_certificate_line, hedge_certificate_line, push_certificate,
    push_formula_certificate, push_hedge_certificate,
};
pub use formulas::{push_expr, push_exprs_at};
pub use laws::written_is_read;
pub use parts::part_certificate_line;
pub use steps::push_step;
