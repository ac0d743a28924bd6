//! Expressions and formulas as text and as LaTeX, and texts read as expressions and formulas.
//!
//! ```text
//! expr    = "sum" "{" names "}" expr | operand { "*" operand } | operand "/" operand
//! operand = "P(" names ["|" conds] ")" | "q" number | "(" expr ")"
//! conds   = "do(" names ")" ["," names] | names
//! names   = name { "," name }
//! ```
//!
//! A formula's text is its main expression and then `qk = expr` for each definition, in order from `q0`.
//!
//! `read_formula(alloc, text, &names)` gives the formula that a text says, and `formula_text(alloc, &formula, &names)` its text.
#![tactic(auto)]

mod bytes;
mod laws;
mod reading;
mod stop;
mod target;
mod tokens;
mod writing;

pub use laws::{the_grammar, written_is_read};
pub use reading::{TextFault, read_expr, read_formula};
pub use target::{target_in, target_latex, target_text};
pub use writing::{formula_text, latex_text, push_formula_in, write_expr};
