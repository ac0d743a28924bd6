//! Expressions of probabilities, formulas and targets.
//!
//! A formula is a list of definitions and a main expression. Contracts speak of the plain trees of
//! `specs/Tree.antt`, which `specs/View.antt` reads off the code's; `specs/Values.antt` says what
//! the value of a formula in a model is.
//!
//! `check(&formula, n)` says whether a formula is in form, and `free(&formula)` which variables it reads.
#![tactic(auto)]

mod allowing;
mod checking;
mod comparing;
mod copying;
mod expr;
pub mod folding;
mod freeing;
mod mentioning;
mod theory;
mod using;
mod visiting;

pub use allowing::{is_allowed, is_do_free};
pub use checking::{ExprFault, are_term_sets, check, check_expr};
pub use comparing::is_same;
pub use copying::copy_expr;
pub use expr::{Expr, Formula, Place, Target};
pub use finite_models::cap;
pub use freeing::{free, free_sets};
pub use mentioning::mentioned;
pub use theory::laws;
pub use using::formula_uses_only;
pub use visiting::Fold;
