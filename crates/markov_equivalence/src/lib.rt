//! Whether two graphs without bidirected edges have the same skeleton and the same unshielded colliders.
//!
//! `compare(&g, &h)` gives the first difference, if there is one.
#![tactic(auto)]

mod comparison;
mod firsts;
pub mod path_carry;
mod sides;
mod skeleton;

pub use comparison::{Compared, Difference, compare};
pub use sides::Side;
