//! Values over counts at each level of x as it is set and at a second level, of what is given and of y: from factors, or by two levels of x.
//!
//! `values_over(alloc, &effect, &counts, exact)` gives the values at all printed cells, or why the first that has none has none.
#![tactic(auto)]

mod axes;
mod cells;
mod evaluating;
mod fault;
mod flags;
mod lines;
mod objects;
mod observed;
mod readings;
mod shown;

pub use axes::{Axis, observed_axes};
pub use evaluating::{are_exact, values_over};
pub use fault::PairFault;
pub use flags::has_plain_flag;
pub use lines::{push_axes_text, push_values_text};
pub use objects::{push_axes, push_cells_of, push_pinned};
pub use readings::{PairedEffect, Reading, pinned_for, read_for};
pub use shown::ShownAtCells;
