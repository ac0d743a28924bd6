//! Steps of derivations and sets of vertices read from JSON values.
//!
//! A step is a list: a word and its arguments. A set is a list of names.
//!
//! | Words | Arguments |
//! |---|---|
//! | those of `SetMove` | a set |
//! | `chain` | a list of names |
//! | `group` | a list of lists of numbers |
//! | `cite` | a number |
//! | those of `BareMove` | none |
//! | `at` | a number and a step |
//! | `then` | a list of steps |
#![tactic(auto)]

mod fault;
mod lists;
mod reading;
mod words;

pub use fault::ValueFault;
pub use lists::{read_filled_set, read_set, read_vertex};
pub use reading::read_step;
