//! Answers and faults as JSON, a value at a time.
//!
//! `Object::new(alloc)` begins an object, its methods write keys and values, and `line` ends it and gives it as one line.
#![tactic(auto)]

mod faults;
mod members;
mod object;
mod places;
mod values;

pub use faults::{
    bare_fault, begin_fault, names_fault, number_fault, pair_fault, placed_fault, text_fault,
};
pub use object::Object;
