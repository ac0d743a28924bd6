//! Formulas as JSON: the tree of an expression, whose nodes are objects.
//!
//! `push_tree(&mut object, &names, &expr)` writes `{"sum":["M"],"of":{"product":[..]}}`.
#![tactic(auto)]

mod trees;

pub use trees::{push_definitions, push_main, push_tree};
