//! The values of formulas over counts.
#![tactic(auto)]

ghost use Rattle.count_eval.specs.Laws.{EachIsCovered, ZerosAreCovered, MatchedHasValue, MatchedIsCovered, MatchedCoversEffect, ZeroKeepsValues, MatchedIsSame};

mod eval;
mod evaluable;
mod failure;
mod joining;
mod lookup;
mod nodes;
mod spot;
pub mod tables;
mod values;

pub use eval::{Scope, value_at};
pub use evaluable::{is_cell, is_evaluable};
pub use failure::{EvalFault, Failure};
pub use lookup::Lookup;
use quantity::Quantity;
pub use spot::Spot;
pub use values::{fault_of, value_by, value_by_nodes};

/// What the values have to do with fractions, and with models.
pub fn laws<Q: Quantity>()
    ensures covered { EachIsCovered Q.kind Q.covers }
    ensures zeros { ZerosAreCovered Q.kind Q.covers }
    ensures matched { MatchedHasValue }
    ensures model { MatchedIsCovered Q.kind Q.covers }
    ensures effect { MatchedCoversEffect Q.kind Q.covers }
    ensures keeps { ZeroKeepsValues Q.kind }
    ensures same { MatchedIsSame Q.kind }
{}
