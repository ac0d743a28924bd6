//! Certificates as values.

use derived_parts::DerivedPart;
use do_derivation::Derivation;
use hedge::Hedge;
use mixed_graph::VSet;
use prob_expr::{Formula, Target};

/// What shows that an answer is right.
#[derive(Drop)]
pub enum Certificate {
    /// The derivation makes the formula of the target.
    Formula(Target, Formula, Derivation),
    /// The hedge keeps the target from being identified.
    Hedge(Target, Hedge),
}

/// What shows that an answer in parts is right.
#[derive(Drop)]
pub enum PartCertificate {
    /// The parts make up the effect of x on y, among those for whom x and what is given were observed.
    Treated(Target, Vec<DerivedPart>),
    /// The parts make up y under do(x), were these mediators as under another do(x), where what is given was observed.
    Natural(Target, VSet, Vec<DerivedPart>),
}
