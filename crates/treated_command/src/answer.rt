//! What is answered of an effect among the treated.

use crate::objects::{push_certified, push_excluded, push_formula_of, push_unfixed};
use crate::texts::{excluded_text, formula_text, unfixed_text};
use answer_json::Object;
use certificate::PartCertificate;
use certificate_json::part_certificate_line;
use counter_models::CounterPair;
use hedge::Hedge;
use mixed_graph::{Names, VSet};
use prob_expr::Formula;
use replies::Outcome;
use std::alloc::{AllocError, Global};
use targets::Sets;
use told::{Told, Writing};
use treated_id::Confounding;

/// What is asked for: the sets, and the primed names of x, by their numbers.
#[derive(Clone, Copy)]
pub struct Asked {
    pub sets: Sets,
    pub primes: VSet,
}

/// What is answered of an effect among the treated.
#[derive(Drop)]
pub enum Answer {
    /// A formula.
    Formula(Asked, Formula),
    /// The certificate of a formula, where one is asked for.
    Certified(Asked, PartCertificate),
    /// There is none: two models of a hedge for the joint effect on y and what is given show it.
    Excluded(Asked, Confounding, Hedge, CounterPair),
    /// There is none, though the joint effect has a formula: two models of a path from a child of a treatment to the treatment show it.
    Unfixed(Asked, Confounding),
}

impl Told for Answer {
    ghost use Rattle.treated_command.specs.Telling.{treated_telling};

    ghost telling = { treated_telling };

    fn outcome(&self) -> Outcome {
        match self {
            Answer::Formula(_, _) => Outcome::Yes,
            Answer::Certified(_, _) => Outcome::Yes,
            Answer::Excluded(_, _, _, _) => Outcome::No,
            Answer::Unfixed(_, _) => Outcome::No,
        }
    }

    fn text(&self, alloc: Global, names: &Names, writing: Writing) -> Result<Vec<u8>, AllocError> {
        match self {
            Answer::Formula(asked, f) => formula_text(alloc, names, *asked, f, writing),
            Answer::Certified(_, c) => part_certificate_line(alloc, names, c),
            Answer::Excluded(asked, c, h, pair) => excluded_text(alloc, names, *asked, c, h, pair),
            Answer::Unfixed(asked, c) => unfixed_text(alloc, names, *asked, c),
        }
    }

    fn push_members(
        &self,
        object: &mut Object,
        names: &Names,
        _: Writing,
    ) -> Result<(), AllocError> {
        match self {
            Answer::Formula(asked, f) => push_formula_of(object, names, *asked, f),
            Answer::Certified(asked, _) => push_certified(object, names, *asked),
            Answer::Excluded(asked, c, h, pair) => push_excluded(object, names, *asked, c, h, pair),
            Answer::Unfixed(asked, c) => push_unfixed(object, names, *asked, c),
        }
    }
}
