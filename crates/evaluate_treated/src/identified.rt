//! An effect among the treated whose values are had over counts.

ghost use Rattle.std.specs.Prelude.{◌≡◌};
ghost use Rattle.paired_values.specs.Vocabulary.{paired_view};
ghost use Rattle.evaluate_treated.specs.Effects.{among_in, paired_in};

use dag_reader::ReadGraph;
use factor_values::Factors;
use paired_values::{PairedEffect, Reading};
use prob_expr::Formula;
use treated_command::{Answer, Asked};

/// How the values of an effect among the treated are had.
#[derive(Drop)]
pub enum Way {
    /// From the factors of its formula.
    Factors(Factors),
    /// By the two levels of x, from the formula of the joint effect; and what is answered where x has more: a path, by which there is no formula.
    Split(Formula, Answer),
}

/// An effect among the treated whose values are had over counts: what is asked for, and how. It keeps no graph.
#[derive(Drop)]
pub struct Identified {
    pub asked: Asked,
    pub way: Way,
}

/// The effect of x on y in an observed graph, and how its values are had.
pub fn paired<'a>(seen: &ReadGraph, found: &'a Identified) -> PairedEffect<'a>
    ensures { paired_view result ≡ paired_in (among_in seen.now found.now) }
{
    let (n, sets) = (seen.graph.n, found.asked.sets);
    match &found.way {
        Way::Factors(factors) => PairedEffect {
            n,
            sets,
            reading: Reading::Factors(factors),
        },
        Way::Split(joint, _) => PairedEffect {
            n,
            sets,
            reading: Reading::Split(joint),
        },
    }
}
