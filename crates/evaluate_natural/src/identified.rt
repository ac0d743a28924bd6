//! A nested effect that has a formula.

ghost use Rattle.std.specs.Prelude.{◌≡◌};
ghost use Rattle.paired_values.specs.Vocabulary.{paired_view};
ghost use Rattle.evaluate_natural.specs.Effects.{nested_in, paired_in};

use dag_reader::ReadGraph;
use factor_values::Factors;
use natural_command::Asked;
use paired_values::{PairedEffect, Reading};
use targets::Sets;

/// A nested effect that has a formula: what is asked for, and the factors of the formula. It keeps no graph.
#[derive(Drop)]
pub struct Identified {
    pub asked: Asked,
    pub factors: Factors,
}

/// The effect of x on y in an observed graph, whose values are had from its factors.
pub fn paired<'a>(seen: &ReadGraph, found: &'a Identified) -> PairedEffect<'a>
    ensures { paired_view result ≡ paired_in (nested_in seen.now found.now) }
{
    let question = found.asked.question;
    PairedEffect {
        n: seen.graph.n,
        sets: Sets {
            x: question.x,
            y: question.y,
            given: question.given,
        },
        reading: Reading::Factors(&found.factors),
    }
}
