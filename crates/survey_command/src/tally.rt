//! How many effects of a graph have a formula, and how many a hedge.

ghost use Rattle.std.specs.Prelude.{◌≡◌, ◌≢◌, ◌<◌, ◌≤◌, ◌+◌, IfOk, if◌then◌else◌};
ghost use Rattle.mixed_graph.specs.Vocabulary.{graph_of};
ghost use Rattle.identify.specs.Vocabulary.{is_hedge};
ghost use Rattle.survey_command.specs.Tallies.{IsAnswerFor};

use identify::{Answer, identify};
use mixed_graph::{Graph, VSet};
use std::alloc::{AllocError, Global};

/// How many effects have a formula, and how many have a hedge.
#[derive(Clone, Copy)]
pub struct Tally {
    pub formulas: u32,
    pub hedges: u32,
}

impl Tally {
    ghost use Rattle.survey_command.specs.Tallies.{IsRowTally, IsTally};

    /// The tally of the effects of each vertex on each other vertex.
    pub fn of_graph(alloc: Global, g: &Graph) -> Result<Tally, AllocError>
        ensures { IfOk result (IsTally (graph_of g.now) g.now.n) }
    {
        let mut tally = Tally::none();
        for a in 0..g.n as u8 {
            let row = Tally::of_row(alloc, g, a)?;
            tally = tally.plus(row);
        }
        Ok(tally)
    }

    /// The tally of the effects of a on each other vertex.
    fn of_row(alloc: Global, g: &Graph, a: u8) -> Result<Tally, AllocError>
        requires { a < g.now.n }
        ensures { IfOk result (IsRowTally (graph_of g.now) a g.now.n) }
    {
        let mut tally = Tally::none();
        for b in 0..g.n as u8 {
            if a == b {
                continue;
            }
            let answer = answer_for(alloc, g, a, b)?;
            tally = tally.with(&answer);
        }
        Ok(tally)
    }

    /// No effect.
    fn none() -> Tally
        ensures formulas { result.formulas ≡ 0 }
        ensures hedges { result.hedges ≡ 0 }
    {
        Tally {
            formulas: 0,
            hedges: 0,
        }
    }

    /// One effect more, with its answer.
    fn with(self, answer: &Answer) -> Tally
        requires formulas { self.formulas < 64 }
        requires hedges { self.hedges < 64 }
        ensures formulas { result.formulas ≡ (if is_hedge answer.now then self.formulas else self.formulas + 1) }
        ensures hedges { result.hedges ≡ (if is_hedge answer.now then self.hedges + 1 else self.hedges) }
    {
        match answer {
            Answer::Formula(_, _) => Tally {
                formulas: self.formulas + 1,
                ..self
            },
            Answer::Hedge(_, _) => Tally {
                hedges: self.hedges + 1,
                ..self
            },
        }
    }

    /// The effects of both tallies.
    fn plus(self, more: Tally) -> Tally
        requires formulas { self.formulas + more.formulas ≤ 4096 }
        requires hedges { self.hedges + more.hedges ≤ 4096 }
        ensures formulas { result.formulas ≡ self.formulas + more.formulas }
        ensures hedges { result.hedges ≡ self.hedges + more.hedges }
    {
        Tally {
            formulas: self.formulas + more.formulas,
            hedges: self.hedges + more.hedges,
        }
    }
}

/// The answer for the effect of a on b.
fn answer_for(alloc: Global, g: &Graph, a: u8, b: u8) -> Result<Answer, AllocError>
    requires first { a < g.now.n }
    requires second { b < g.now.n }
    requires differ { a ≢ b }
    ensures { IfOk result (λ w. IsAnswerFor (graph_of g.now) a b (is_hedge w)) }
{
    let x = VSet::one(a);
    let y = VSet::one(b);
    identify(alloc, g, x, y)
}
