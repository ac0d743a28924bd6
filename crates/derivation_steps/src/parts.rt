//! The steps of a formula and of its lemmas, part by part.

ghost use Rattle.std.specs.Prelude.{◌≡◌, ℕ, [], true, List, map, IfOk};
ghost use Rattle.mixed_graph.specs.Vocabulary.{graph_of};
ghost use Rattle.prob_expr.specs.Vocabulary.{masks_of, are_terms, is_term, PlainFormula, target_view};
ghost use Rattle.prob_expr.specs.Tree.{Tree};
ghost use Rattle.prob_expr.specs.View.{view};
ghost use Rattle.do_derivation.specs.Vocabulary.{are_sets, sets_of, start_of, Define, Makes, step_view, lemma_view, derivation_view};
ghost use Rattle.derivation_steps.specs.Parts.{IsPart, AreLemmaParts, IsDerived, Explains};

use crate::moves::moves_of;
use crate::tracing::{Made, trace};
use do_derivation::{Derivation, Lemma, Step};
use mixed_graph::{Graph, VSet};
use prob_expr::{Expr, Target, copy_expr};
use std::alloc::{AllocError, Global};

/// A part of a derivation: where it starts, and the moves that are made from there in turn.
#[derive(Drop)]
pub struct Part {
    /// The number of its lemma; none for that of the formula's main expression.
    pub lemma: Option<usize>,
    pub start: Expr,
    pub moves: Vec<Made>,
}

/// The part of a step that is made of an expression.
fn part_of(
    alloc: Global,
    g: &Graph,
    lemmas: &[VSet],
    lemma: Option<usize>,
    step: &Step,
    start: Expr,
) -> Result<Part, AllocError>
    requires terms { are_terms g.now.n (view start) ≡ true }
    requires made { (x : Tree) × Makes (graph_of g.now) (masks_of lemmas.now) (step_view step.now) (view start) x }
    ensures { IfOk result (λ p. (x : Tree) → Makes (graph_of g.now) (masks_of lemmas.now) (step_view step.now) (view start) x
        → IsPart (graph_of g.now) (masks_of lemmas.now) lemma (step_view step.now) (view start) x p) }
{
    let steps = moves_of(alloc, step)?;
    let first = copy_expr(alloc, &start)?;
    let moves = trace(alloc, g, lemmas, steps, first)?;
    Ok(Part {
        lemma,
        start,
        moves,
    })
}

/// The term P(set | do(all others)).
fn start_of(g: &Graph, set: VSet) -> Expr
    ensures { view result ≡ start_of g.now.n set.bits }
{
    Expr::Prob {
        of: set,
        doing: VSet::below(g.n).difference(set),
        given: VSet::EMPTY,
    }
}

/// The sets of lemmas, and their parts.
#[derive(Drop)]
struct LemmaParts {
    sets: Vec<VSet>,
    parts: Vec<Part>,
}

/// The parts of lemmas that make definitions.
fn lemma_parts(alloc: Global, g: &Graph, lemmas: &Vec<Lemma>) -> Result<LemmaParts, AllocError>
    requires sets { are_sets g.now.n (sets_of (map lemma_view lemmas.now.items)) ≡ true }
    requires define { (ds : List Tree) × Define (graph_of g.now) [] (map lemma_view lemmas.now.items) ds }
    ensures parts { IfOk result (λ v. (ds : List Tree) → Define (graph_of g.now) [] (map lemma_view lemmas.now.items) ds
        → AreLemmaParts (graph_of g.now) [] 0 (map lemma_view lemmas.now.items) ds v.parts.items) }
    ensures sets { IfOk result (λ v. masks_of v.sets.items ≡ sets_of (map lemma_view lemmas.now.items)) }
{
    let mut sets = Vec::new(alloc);
    let mut parts = Vec::new(alloc);
    for k in 0..lemmas.len() {
        let lemma = &lemmas[k];
        let start = start_of(g, lemma.set);
        let made = part_of(alloc, g, &sets, Some(k), &lemma.step, start)?;
        parts.push(made)?;
        sets.push(lemma.set)?;
    }
    Ok(LemmaParts { sets, parts })
}

/// The part of each lemma of a derivation, and then that of the formula's main expression: where each starts, and what its moves make in turn.
pub fn explain(
    alloc: Global,
    g: &Graph,
    target: &Target,
    derivation: &Derivation,
) -> Result<Vec<Part>, AllocError>
    requires target { is_term g.now.n target.now.y.bits target.now.x.bits target.now.given.bits ≡ true }
    requires derived { (f : PlainFormula) × IsDerived (graph_of g.now) (target_view target.now) (derivation_view derivation.now) f }
    ensures { IfOk result (λ v. (f : PlainFormula) → IsDerived (graph_of g.now) (target_view target.now) (derivation_view derivation.now) f
        → Explains (graph_of g.now) (target_view target.now) (derivation_view derivation.now) f v.items) }
{
    let mut made = lemma_parts(alloc, g, &derivation.lemmas)?;
    let start = Expr::Prob {
        of: target.y,
        doing: target.x,
        given: target.given,
    };
    let main = part_of(alloc, g, &made.sets, None, &derivation.main, start)?;
    made.parts.push(main)?;
    Ok(made.parts)
}
