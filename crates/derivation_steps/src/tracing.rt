//! The expressions that moves make in turn.

ghost use Rattle.std.specs.Prelude.{◌≡◌, true, map, IfOk};
ghost use Rattle.mixed_graph.specs.Vocabulary.{graph_of};
ghost use Rattle.prob_expr.specs.Vocabulary.{masks_of, are_terms};
ghost use Rattle.prob_expr.specs.Tree.{Tree};
ghost use Rattle.prob_expr.specs.View.{view};
ghost use Rattle.do_derivation.specs.Vocabulary.{Makes, step_view};
ghost use Rattle.derivation_steps.specs.Traces.{IsMadeOf, plans_in, Leads, MadeInTurn};

use crate::questions::{AskedRule, asked_in, question_of};
use do_derivation::{ApplyFault, Step, apply};
use mixed_graph::{Graph, VSet};
use prob_expr::{Expr, copy_expr};
use std::alloc::{AllocError, Global};

/// A move that was made.
#[derive(Drop)]
pub struct Made {
    /// The move at its place.
    pub step: Step,
    /// The rule for which it asks, where it asks for one.
    pub asked: Option<AskedRule>,
    /// The whole expression after it.
    pub after: Expr,
}

/// What a step makes of an expression on which it isn't refused.
fn made_by(
    alloc: Global,
    g: &Graph,
    lemmas: &[VSet],
    step: &Step,
    e: Expr,
) -> Result<Expr, AllocError>
    requires terms { are_terms g.now.n (view e) ≡ true }
    requires made { (x : Tree) × Makes (graph_of g.now) (masks_of lemmas.now) (step_view step.now) (view e) x }
    ensures { IfOk result (λ x. Makes (graph_of g.now) (masks_of lemmas.now) (step_view step.now) (view e) (view x)) }
{
    match apply(alloc, g, lemmas, step, e) {
        Ok(after) => Ok(after),
        Err(ApplyFault::Step { .. }) => unreachable!(),
        Err(ApplyFault::NoMemory) => Err(AllocError),
    }
}

/// A move that is made of an expression.
fn make(
    alloc: Global,
    g: &Graph,
    lemmas: &[VSet],
    step: Step,
    before: &Expr,
) -> Result<Made, AllocError>
    requires terms { are_terms g.now.n (view before.now) ≡ true }
    requires made { (x : Tree) × Makes (graph_of g.now) (masks_of lemmas.now) (step_view step) (view before.now) x }
    ensures { IfOk result (IsMadeOf (graph_of g.now) (masks_of lemmas.now) (step_view step) (view before.now)) }
{
    let question = question_of(&step, before);
    let start = copy_expr(alloc, before)?;
    let after = made_by(alloc, g, lemmas, &step, start)?;
    Ok(Made {
        step,
        asked: asked_in(g, question),
        after,
    })
}

/// The moves that are made in turn, from an expression on, each with what it makes.
pub fn trace(
    alloc: Global,
    g: &Graph,
    lemmas: &[VSet],
    moves: Vec<Step>,
    start: Expr,
) -> Result<Vec<Made>, AllocError>
    requires terms { are_terms g.now.n (view start) ≡ true }
    requires made { (x : Tree) × MadeInTurn (graph_of g.now) (masks_of lemmas.now) (map step_view moves.items) (view start) x }
    ensures moves { IfOk result (λ v. plans_in v.items ≡ map step_view moves.items) }
    ensures leads { IfOk result (λ v. (x : Tree) → MadeInTurn (graph_of g.now) (masks_of lemmas.now) (map step_view moves.items) (view start) x
        → Leads (graph_of g.now) (masks_of lemmas.now) (view start) v.items x) }
{
    let mut made = Vec::new(alloc);
    let mut whole = start;
    for step in moves {
        let next = make(alloc, g, lemmas, step, &whole)?;
        whole = copy_expr(alloc, &next.after)?;
        made.push(next)?;
    }
    Ok(made)
}
