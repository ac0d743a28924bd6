//! An expression with the steps that led to it.

ghost use Rattle.std.specs.Prelude.{◌≡◌, [], IfOk, IfSome};
ghost use Rattle.mixed_graph.specs.Vocabulary.{graph_of};
ghost use Rattle.prob_expr.specs.Tree.{prob};
ghost use Rattle.prob_expr.specs.Vocabulary.{masks_of};
ghost use Rattle.prob_expr.specs.View.{view};
ghost use Rattle.do_derivation.specs.Plans.{Plan};
ghost use Rattle.do_derivation.specs.Vocabulary.{Makes, move_view, step_view};
ghost use Rattle.held_steps.specs.Holding.{at_place, IsTried};

use crate::terms::are_terms;
use do_derivation::{ApplyFault, Move, Step, apply};
use mixed_graph::{Graph, VSet};
use prob_expr::{Expr, copy_expr};
use std::alloc::{AllocError, Global};

/// An expression, and the steps that led to it. It changes by what `apply` gives alone.
#[derive(Drop)]
pub struct Held {
    expr: Expr,
    steps: Vec<Step>,
    /// The sets of the lemmas that may be cited.
    lemmas: Vec<VSet>,
    /// How many steps may still be tried.
    tries: u32,
}

/// What an expression and its steps were.
#[derive(Drop)]
pub struct Mark {
    expr: Expr,
    count: usize,
}

impl Held {
    /// The term P(of | do(doing), given), with no step yet.
    pub(crate) fn start(alloc: Global, of: VSet, doing: VSet, given: VSet) -> Held
        ensures term { view result.expr ≡ prob of.bits doing.bits given.bits }
        ensures no_step { result.steps.items ≡ [] }
    {
        Held {
            expr: Expr::Prob { of, doing, given },
            steps: Vec::new(alloc),
            lemmas: Vec::new(alloc),
            tries: u32::MAX,
        }
    }

    /// Lets lemmas with these sets be cited.
    pub(crate) fn cite(&mut self, lemmas: Vec<VSet>) {
        self.lemmas = lemmas;
    }

    /// The expression.
    pub fn expr(&self) -> &Expr
        ensures { view result.now ≡ view self.now.expr }
    {
        &self.expr
    }

    /// The expression and the steps.
    pub(crate) fn into_parts(self) -> (Expr, Vec<Step>) {
        let Held {
            expr,
            steps,
            lemmas,
            tries: _,
        } = self;
        drop(lemmas);
        (expr, steps)
    }

    /// Lets so many steps be tried from here on.
    pub(crate) fn allow(&mut self, tries: u32) {
        self.tries = tries;
    }

    /// What it is now, so that `back` may lead to it.
    pub(crate) fn mark(&self, alloc: Global) -> Result<Mark, AllocError> {
        Ok(Mark {
            expr: copy_expr(alloc, &self.expr)?,
            count: self.steps.len(),
        })
    }

    /// Back to what it was, without the steps since then.
    pub(crate) fn back(&mut self, mark: Mark) {
        let Mark { expr, count } = mark;
        self.expr = expr;
        self.steps.truncate(count);
    }

    /// Makes a move at a place, as `try_step` does a step.
    pub fn try_move(
        &mut self,
        alloc: Global,
        g: &Graph,
        place: &[u32],
        done: Move,
    ) -> Result<bool, AllocError>
        ensures tried { IfOk result (λ made. IsTried (graph_of g.now) place.now (Plan.Make (move_view done)) self.old self.new made) }
    {
        self.try_step(alloc, g, place, Step::Make(done))
    }

    /// Does a step at a place. Where it is refused, or no try is left, nothing changes.
    pub fn try_step(
        &mut self,
        alloc: Global,
        g: &Graph,
        place: &[u32],
        step: Step,
    ) -> Result<bool, AllocError>
        ensures tried { IfOk result (λ made. IsTried (graph_of g.now) place.now (step_view step) self.old self.new made) }
    {
        if self.tries == 0 {
            return Ok(false);
        }
        self.tries = self.tries.saturating_sub(1);
        let step = placed(alloc, place, step)?;
        match applied(alloc, g, self.lemmas.as_slice(), &step, &self.expr)? {
            Some(made) => {
                self.expr = made;
                self.steps.push(step)?;
                Ok(true)
            }
            None => Ok(false),
        }
    }
}

/// What a step makes of an expression, where it isn't refused.
fn applied(
    alloc: Global,
    g: &Graph,
    lemmas: &[VSet],
    step: &Step,
    e: &Expr,
) -> Result<Option<Expr>, AllocError>
    ensures { IfOk result (λ found. IfSome found (λ x. Makes (graph_of g.now) (masks_of lemmas.now) (step_view step.now) (view e.now) (view x))) }
{
    if !are_terms(g.n, e) {
        return Ok(None);
    }
    let before = copy_expr(alloc, e)?;
    match apply(alloc, g, lemmas, step, before) {
        Ok(made) => Ok(Some(made)),
        Err(ApplyFault::Step { .. }) => Ok(None),
        Err(ApplyFault::NoMemory) => Err(AllocError),
    }
}

/// The step at a place.
#[tactic(auto, using(crate::proofs::Places::at_none, crate::proofs::Places::at_first))]
fn placed(alloc: Global, place: &[u32], step: Step) -> Result<Step, AllocError>
    ensures { IfOk result (λ made. step_view made ≡ at_place place.now (step_view step)) }
{
    let [i, rest @ ..] = place else {
        return Ok(step);
    };
    let inner = Box::new(alloc, placed(alloc, rest, step)?)?;
    Ok(Step::At(*i, inner))
}
