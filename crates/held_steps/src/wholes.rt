//! The candidates without definitions that steps make of a target's term.

ghost use Rattle.std.specs.Prelude.{◌≡◌, false, [], IfOk, IfSome};
ghost use Rattle.prob_expr.specs.View.{view};
ghost use Rattle.prob_expr.specs.Vocabulary.{target_view, term_of};
ghost use Rattle.held_steps.specs.Holding.{IsPlain};

use crate::adjusting::adjust;
use crate::candidate::Candidate;
use crate::held::Held;
use crate::moves::improve;
use crate::planning::{free, plan, turn};
use do_derivation::{Derivation, Step};
use mixed_graph::{Graph, VSet};
use prob_expr::{Formula, Target};
use std::alloc::{AllocError, Global};

/// What is held as a candidate without definitions, made shorter by moves.
pub fn plain(alloc: Global, g: &Graph, held: Held) -> Result<Candidate, AllocError>
    ensures { IfOk result IsPlain }
{
    let mut held = held;
    improve(alloc, g, &mut held)?;
    let (main, steps) = held.into_parts();
    Ok(Candidate {
        formula: Formula {
            defs: Vec::new(alloc),
            main,
        },
        derivation: Derivation {
            lemmas: Vec::new(alloc),
            main: Step::Then(steps),
        },
    })
}

/// The target's term, with its observations turned into interventions where that's asked for.
pub fn started(alloc: Global, g: &Graph, t: &Target, turned: bool) -> Result<Held, AllocError>
    ensures term { IfOk result (λ held. turned ≡ false → view held.expr ≡ term_of (target_view t.now)) }
    ensures no_step { IfOk result (λ held. turned ≡ false → held.steps.items ≡ []) }
{
    let mut held = Held::start(alloc, t.y, t.x, t.given);
    if !turned {
        return Ok(held);
    }
    turn(alloc, g, &mut held)?;
    Ok(held)
}

/// The adjustment formula of a set, or the plan by it, where its derivation stands.
pub fn adjusted(
    alloc: Global,
    g: &Graph,
    t: &Target,
    z: VSet,
) -> Result<Option<Candidate>, AllocError>
    ensures { IfOk result (λ found. IfSome found IsPlain) }
{
    let mut held = started(alloc, g, t, false)?;
    if adjust(alloc, g, &mut held, z)? {
        return Ok(Some(plain(alloc, g, held)?));
    }
    planned(alloc, g, t, z, false)
}

/// The plan by a set, where its derivation stands: at once, or once what can leave the intervention has left it.
pub fn planned(
    alloc: Global,
    g: &Graph,
    t: &Target,
    z: VSet,
    turned: bool,
) -> Result<Option<Candidate>, AllocError>
    ensures { IfOk result (λ found. IfSome found IsPlain) }
{
    let mut held = started(alloc, g, t, turned)?;
    if plan(alloc, g, &mut held, z)? {
        return Ok(Some(plain(alloc, g, held)?));
    }
    let mut held = started(alloc, g, t, turned)?;
    free(alloc, g, &mut held, &[])?;
    if plan(alloc, g, &mut held, z)? {
        return Ok(Some(plain(alloc, g, held)?));
    }
    Ok(None)
}
