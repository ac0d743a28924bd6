//! Candidates under a condition: the joint effect of the outcomes and the condition, over the effect on the condition, each made short
//! by itself.

ghost use Rattle.std.specs.Prelude.{ℕ, ◌<◌};
ghost use Rattle.mixed_graph.specs.Vocabulary.{has};
ghost use Rattle.do_rules.specs.Vocabulary.{AreThreeSets};

use crate::candidates::whole;
use crate::hiding::derivation_in;
use crate::measuring::length;
use do_derivation::{BareMove, Derivation, Move, Step};
use do_rules::are_three_sets;
use held_steps::{Candidate, Held, plain, started, term_at};
use mixed_graph::Graph;
use prob_expr::Target;
use std::alloc::{AllocError, Global};

/// The first of the shortest candidates without definitions.
fn shortest_alone(candidates: Vec<Candidate>) -> Option<Candidate> {
    let mut best: Option<Candidate> = None;
    let mut least = u32::MAX;
    for candidate in candidates {
        let count = length(&candidate.formula);
        if candidate.formula.defs.is_empty() && count < least {
            best = Some(candidate);
            least = count;
        }
    }
    best
}

/// A step that makes a short formula of the term of a target.
fn short_step(alloc: Global, g: &Graph, t: &Target) -> Result<Option<Step>, AllocError> {
    if !are_three_sets(g, t.x, t.y, t.given) || t.y.bits == 0 {
        return Ok(None);
    }
    let Some(own) = derivation_in(alloc, g, t)? else {
        return Ok(None);
    };
    let Some(found) = shortest_alone(whole(alloc, g, t, &own)?) else {
        return Ok(None);
    };
    let Candidate {
        formula,
        derivation,
    } = found;
    let Derivation { lemmas, main } = derivation;
    drop(formula);
    drop(lemmas);
    Ok(Some(main))
}

/// Makes of the term at a place a short formula without interventions.
fn shorten_term(
    alloc: Global,
    g: &Graph,
    held: &mut Held,
    place: &[u32],
) -> Result<bool, AllocError> {
    let Some(term) = term_at(held.expr(), place) else {
        return Ok(false);
    };
    if term.doing.is_empty() {
        return Ok(true);
    }
    let target = Target {
        x: term.doing,
        y: term.of,
        given: term.given,
    };
    match short_step(alloc, g, &target)? {
        Some(step) => held.try_step(alloc, g, place, step),
        None => Ok(false),
    }
}

/// The same of the term with what is left of the condition: of the two terms into which it splits.
fn shorten_parts(alloc: Global, g: &Graph, held: &mut Held) -> Result<bool, AllocError> {
    let Some(term) = term_at(held.expr(), &[]) else {
        return Ok(false);
    };
    if term.given.is_empty() {
        return shorten_term(alloc, g, held, &[]);
    }
    if !held.try_move(alloc, g, &[], Move::Bare(BareMove::Split))? {
        return Ok(false);
    }
    if !shorten_term(alloc, g, held, &[0])? {
        return Ok(false);
    }
    shorten_term(alloc, g, held, &[1])
}

/// The candidate by parts, once what can turn into an intervention has.
fn by_parts(alloc: Global, g: &Graph, t: &Target) -> Result<Option<Candidate>, AllocError> {
    let mut held = started(alloc, g, t, true)?;
    if shorten_parts(alloc, g, &mut held)? {
        return Ok(Some(plain(alloc, g, held)?));
    }
    Ok(None)
}

/// The candidates for a target, besides the procedure's formula, whose derivation is d.
pub(crate) fn candidates(
    alloc: Global,
    g: &Graph,
    t: &Target,
    d: &Derivation,
) -> Result<Vec<Candidate>, AllocError>
    requires sets { AreThreeSets g.now.n (has t.now.x.bits) (has t.now.y.bits) (has t.now.given.bits) }
    requires some { 0 < t.now.y.bits }
{
    let mut found = whole(alloc, g, t, d)?;
    if !t.given.is_empty() && !t.x.is_empty() {
        if let Some(candidate) = by_parts(alloc, g, t)? {
            found.push(candidate)?;
        }
    }
    Ok(found)
}
