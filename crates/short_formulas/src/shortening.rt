//! A short formula in place of one that is right.

ghost use Rattle.std.specs.Prelude.{ℕ, ◌≡◌, ◌<◌, ◌≤◌, IfOk};
ghost use Rattle.mixed_graph.specs.Vocabulary.{has, graph_of};
ghost use Rattle.do_rules.specs.Vocabulary.{AreThreeSets};
ghost use Rattle.prob_expr.specs.Vocabulary.{formula_view, target_view};
ghost use Rattle.do_derivation.specs.Vocabulary.{derivation_view};
ghost use Rattle.short_formulas.specs.Length.{formula_length};
ghost use Rattle.short_formulas.specs.Short.{IsUsable, IsSameOrShorter};

use crate::by_parts::candidates;
use crate::choosing::shortest;
use held_steps::Candidate;
use mixed_graph::Graph;
use prob_expr::Target;
use std::alloc::{AllocError, Global};

/// In place of a right formula for P(y | do(x), given) the shortest that is found, which is right too and
/// no longer; or else the formula itself.
///
/// Each formula that is tried comes with a derivation, and what the checks of formulas and of derivations
/// don't accept is left out. What is found needn't be the shortest there is. The only error is want of memory.
pub fn shortened(
    alloc: Global,
    g: &Graph,
    t: &Target,
    found: Candidate,
) -> Result<Candidate, AllocError>
    requires sets { AreThreeSets g.now.n (has t.now.x.bits) (has t.now.y.bits) (has t.now.given.bits) }
    requires some { 0 < t.now.y.bits }
    requires usable { IsUsable (graph_of g.now) (target_view t.now) (formula_view found.formula) (derivation_view found.derivation) }
    ensures usable { IfOk result (λ c. IsUsable (graph_of g.now) (target_view t.now) (formula_view c.formula) (derivation_view c.derivation)) }
    ensures no_longer { IfOk result (λ c. formula_length (formula_view c.formula) ≤ formula_length (formula_view found.formula)) }
{
    let all = candidates(alloc, g, t, &found.derivation)?;
    match shortest(alloc, g, t, &found.formula, all)? {
        Some(short) => Ok(short),
        None => Ok(found),
    }
}

/// The formula itself, or where it's asked for a short one in its place.
pub fn shortened_if(
    alloc: Global,
    g: &Graph,
    t: &Target,
    short: bool,
    found: Candidate,
) -> Result<Candidate, AllocError>
    requires sets { AreThreeSets g.now.n (has t.now.x.bits) (has t.now.y.bits) (has t.now.given.bits) }
    requires some { 0 < t.now.y.bits }
    requires usable { IsUsable (graph_of g.now) (target_view t.now) (formula_view found.formula) (derivation_view found.derivation) }
    ensures usable { IfOk result (λ c. IsUsable (graph_of g.now) (target_view t.now) (formula_view c.formula) (derivation_view c.derivation)) }
    ensures first { IfOk result (λ c. IsSameOrShorter short (formula_view found.formula) (derivation_view found.derivation) (formula_view c.formula) (derivation_view c.derivation)) }
{
    if !short {
        return Ok(found);
    }
    let less = shortened(alloc, g, t, found)?;
    Ok(less)
}
