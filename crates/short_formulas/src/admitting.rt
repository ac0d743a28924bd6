//! Whether a candidate may stand in place of a formula.

ghost use Rattle.std.specs.Prelude.{◌≡◌, ◌≤◌, true, IfOk};
ghost use Rattle.std.specs.Bool.{OnTrue};
ghost use Rattle.mixed_graph.specs.Vocabulary.{has, IsAncestor, graph_of};
ghost use Rattle.prob_expr.specs.Vocabulary.{is_term, formula_view, target_view};
ghost use Rattle.do_derivation.specs.Vocabulary.{derivation_view};
ghost use Rattle.identification_theory.specs.Vocabulary.{FormulaNamesOnly};
ghost use Rattle.short_formulas.specs.Length.{formula_length};
ghost use Rattle.short_formulas.specs.Short.{IsReadable, IsAccepted, IsInPlaceOf};

use crate::depths::{are_defs_within, are_lemmas_within, is_step_within, is_tree_within};
use crate::lemma_sets::are_sets;
use crate::measuring::length;
use do_derivation::{CheckFault, check};
use held_steps::Candidate;
use mixed_graph::{Graph, VSet};
use prob_expr::{Formula, Target, check as check_formula, mentioned};
use std::alloc::{AllocError, Global};

/// Whether a formula with its derivation nests so little that its certificate is read again.
fn is_readable(c: &Candidate) -> bool
    ensures { OnTrue result (IsReadable (formula_view c.now.formula) (derivation_view c.now.derivation)) }
{
    if !is_step_within(60, &c.derivation.main) {
        return false;
    }
    if !are_lemmas_within(60, &c.derivation.lemmas) {
        return false;
    }
    if !is_tree_within(60, &c.formula.main) {
        return false;
    }
    if !are_defs_within(60, &c.formula.defs) {
        return false;
    }
    c.formula.defs.len() <= 4096
}

/// Whether a formula is no longer than another.
fn is_no_longer(f: &Formula, other: &Formula) -> bool
    ensures { OnTrue result (formula_length (formula_view f.now) ≤ formula_length (formula_view other.now)) }
{
    let count = length(f);
    if count == u32::MAX {
        return false;
    }
    count <= length(other)
}

/// Whether a formula names ancestors of a set alone.
fn names_ancestors(g: &Graph, f: &Formula, set: VSet) -> bool
    ensures { OnTrue result (FormulaNamesOnly (IsAncestor (graph_of g.now) (has set.bits)) (formula_view f.now)) }
{
    if !g.covers(set) {
        return false;
    }
    mentioned(f).is_inside(g.ancestors(set))
}

/// Whether the checks of formulas and of derivations accept a candidate.
fn is_accepted(alloc: Global, g: &Graph, t: &Target, c: &Candidate) -> Result<bool, AllocError>
    requires target { is_term g.now.n t.now.y.bits t.now.x.bits t.now.given.bits ≡ true }
    ensures { IfOk result (λ b. OnTrue b (IsAccepted (graph_of g.now) (target_view t.now) (formula_view c.now.formula) (derivation_view c.now.derivation))) }
{
    let Ok(()) = check_formula(&c.formula, g.n) else {
        return Ok(false);
    };
    if !are_sets(g.n, &c.derivation.lemmas) {
        return Ok(false);
    }
    match check(alloc, g, t, &c.formula, &c.derivation) {
        Ok(()) => Ok(true),
        Err(CheckFault::NoMemory) => Err(AllocError),
        Err(_) => Ok(false),
    }
}

/// Whether a candidate is right for a target, nests little, and is no longer than a formula.
pub fn is_in_place_of(
    alloc: Global,
    g: &Graph,
    t: &Target,
    other: &Formula,
    c: &Candidate,
) -> Result<bool, AllocError>
    requires target { is_term g.now.n t.now.y.bits t.now.x.bits t.now.given.bits ≡ true }
    ensures { IfOk result (λ b. OnTrue b (IsInPlaceOf (graph_of g.now) (target_view t.now) (formula_view other.now) (formula_view c.now.formula) (derivation_view c.now.derivation))) }
{
    if !is_no_longer(&c.formula, other) {
        return Ok(false);
    }
    if !is_readable(c) {
        return Ok(false);
    }
    if !names_ancestors(g, &c.formula, t.y.union(t.given)) {
        return Ok(false);
    }
    is_accepted(alloc, g, t, c)
}
