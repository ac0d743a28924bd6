//! The checker of derivations.

ghost use Rattle.std.specs.Prelude.{◌≡◌, ◌<◌, ℕ, [], true, length, map, IfOk, IfErr, OnOk};
ghost use Rattle.mixed_graph.specs.Vocabulary.{has, graph_of, is_below};
ghost use Rattle.prob_expr.specs.Vocabulary.{cap, masks_of, is_term, are_terms, is_allowed, is_do_free, EqualsEffect, formula_view, target_view};
ghost use Rattle.prob_expr.specs.View.{view};
ghost use Rattle.do_derivation.specs.Accepts.{Accepts, AcceptsNot, Define, DefinesNot, are_sets, sets_of, start_of};
ghost use Rattle.do_derivation.specs.Answers.{IsApplyFault, UnlessNoMemory, StopsAtStep};
ghost use Rattle.do_derivation.specs.Steps.{Makes};
ghost use Rattle.do_derivation.specs.View.{step_view, lemma_view, derivation_view};

use crate::applying::apply_step;
use crate::faults::{ApplyFault, CheckFault, Refusal, StepPlace};
use crate::steps::{Derivation, Lemma, Step};
use mixed_graph::{Graph, VSet};
use prob_expr::{Expr, Formula, Target, cap, is_allowed, is_same};
use std::alloc::Global;

/// What a step makes of an expression, where the lemmas with these sets may be cited.
///
/// Steps are numbered from 1 in preorder, `Then` not counted; a number that would pass the last of
/// 32 bits is given as that. Memory may be refused at any time.
pub fn apply(
    alloc: Global,
    g: &Graph,
    lemmas: &[VSet],
    step: &Step,
    e: Expr,
) -> Result<Expr, ApplyFault>
    requires terms { are_terms g.now.n (view e) ≡ true }
    ensures made { IfOk result (λ x. Makes (graph_of g.now) (masks_of lemmas.now) (step_view step.now) (view e) (view x)) }
    ensures refused { IfErr result (IsApplyFault (graph_of g.now) (masks_of lemmas.now) (step_view step.now) (view e)) }
{
    let mut count = 0;
    match apply_step(alloc, g, lemmas, step, e, &mut count) {
        Ok(made) => Ok(made),
        Err(Refusal::Fault(fault)) => Err(ApplyFault::Step {
            number: count,
            fault,
        }),
        Err(Refusal::NoMemory) => Err(ApplyFault::NoMemory),
    }
}

// Whether a step makes `end` of `start`. A refusal is told at `lemma`, another end at `number`.
fn run(
    alloc: Global,
    g: &Graph,
    lemmas: &Vec<VSet>,
    lemma: Option<u32>,
    number: u32,
    step: &Step,
    start: Expr,
    end: &Expr,
) -> Result<(), CheckFault>
    requires terms { are_terms g.now.n (view start) ≡ true }
    ensures made { OnOk result (Makes (graph_of g.now) (masks_of lemmas.now.items) (step_view step.now) (view start) (view end.now)) }
    ensures fault { IfErr result (λ why. UnlessNoMemory why (StopsAtStep (graph_of g.now) (masks_of lemmas.now.items) (step_view step.now) (view start) (view end.now) lemma number why)) }
{
    match apply(alloc, g, lemmas, step, start) {
        Ok(made) => {
            if is_same(&made, end) {
                Ok(())
            } else {
                Err(CheckFault::EndDiffers(number))
            }
        }
        Err(ApplyFault::Step { number, fault }) => Err(CheckFault::Step {
            place: StepPlace { lemma, number },
            fault,
        }),
        Err(ApplyFault::NoMemory) => Err(CheckFault::NoMemory),
    }
}

// The term P(set | do(all others)).
fn start_of(g: &Graph, set: VSet) -> Expr
    ensures { view result ≡ start_of g.now.n set.bits }
{
    Expr::Prob {
        of: set,
        doing: VSet::below(g.n).difference(set),
        given: VSet::EMPTY,
    }
}

// Whether the lemmas make the definitions, one each: their sets.
fn define(
    alloc: Global,
    g: &Graph,
    lemmas: &Vec<Lemma>,
    defs: &Vec<Expr>,
) -> Result<Vec<VSet>, CheckFault>
    requires sets { are_sets g.now.n (sets_of (map lemma_view lemmas.now.items)) ≡ true }
    ensures define { OnOk result (Define (graph_of g.now) [] (map lemma_view lemmas.now.items) (map view defs.now.items)) }
    ensures sets { IfOk result (λ sets. masks_of sets.items ≡ sets_of (map lemma_view lemmas.now.items)) }
    ensures fault { IfErr result (λ why. UnlessNoMemory why (DefinesNot (graph_of g.now) [] 0 (map lemma_view lemmas.now.items) (map view defs.now.items) why)) }
{
    let mut sets = match Vec::with_capacity(alloc, lemmas.len()) {
        Ok(sets) => sets,
        Err(_) => return Err(CheckFault::NoMemory),
    };
    for (k, lemma) in lemmas.iter().enumerate() {
        if k >= defs.len() {
            return Err(CheckFault::EndDiffers(cap(k)));
        }
        let start = start_of(g, lemma.set);
        run(
            alloc,
            g,
            &sets,
            Some(cap(k)),
            cap(k),
            &lemma.step,
            start,
            &defs[k],
        )?;
        match sets.push(lemma.set) {
            Ok(()) => {}
            Err(_) => return Err(CheckFault::NoMemory),
        }
    }
    if defs.len() > lemmas.len() {
        return Err(CheckFault::EndDiffers(cap(lemmas.len())));
    }
    Ok(sets)
}

/// Whether a derivation shows that a formula equals its target's effect, where terms may stand
/// under the allowed interventions; else its first fault.
///
/// The lemmas come first, each with its steps before its end, then their number, main, and the
/// interventions that are left. An accepted formula equals the effect in each positive model that
/// fits the graph, whoever wrote the derivation. Memory may be refused at any time.
pub fn check_with(
    alloc: Global,
    g: &Graph,
    target: &Target,
    allowed: &[VSet],
    f: &Formula,
    d: &Derivation,
) -> Result<(), CheckFault>
    requires target { is_term g.now.n target.now.y.bits target.now.x.bits target.now.given.bits ≡ true }
    requires sets { are_sets g.now.n (sets_of (derivation_view d.now).lemmas) ≡ true }
    ensures accepted { OnOk result (Accepts (graph_of g.now) (masks_of allowed.now) (target_view target.now) (formula_view f.now) (derivation_view d.now)) }
    ensures fault { IfErr result (λ why. UnlessNoMemory why (AcceptsNot (graph_of g.now) (masks_of allowed.now) (target_view target.now) (formula_view f.now) (derivation_view d.now) why)) }

    // What that means.
    ensures effect { OnOk result (EqualsEffect (graph_of g.now) (target_view target.now) (formula_view f.now)) }
    ensures allowed { OnOk result (is_allowed (masks_of allowed.now) (formula_view f.now) ≡ true) }
{
    let sets = define(alloc, g, &d.lemmas, &f.defs)?;
    let start = Expr::Prob {
        of: target.y,
        doing: target.x,
        given: target.given,
    };
    run(
        alloc,
        g,
        &sets,
        None,
        cap(d.lemmas.len()),
        &d.main,
        start,
        &f.main,
    )?;
    if is_allowed(f, allowed) {
        Ok(())
    } else {
        Err(CheckFault::DoLeft)
    }
}

/// Whether a derivation shows that a formula without interventions equals its target's effect; else
/// its first fault, as `check_with` tells it.
pub fn check(
    alloc: Global,
    g: &Graph,
    target: &Target,
    f: &Formula,
    d: &Derivation,
) -> Result<(), CheckFault>
    requires target { is_term g.now.n target.now.y.bits target.now.x.bits target.now.given.bits ≡ true }
    requires sets { are_sets g.now.n (sets_of (derivation_view d.now).lemmas) ≡ true }
    ensures accepted { OnOk result (Accepts (graph_of g.now) [] (target_view target.now) (formula_view f.now) (derivation_view d.now)) }
    ensures fault { IfErr result (λ why. UnlessNoMemory why (AcceptsNot (graph_of g.now) [] (target_view target.now) (formula_view f.now) (derivation_view d.now) why)) }

    // What that means.
    ensures effect { OnOk result (EqualsEffect (graph_of g.now) (target_view target.now) (formula_view f.now)) }
    ensures do_free { OnOk result (is_do_free (formula_view f.now) ≡ true) }
{
    check_with(alloc, g, target, &[], f, d)
}
