//! The moves by the three rules.

ghost use Rattle.std.specs.Prelude.{◌≡◌, [], true};
ghost use Rattle.mixed_graph.specs.Vocabulary.{graph_of};
ghost use Rattle.prob_expr.specs.Vocabulary.{are_terms};
ghost use Rattle.prob_expr.specs.View.{view};
ghost use Rattle.do_derivation.specs.Plans.{Move};
ghost use Rattle.do_derivation.specs.Table.{row, is_new, is_part};
ghost use Rattle.do_derivation.specs.Applied.{IsRow};
ghost use Rattle.do_derivation.specs.declared.moves.SetMove.TheVariants as set_move;

use crate::faults::{Refusal, StepFault};
use do_rules::{rule1, rule2, rule3};
use mixed_graph::{Graph, VSet};
use prob_expr::Expr;

/// Whether z isn't empty and stands within the graph apart from a, b and c.
pub fn is_new(g: &Graph, z: VSet, a: VSet, b: VSet, c: VSet) -> bool
    ensures { result ≡ is_new g.now.n z.bits a.bits b.bits c.bits }
{
    !z.is_empty() && z.is_below(g.n) && z.is_apart(a) && z.is_apart(b) && z.is_apart(c)
}

/// Whether z isn't empty and is a part of b.
pub fn is_part(z: VSet, b: VSet) -> bool
    ensures { result ≡ is_part z.bits b.bits }
{
    !z.is_empty() && z.is_inside(b)
}

/// Rule 1: z comes into the condition.
pub fn rule1_in(g: &Graph, z: VSet, e: Expr) -> Result<Expr, Refusal>
    requires terms { are_terms g.now.n (view e) ≡ true }
    ensures row { IsRow (graph_of g.now) (row g.now.n [] (Move.WithSet set_move.Rule1In z.bits) (view e)) result }
{
    let Expr::Prob { of, doing, given } = e else {
        return Err(Refusal::Fault(StepFault::NotATerm));
    };
    if !is_new(g, z, of, doing, given) {
        return Err(Refusal::Fault(StepFault::Sets));
    }
    match rule1(g, doing, of, z, given) {
        Ok(()) => Ok(Expr::Prob {
            of,
            doing,
            given: given.union(z),
        }),
        Err(path) => Err(Refusal::Fault(StepFault::Unblocked(path))),
    }
}

/// Rule 1 backwards: z leaves the condition.
pub fn rule1_out(g: &Graph, z: VSet, e: Expr) -> Result<Expr, Refusal>
    requires terms { are_terms g.now.n (view e) ≡ true }
    ensures row { IsRow (graph_of g.now) (row g.now.n [] (Move.WithSet set_move.Rule1Out z.bits) (view e)) result }
{
    let Expr::Prob { of, doing, given } = e else {
        return Err(Refusal::Fault(StepFault::NotATerm));
    };
    if !is_part(z, given) {
        return Err(Refusal::Fault(StepFault::Sets));
    }
    let rest = given.difference(z);
    match rule1(g, doing, of, z, rest) {
        Ok(()) => Ok(Expr::Prob {
            of,
            doing,
            given: rest,
        }),
        Err(path) => Err(Refusal::Fault(StepFault::Unblocked(path))),
    }
}

/// Rule 2: z leaves the intervention for the condition.
pub fn rule2_see(g: &Graph, z: VSet, e: Expr) -> Result<Expr, Refusal>
    requires terms { are_terms g.now.n (view e) ≡ true }
    ensures row { IsRow (graph_of g.now) (row g.now.n [] (Move.WithSet set_move.Rule2See z.bits) (view e)) result }
{
    let Expr::Prob { of, doing, given } = e else {
        return Err(Refusal::Fault(StepFault::NotATerm));
    };
    if !is_part(z, doing) {
        return Err(Refusal::Fault(StepFault::Sets));
    }
    let rest = doing.difference(z);
    match rule2(g, rest, of, z, given) {
        Ok(()) => Ok(Expr::Prob {
            of,
            doing: rest,
            given: given.union(z),
        }),
        Err(path) => Err(Refusal::Fault(StepFault::Unblocked(path))),
    }
}

/// Rule 2 backwards: z leaves the condition for the intervention.
pub fn rule2_do(g: &Graph, z: VSet, e: Expr) -> Result<Expr, Refusal>
    requires terms { are_terms g.now.n (view e) ≡ true }
    ensures row { IsRow (graph_of g.now) (row g.now.n [] (Move.WithSet set_move.Rule2Do z.bits) (view e)) result }
{
    let Expr::Prob { of, doing, given } = e else {
        return Err(Refusal::Fault(StepFault::NotATerm));
    };
    if !is_part(z, given) {
        return Err(Refusal::Fault(StepFault::Sets));
    }
    let rest = given.difference(z);
    match rule2(g, doing, of, z, rest) {
        Ok(()) => Ok(Expr::Prob {
            of,
            doing: doing.union(z),
            given: rest,
        }),
        Err(path) => Err(Refusal::Fault(StepFault::Unblocked(path))),
    }
}

/// Rule 3 backwards: z comes into the intervention.
pub fn rule3_in(g: &Graph, z: VSet, e: Expr) -> Result<Expr, Refusal>
    requires terms { are_terms g.now.n (view e) ≡ true }
    ensures row { IsRow (graph_of g.now) (row g.now.n [] (Move.WithSet set_move.Rule3In z.bits) (view e)) result }
{
    let Expr::Prob { of, doing, given } = e else {
        return Err(Refusal::Fault(StepFault::NotATerm));
    };
    if !is_new(g, z, of, doing, given) {
        return Err(Refusal::Fault(StepFault::Sets));
    }
    match rule3(g, doing, of, z, given) {
        Ok(()) => Ok(Expr::Prob {
            of,
            doing: doing.union(z),
            given,
        }),
        Err(path) => Err(Refusal::Fault(StepFault::Unblocked(path))),
    }
}

/// Rule 3: z leaves the intervention.
pub fn rule3_out(g: &Graph, z: VSet, e: Expr) -> Result<Expr, Refusal>
    requires terms { are_terms g.now.n (view e) ≡ true }
    ensures row { IsRow (graph_of g.now) (row g.now.n [] (Move.WithSet set_move.Rule3Out z.bits) (view e)) result }
{
    let Expr::Prob { of, doing, given } = e else {
        return Err(Refusal::Fault(StepFault::NotATerm));
    };
    if !is_part(z, doing) {
        return Err(Refusal::Fault(StepFault::Sets));
    }
    let rest = doing.difference(z);
    match rule3(g, rest, of, z, given) {
        Ok(()) => Ok(Expr::Prob {
            of,
            doing: rest,
            given,
        }),
        Err(path) => Err(Refusal::Fault(StepFault::Unblocked(path))),
    }
}
