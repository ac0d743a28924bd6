//! The moves on terms and sums.

ghost use Rattle.std.specs.Prelude.{◌≡◌, ◌<◌, ◌≤◌, ℕ, [], true, length, IfOk, All};
ghost use Rattle.std.specs.Bool.{OnTrue};
ghost use Rattle.mixed_graph.specs.Vocabulary.{has, graph_of};
ghost use Rattle.prob_expr.specs.Tree.{prob};
ghost use Rattle.prob_expr.specs.View.{view};
ghost use Rattle.prob_expr.specs.Vocabulary.{views, masks_of};
ghost use Rattle.do_derivation.specs.Plans.{Move};
ghost use Rattle.do_derivation.specs.Shapes.{is_list_of, chained};
ghost use Rattle.do_derivation.specs.Table.{row};
ghost use Rattle.do_derivation.specs.View.{listed};
ghost use Rattle.do_derivation.specs.Applied.{IsRow};
ghost use Rattle.do_derivation.specs.declared.moves.SetMove.TheVariants as set_move;
ghost use Rattle.do_derivation.specs.declared.moves.BareMove.TheVariants as bare_move;

use crate::faults::{Refusal, StepFault};
use crate::rule_moves::is_new;
use mixed_graph::{Graph, Order, VSet};
use prob_expr::Expr;
use std::alloc::{AllocError, Global};

// A term in a box.
fn boxed(alloc: Global, of: VSet, doing: VSet, given: VSet) -> Result<Box<Expr>, AllocError>
    ensures { IfOk result (λ b. view b.value ≡ prob of.bits doing.bits given.bits) }
{
    Ok(Box::new(alloc, Expr::Prob { of, doing, given })?)
}

/// A term as the sum over u of the term with u.
pub fn widen(alloc: Global, g: &Graph, u: VSet, e: Expr) -> Result<Expr, Refusal>
    ensures row { IsRow (graph_of g.now) (row g.now.n [] (Move.WithSet set_move.Widen u.bits) (view e)) result }
{
    match e {
        Expr::Prob { of, doing, given } => {
            if !is_new(g, u, of, doing, given) {
                return Err(Refusal::Fault(StepFault::Sets));
            }
            match boxed(alloc, of.union(u), doing, given) {
                Ok(body) => Ok(Expr::Sum { over: u, body }),
                Err(_) => Err(Refusal::NoMemory),
            }
        }
        _ => Err(Refusal::Fault(StepFault::NotATerm)),
    }
}

/// A sum of a term as the term without the summed vertices.
pub fn narrow(g: &Graph, e: Expr) -> Result<Expr, Refusal>
    ensures row { IsRow (graph_of g.now) (row g.now.n [] (Move.Bare bare_move.Narrow) (view e)) result }
{
    match e {
        Expr::Sum { over, body } => match Box::into_inner(body) {
            Expr::Prob { of, doing, given } => {
                if over.is_inside(of) && over.bits != of.bits {
                    Ok(Expr::Prob {
                        of: of.difference(over),
                        doing,
                        given,
                    })
                } else {
                    Err(Refusal::Fault(StepFault::Shape))
                }
            }
            _ => Err(Refusal::Fault(StepFault::Shape)),
        },
        _ => Err(Refusal::Fault(StepFault::Shape)),
    }
}

/// A conditional term as a quotient.
pub fn split(alloc: Global, g: &Graph, e: Expr) -> Result<Expr, Refusal>
    ensures row { IsRow (graph_of g.now) (row g.now.n [] (Move.Bare bare_move.Split) (view e)) result }
{
    match e {
        Expr::Prob { of, doing, given } => {
            if given.is_empty() {
                return Err(Refusal::Fault(StepFault::Sets));
            }
            let none = VSet::EMPTY;
            let top = match boxed(alloc, of.union(given), doing, none) {
                Ok(top) => top,
                Err(_) => return Err(Refusal::NoMemory),
            };
            match boxed(alloc, given, doing, none) {
                Ok(bottom) => Ok(Expr::Quotient { top, bottom }),
                Err(_) => Err(Refusal::NoMemory),
            }
        }
        _ => Err(Refusal::Fault(StepFault::NotATerm)),
    }
}

/// A lemma's term as its definition.
pub fn cite(g: &Graph, lemmas: &[VSet], k: u32, e: Expr) -> Result<Expr, Refusal>
    ensures row { IsRow (graph_of g.now) (row g.now.n (masks_of lemmas.now) (Move.Cite k) (view e)) result }
{
    if k as usize >= lemmas.len() {
        return Err(Refusal::Fault(StepFault::NoLemma(k)));
    }
    let set = lemmas[k as usize];
    match e {
        Expr::Prob { of, doing, given } => {
            let others = VSet::below(g.n).difference(set);
            if of.bits == set.bits && doing.bits == others.bits && given.is_empty() {
                Ok(Expr::Named(k))
            } else {
                Err(Refusal::Fault(StepFault::Shape))
            }
        }
        _ => Err(Refusal::Fault(StepFault::NotATerm)),
    }
}

// Whether v is a vertex of the set.
#[tactic(auto, using(crate::proofs::Lists::not_above))]
fn is_member(set: VSet, v: u8) -> bool
    ensures member { result ≡ has set.bits v }
    ensures small { OnTrue result (v < 64) }
{
    if v >= 64 {
        return false;
    }
    set.has(v)
}

// Whether the list holds each vertex of the set once, and nothing else.
fn is_list_of(list: &[u8], set: VSet) -> bool
    ensures list { result ≡ is_list_of list.now set.bits }
    ensures small { OnTrue result (All (λ v. v < 64) list.now) }
{
    let mut rest = set;
    for v in list {
        if !is_member(rest, *v) {
            return false;
        }
        rest = rest.difference(VSet::one(*v));
    }
    rest.is_empty()
}

// The term as a product over the vertices of the list.
fn chained(alloc: Global, doing: VSet, given: VSet, list: &[u8]) -> Result<Vec<Expr>, AllocError>
    requires in_range { All (λ v. v < 64) list.now }
    ensures { IfOk result (λ made. views made.items ≡ chained doing.bits given.bits list.now) }
{
    let mut factors = Vec::with_capacity(alloc, list.len())?;
    let mut known = given;
    for v in list {
        let of = VSet::one(*v);
        factors.push(Expr::Prob {
            of,
            doing,
            given: known,
        })?;
        known = known.union(of);
    }
    Ok(factors)
}

/// A term as the product over the order of its vertices.
pub fn chain(alloc: Global, g: &Graph, order: &Order, e: Expr) -> Result<Expr, Refusal>
    ensures row { IsRow (graph_of g.now) (row g.now.n [] (Move.Chain (listed order.now)) (view e)) result }
{
    let list = &order.list[..order.count as usize];
    match e {
        Expr::Prob { of, doing, given } => {
            if list.len() < 2 || !is_list_of(list, of) {
                return Err(Refusal::Fault(StepFault::BadOrder));
            }
            match chained(alloc, doing, given, list) {
                Ok(factors) => Ok(Expr::Product(factors)),
                Err(_) => Err(Refusal::NoMemory),
            }
        }
        _ => Err(Refusal::Fault(StepFault::NotATerm)),
    }
}
