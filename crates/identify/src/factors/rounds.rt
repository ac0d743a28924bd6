//! The rounds in which a factor is found.

ghost use Rattle.std.specs.Prelude.{◌≡◌, ◌<◌, ◌≤◌, ◌+◌, ◌^◌, ℕ, All, IsTrue, IfOk, IfErr, length};
ghost use Rattle.mixed_graph.specs.Vocabulary.{has, IsOrder, Within, graph_of};
ghost use Rattle.hedge.specs.Vocabulary.{IsInside, IsJoinedSet};
ghost use Rattle.prob_expr.specs.Tree.{sum};
ghost use Rattle.prob_expr.specs.View.{view};
ghost use Rattle.do_derivation.specs.Vocabulary.{listed, steps_view};
ghost use Rattle.identification_theory.specs.Vocabulary.{cut_steps};
ghost use Rattle.identify.specs.Factors.{IsFactorOf, IsMadeFactor, IsFactorFault};
ghost use Rattle.identify.specs.Parts.{source_of};
ghost use Rattle.identify.specs.Rounds.{IsSummed, IsRound, IsRoundFault};

use crate::factors::body::{Body, body_of};
use crate::factors::district_factor::{Factor, FactorFault};
use crate::factors::moves::cut_steps;
use crate::factors::sets::ancestors_in;
use crate::factors::terms::Source;
use crate::wanted::Wanted;
use do_derivation::{Lemma, Step};
use hedge::joined_sets::district_of;
use mixed_graph::{Graph, Order, VSet};
use prob_expr::Expr;
use std::alloc::{AllocError, Global};

/// What one round comes to.
#[derive(Drop)]
enum Round {
    /// The factor.
    Done(Body),
    /// A definition, the distribution of that smaller set, from which the next round begins.
    Further(VSet, Body),
}

/// The steps to a sum over a set, whose body has these steps, where they are wanted.
fn sum_steps(
    alloc: Global,
    wanted: Wanted,
    over: VSet,
    inner: Vec<Step>,
) -> Result<Vec<Step>, AllocError>
    ensures { IfOk result (λ s. wanted ≡ Wanted.Derivation → steps_view s.items ≡ cut_steps over.bits (steps_view inner.items)) }
{
    match wanted {
        Wanted::Formula => Ok(inner),
        Wanted::Derivation => cut_steps(alloc, over, inner),
    }
}

/// The sum over a set of what the body has, and the steps to it, where these are wanted.
fn summed(alloc: Global, wanted: Wanted, over: VSet, body: Body) -> Result<Body, AllocError>
    ensures { IfOk result (IsSummed wanted over.bits body) }
{
    let Body { value, steps } = body;
    Ok(Body {
        value: Expr::Sum {
            over,
            body: Box::new(alloc, value)?,
        },
        steps: sum_steps(alloc, wanted, over, steps)?,
    })
}

/// One round for c from its ancestral set a: the district of c in a, and its part that leads to c.
fn next_round(
    alloc: Global,
    wanted: Wanted,
    g: &Graph,
    order: &[u8],
    c: VSet,
    a: VSet,
    from: Source,
) -> Result<Round, FactorFault>
    requires long { length order.now ≤ 64 }
    requires vertices { All (λ v. v < g.now.n) order.now }
    requires within { Within g.now.n (has a.bits) }
    requires inside { IsInside c.bits a.bits }
    requires some { (v : ℕ) × IsTrue (has c.bits v) }
    requires joined { IsJoinedSet (graph_of g.now) c.bits }
    ensures round { IfOk result (IsRound wanted (graph_of g.now) order.now c.bits a.bits (source_of from)) }
    ensures fault { IfErr result (IsRoundFault (graph_of g.now) c.bits a.bits) }
{
    let t = district_of(g, a, c.lowest());
    if t.bits == c.bits {
        return Ok(Round::Done(body_of(alloc, wanted, g, order, from, a, t)?));
    }
    let leading = ancestors_in(g, t, c);
    if leading.bits == t.bits {
        return Err(FactorFault::Stopped(t));
    }
    let body = body_of(alloc, wanted, g, order, from, a, t)?;
    let body = summed(alloc, wanted, t.difference(leading), body)?;
    if leading.bits == c.bits {
        return Ok(Round::Done(body));
    }
    Ok(Round::Further(leading, body))
}

/// The factor of a district of some set of vertices, its definitions from number `first` on, read
/// from the observed distribution.
///
/// Its steps, and those of its lemmas, are made where a derivation is wanted. `Stopped` where the procedure
/// stops inside the ancestors of the district. Memory may be refused at any time.
pub fn factor(
    alloc: Global,
    wanted: Wanted,
    g: &Graph,
    order: &Order,
    c: VSet,
    first: u32,
) -> Result<Factor, FactorFault>
    requires order { IsOrder (graph_of g.now) order.now.list order.now.count }
    requires within { Within g.now.n (has c.bits) }
    requires some { (v : ℕ) × IsTrue (has c.bits v) }
    requires joined { IsJoinedSet (graph_of g.now) c.bits }
    requires room { first + 64 < 2 ^ 32 }
    ensures factor { IfOk result (IsFactorOf wanted (graph_of g.now) (listed order.now) c.bits first) }
    ensures few { IfOk result (λ f. length f.defs.items ≤ 64) }
    ensures paired { IfOk result (λ f. length f.lemmas.items ≡ length f.defs.items) }
    ensures fault { IfErr result (IsFactorFault (graph_of g.now) c.bits) }
{
    factor_under(alloc, wanted, g, order, VSet::EMPTY, c, first)
}

/// The factor of a district of some set of vertices, its definitions from number `first` on, read
/// from the distribution under an intervention on z.
///
/// Its steps, and those of its lemmas, are made where a derivation is wanted. `Stopped` where the procedure
/// stops inside the ancestors of the district. Memory may be refused at any time.
pub fn factor_under(
    alloc: Global,
    wanted: Wanted,
    g: &Graph,
    order: &Order,
    z: VSet,
    c: VSet,
    first: u32,
) -> Result<Factor, FactorFault>
    requires order { IsOrder (graph_of g.now) order.now.list order.now.count }
    requires within { Within g.now.n (has c.bits) }
    requires some { (v : ℕ) × IsTrue (has c.bits v) }
    requires joined { IsJoinedSet (graph_of g.now) c.bits }
    requires room { first + 64 < 2 ^ 32 }
    ensures factor { IfOk result (IsMadeFactor wanted (graph_of g.now) (listed order.now) z.bits c.bits first) }
    ensures few { IfOk result (λ f. length f.defs.items ≤ 64) }
    ensures paired { IfOk result (λ f. length f.lemmas.items ≡ length f.defs.items) }
    ensures fault { IfErr result (IsFactorFault (graph_of g.now) c.bits) }
{
    let vertices = &order.list[..order.count as usize];
    let mut a = ancestors_in(g, VSet::below(g.n), c);
    let mut from = Source::Under(z);
    let mut defs = Vec::new(alloc);
    let mut lemmas = Vec::new(alloc);
    let mut next = first;
    'rounds: loop {
        let round = match next_round(alloc, wanted, g, vertices, c, a, from) {
            Ok(round) => round,
            Err(fault) => return Err(fault),
        };
        match round {
            Round::Done(Body { value, steps }) => {
                return Ok(Factor {
                    defs,
                    lemmas,
                    value,
                    steps,
                });
            }
            Round::Further(set, Body { value, steps }) => {
                defs.push(value)?;
                let step = Step::Then(steps);
                lemmas.push(Lemma { set, step })?;
                from = Source::Defined(next);
                next += 1;
                a = set;
            }
        }
    }
}
