//! The terms of the formula.

ghost use Rattle.std.specs.Prelude.{◌≡◌, ◌≤◌, ◌<◌, ℕ, IsTrue, IfOk, All};
ghost use Rattle.mixed_graph.specs.Vocabulary.{has, one, Within, graph_of};
ghost use Rattle.prob_expr.specs.Tree.{prob};
ghost use Rattle.prob_expr.specs.View.{view};
ghost use Rattle.prob_expr.specs.Vocabulary.{views};
ghost use Rattle.treated_models.specs.Vocabulary.{name_count};
ghost use Rattle.treated_id.specs.Terms.{IsTerm, AreTerms};

use crate::names::names_of;
use hedge::joined_sets::district_of;
use mixed_graph::{Graph, VSet};
use prob_expr::Expr;
use std::alloc::{AllocError, Global};

/// The term of v in a set a: P(v | the others of its district in a, and their parents), with the treatments of the district as observed.
fn term_of(g: &Graph, x: VSet, a: VSet, v: u8) -> Expr
    requires few { name_count g.now.n x.bits ≤ 64 }
    requires x_within { Within g.now.n (has x.bits) }
    requires within { Within g.now.n (has a.bits) }
    requires member { IsTrue (has a.bits v) }
    requires vertex { v < 64 }
    ensures { (given : ℕ) × (view result ≡ prob (one v) 0 given) × IsTerm (graph_of g.now) x.bits a.bits v given }
{
    let near = district_of(g, a, v);
    let pillow = near.union(g.parents_of(near)).difference(VSet::one(v));
    Expr::Prob {
        of: VSet::one(v),
        doing: VSet::EMPTY,
        given: names_of(g.n, x, near, pillow),
    }
}

/// The terms of the members of s outside c, in the order.
pub fn terms_of(
    alloc: Global,
    g: &Graph,
    order: &[u8],
    x: VSet,
    s: VSet,
    c: VSet,
) -> Result<Vec<Expr>, AllocError>
    requires few { name_count g.now.n x.bits ≤ 64 }
    requires x_within { Within g.now.n (has x.bits) }
    requires s_within { Within g.now.n (has s.bits) }
    requires c_within { Within g.now.n (has c.bits) }
    requires vertices { All (λ v. v < 64) order.now }
    ensures { IfOk result (λ ts. AreTerms (graph_of g.now) x.bits s.bits c.bits 0 order.now (views ts.items)) }
{
    let rest = s.difference(c);
    let mut terms = Vec::new(alloc);
    let mut before = VSet::EMPTY;
    for v in order {
        before = before.union(VSet::one(*v));
        if rest.has(*v) {
            let a = c.union(s.intersection(before));
            terms.push(term_of(g, x, a, *v))?;
        }
    }
    Ok(terms)
}
