//! The formula of an effect among the treated.

ghost use Rattle.std.specs.Prelude.{◌≤◌, IfOk, length};
ghost use Rattle.mixed_graph.specs.Vocabulary.{has, Within, graph_of};
ghost use Rattle.prob_expr.specs.Vocabulary.{formula_view};
ghost use Rattle.treated_models.specs.Vocabulary.{name_count};
ghost use Rattle.treated_id.specs.Sets.{AreAncestors};
ghost use Rattle.treated_id.specs.Terms.{IsFormula};

use crate::expressions::{sum_if, with_first};
use crate::names::names_of;
use crate::terms::terms_of;
use do_derivation::as_one;
use mixed_graph::{Graph, VSet};
use prob_expr::Formula;
use std::alloc::{AllocError, Global};

/// The formula of P(y under do(x) | x and z as observed), where s has the ancestors of y, x and z.
pub fn formula_of(
    alloc: Global,
    g: &Graph,
    x: VSet,
    y: VSet,
    z: VSet,
    s: VSet,
) -> Result<Formula, AllocError>
    requires few { name_count g.now.n x.bits ≤ 64 }
    requires x_within { Within g.now.n (has x.bits) }
    requires z_within { Within g.now.n (has z.bits) }
    requires ancestors { AreAncestors (graph_of g.now) x.bits y.bits z.bits s.bits }
    ensures { IfOk result (λ f. IsFormula (graph_of g.now) x.bits y.bits z.bits (formula_view f)) }
{
    let order = g.order();
    let observed = x.union(z);
    let c = g.ancestors(observed);
    let vertices = &order.list[..order.count as usize];
    let terms = terms_of(alloc, g, vertices, x, s, c)?;
    let given = names_of(g.n, x, x, observed);
    let factors = with_first(alloc, c.difference(observed), given, terms)?;
    let main = sum_if(alloc, s.difference(observed.union(y)), as_one(factors))?;
    Ok(Formula {
        defs: Vec::new(alloc),
        main,
    })
}
