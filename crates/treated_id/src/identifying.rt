//! Identification of an effect among the treated from a graph.

ghost use Rattle.std.specs.Prelude.{◌≡◌, ◌<◌, ◌≤◌, ◌↔◌, true, IsTrue, IfOk, None};
ghost use Rattle.hedge.specs.Vocabulary.{IsSetOf};
ghost use Rattle.mixed_graph.specs.Vocabulary.{has, union, Within, Apart, graph_of};
ghost use Rattle.prob_expr.specs.Vocabulary.{fault_in, is_do_free};
ghost use Rattle.treated_models.specs.Vocabulary.{FormulaNamesOnce, name_count};
ghost use Rattle.treated_id.specs.Answers.{IsRight, IfFormula, is_confounded};
ghost use Rattle.treated_id.specs.Sets.{IsAfter, AreBefore, AreAncestors, IsConfounded};
ghost use Rattle.treated_id.specs.Terms.{IsFormula};

use crate::answers::{Confounding, Treated};
use crate::formulas::formula_of;
use crate::pairs::{Pair, confounded_pair};
use crate::paths::joined_path;
use mixed_graph::{Graph, VSet, joined};
use std::alloc::{AllocError, Global};

/// The members of x and z on which x acts: those with a directed path of two or more vertices from a member of x.
///
/// Where there is none, `treated` may be asked.
pub fn acted_on(g: &Graph, x: VSet, z: VSet) -> VSet
    requires x_within { Within g.now.n (has x.bits) }
    ensures after { IsSetOf result.bits (λ v. IsTrue (has (union x.bits z.bits) v) × IsAfter (graph_of g.now) x.bits v) }
    ensures none { result.bits ≡ 0 → AreBefore (graph_of g.now) x.bits z.bits }
{
    let children = joined(&g.children, x);
    x.union(z).intersection(g.descendants(children))
}

/// The ancestors of y, x and z.
pub fn ancestors_of(g: &Graph, x: VSet, y: VSet, z: VSet) -> VSet
    requires x_within { Within g.now.n (has x.bits) }
    requires y_within { Within g.now.n (has y.bits) }
    requires z_within { Within g.now.n (has z.bits) }
    ensures { AreAncestors (graph_of g.now) x.bits y.bits z.bits result.bits }
{
    g.ancestors(x.union(z).union(y))
}

/// A formula for P(y under do(x) | x and z as observed) from what is observed; or a treatment that is joined to a child of its own
/// (Shpitser and Pearl 2009).
///
/// The formula is over names and primed names: x has the values at its own names where it is set, and those at its primed names
/// where it was observed. The only error is want of memory.
pub fn treated(alloc: Global, g: &Graph, x: VSet, y: VSet, z: VSet) -> Result<Treated, AllocError>
    requires x_within { Within g.now.n (has x.bits) }
    requires y_within { Within g.now.n (has y.bits) }
    requires z_within { Within g.now.n (has z.bits) }
    requires x_off_y { Apart (has x.bits) (has y.bits) }
    requires z_off_y { Apart (has z.bits) (has y.bits) }
    requires x_off_z { Apart (has x.bits) (has z.bits) }
    requires before { AreBefore (graph_of g.now) x.bits z.bits }
    requires some { 0 < y.bits }
    requires few { name_count g.now.n x.bits ≤ 64 }
    ensures right { IfOk result (IsRight (graph_of g.now) x.bits y.bits z.bits) }
    ensures exact { IfOk result (λ a. IsTrue (is_confounded a) ↔ IsConfounded (graph_of g.now) x.bits y.bits z.bits) }
    ensures formula { IfOk result (λ a. IfFormula a (IsFormula (graph_of g.now) x.bits y.bits z.bits)) }
    ensures formed { IfOk result (λ a. IfFormula a (λ f. fault_in (name_count g.now.n x.bits) f ≡ None)) }
    ensures named_once { IfOk result (λ a. IfFormula a (FormulaNamesOnce g.now.n x.bits)) }
    ensures do_free { IfOk result (λ a. IfFormula a (λ f. is_do_free f ≡ true)) }
{
    let s = ancestors_of(g, x, y, z);
    match confounded_pair(g, x, s) {
        Some(Pair { treatment, child }) => {
            let path = joined_path(alloc, g, s, child, treatment)?;
            Ok(Treated::Confounded(Confounding {
                treatment,
                child,
                path,
            }))
        }
        None => Ok(Treated::Formula(formula_of(alloc, g, x, y, z, s)?)),
    }
}
