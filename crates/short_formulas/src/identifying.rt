//! Identification that answers short formulas.

ghost use Rattle.std.specs.Prelude.{◌≡◌, ℕ, ◌<◌, ◌↔◌, false, IsTrue, IfOk};
ghost use Rattle.mixed_graph.specs.Vocabulary.{has, graph_of};
ghost use Rattle.do_rules.specs.Vocabulary.{AreThreeSets};
ghost use Rattle.prob_expr.specs.Vocabulary.{target_view};
ghost use Rattle.conditional_id.specs.Vocabulary.{IsRight, SomeFormula, SomeJointHedge, IfFormula, is_joint};
ghost use Rattle.short_formulas.specs.Short.{IsReadable, IsNoLonger};

use crate::shortening::shortened;
use conditional_id::{Conditional, identify_given};
use held_steps::Candidate;
use mixed_graph::Graph;
use prob_expr::Target;
use std::alloc::{AllocError, Global};

/// A short formula for P(y | do(x), given) from what is observed, or the joint effect that can't be identified
/// where `identify_given` answers one.
///
/// The formula is no longer than that of the procedure. The only error is want of memory.
pub fn identify_short(alloc: Global, g: &Graph, t: &Target) -> Result<Conditional, AllocError>
    requires sets { AreThreeSets g.now.n (has t.now.x.bits) (has t.now.y.bits) (has t.now.given.bits) }
    requires some { 0 < t.now.y.bits }

    // A formula has an accepted derivation and the value of the effect; a joint effect is the one that identification answers.
    ensures right { IfOk result (IsRight (graph_of g.now) (target_view t.now)) }

    // A formula is answered exactly where the target has one without interventions, and a joint effect exactly where it has a hedge.
    ensures exact_formula { IfOk result (λ a. is_joint a ≡ false ↔ SomeFormula (graph_of g.now) (target_view t.now)) }
    ensures exact { IfOk result (λ a. IsTrue (is_joint a) ↔ SomeJointHedge (graph_of g.now) (target_view t.now)) }

    // The formula is no longer than the procedure's, and nests little.
    ensures no_longer { IfOk result (λ a. IfFormula a (λ f d. IsNoLonger (graph_of g.now) (target_view t.now) f)) }
    ensures readable { IfOk result (λ a. IfFormula a IsReadable) }
{
    match identify_given(alloc, g, t)? {
        Conditional::Formula(formula, derivation) => {
            let found = Candidate {
                formula,
                derivation,
            };
            let Candidate {
                formula,
                derivation,
            } = shortened(alloc, g, t, found)?;
            Ok(Conditional::Formula(formula, derivation))
        }
        Conditional::Joint {
            x,
            y,
            settled,
            hedge,
            pair,
        } => Ok(Conditional::Joint {
            x,
            y,
            settled,
            hedge,
            pair,
        }),
    }
}
