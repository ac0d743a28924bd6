//! The vertices whose levels are read.

ghost use Rattle.std.specs.Prelude.{◌≡◌};
ghost use Rattle.prob_expr.specs.Vocabulary.{formula_view, target_view};
ghost use Rattle.evaluate_command.specs.Effects.{read_for};

use crate::identified::Identified;
use mixed_graph::VSet;
use prob_expr::mentioned;

/// The vertices whose levels are read: those that the formula names, with x, y and what is given.
pub fn used_in(found: &Identified) -> VSet
    ensures { result.bits ≡ read_for (target_view found.now.target) (formula_view found.now.formula) }
{
    let target = found.target;
    mentioned(&found.formula).union(target.x.union(target.y.union(target.given)))
}
