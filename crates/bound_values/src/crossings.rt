//! Bounds that cross.

ghost use Rattle.std.specs.Prelude.{ℕ, ◌≡◌, ◌≢◌, true, false, IfSome, IfNone};
ghost use Rattle.count_table.specs.Vocabulary.{HasLevels};
ghost use Rattle.count_eval.specs.Vocabulary.{weights_in, is_used, cell_of};
ghost use Rattle.natural_bounds.specs.declared.ends.End.TheVariants.{AtLeast, AtMost};
ghost use Rattle.bound_values.specs.Questions.{asked_of, IsScope};
ghost use Rattle.bound_values.specs.Values.{fraction_of, bound_by, DeniesModels};
ghost use Rattle.bound_values.specs.Found.{are_crossed};

use crate::cells::bound_by;
use crate::questions::{Method, Scope};
use crate::ratios::Ratio;
use natural_bounds::End;

/// Bounds of a stratum that cross: the effect would be at least `lower` and at most `upper`, which is less.
#[derive(Clone, Copy, Debug, PartialEq, Eq)]
pub struct Crossing {
    pub lower: Ratio,
    pub upper: Ratio,
}

/// Whether the bounds by instruments of the stratum of a cell cross: then no model of the diagram has these counts.
///
/// The question isn't one by adjustment.
pub fn crossing_at(scope: &Scope, cell: [u32; 64]) -> Option<Crossing>
    requires scope { IsScope scope.now.n scope.now.counts.now scope.now.question.method (asked_of scope.now.question) scope.now.sums.now }
    requires instruments { scope.now.question.method ≢ Method.Adjustment }
    requires levels { HasLevels scope.now.counts.now (is_used scope.now.counts.now) cell }
    ensures crossed { IfSome result (λ c. are_crossed scope.now.question.method (weights_in scope.now.n scope.now.counts.now) (asked_of scope.now.question) (cell_of cell) ≡ true) }
    ensures lower { IfSome result (λ c. fraction_of c.lower ≡ bound_by scope.now.question.method AtLeast (weights_in scope.now.n scope.now.counts.now) (asked_of scope.now.question) (cell_of cell)) }
    ensures upper { IfSome result (λ c. fraction_of c.upper ≡ bound_by scope.now.question.method AtMost (weights_in scope.now.n scope.now.counts.now) (asked_of scope.now.question) (cell_of cell)) }
    ensures model { IfSome result (λ c. DeniesModels scope.now.question.method scope.now.n scope.now.counts.now (asked_of scope.now.question) (cell_of cell)) }
    ensures none { IfNone result (are_crossed scope.now.question.method (weights_in scope.now.n scope.now.counts.now) (asked_of scope.now.question) (cell_of cell) ≡ false) }
{
    // The clauses `crossed` are needed: no model has counts whose bounds cross.
    natural_bounds::laws();
    crossed_bounds::laws();
    let lower = bound_by(scope, End::AtLeast, cell);
    let upper = bound_by(scope, End::AtMost, cell);
    if lower.is_at_most(upper) {
        None
    } else {
        Some(Crossing { lower, upper })
    }
}
