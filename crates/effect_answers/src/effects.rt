//! The effect of sets.

ghost use Rattle.std.specs.Prelude.{◌≡◌};
ghost use Rattle.prob_expr.specs.Vocabulary.{effect_on, target_view};

use mixed_graph::VSet;
use prob_expr::Target;
use targets::EffectSets;

/// The target P(y | do(x)).
pub fn target_of(sets: EffectSets) -> Target
    ensures { target_view result ≡ effect_on sets.x.bits sets.y.bits }
{
    Target {
        x: sets.x,
        y: sets.y,
        given: VSet::EMPTY,
    }
}
