//! The members of the objects of accepted certificates.

ghost use Rattle.std.specs.Prelude.{◌≡◌, OnOk};
ghost use Rattle.prob_expr.specs.Vocabulary.{formula_view, target_view};
ghost use Rattle.answer_json.specs.Vocabulary.{with_members};
ghost use Rattle.check_command.specs.Objects.{formula_answer, hedge_answer};

use answer_json::Object;
use effect_answers::objects::{push_effect, push_formula, push_target};
use effect_answers::{EffectFormula, target_of};
use hedge::Hedge;
use hedge_json::push_hedge;
use mixed_graph::Names;
use std::alloc::AllocError;
use targets::EffectSets;

/// The members of an accepted formula.
pub fn push_accepted_formula(
    object: &mut Object,
    names: &Names,
    f: &EffectFormula,
) -> Result<(), AllocError>
    ensures { OnOk result (object.new ≡ with_members (formula_answer names.now (target_view f.now.target) (formula_view f.now.formula)) object.old) }
{
    object.word_at("answer", "accepted")?;
    object.word_at("of", "formula")?;
    push_target(object, names, &f.target)?;
    push_formula(object, names, &f.target, &f.formula)
}

/// The members of an accepted hedge for the effect of x on y.
pub fn push_accepted_hedge(
    object: &mut Object,
    names: &Names,
    sets: EffectSets,
    hedge: &Hedge,
) -> Result<(), AllocError>
    ensures { OnOk result (object.new ≡ with_members (hedge_answer names.now sets.x.bits sets.y.bits hedge.now) object.old) }
{
    let target = target_of(sets);
    object.word_at("answer", "accepted")?;
    object.word_at("of", "hedge")?;
    object.set_at("y", names, sets.y)?;
    object.set_at("x", names, sets.x)?;
    push_effect(object, names, &target)?;
    object.key("hedge")?;
    push_hedge(object, names, hedge)
}
