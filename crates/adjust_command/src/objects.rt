//! The members of the objects of `adjust`.

ghost use Rattle.std.specs.Prelude.{◌≡◌, OnOk};
ghost use Rattle.answer_json.specs.Vocabulary.{with_member, with_members};
ghost use Rattle.adjust_command.specs.Objects.{begun_members, listing_members, admissible_members, not_admissible_members, fault_member};

use adjustment::{AdjFault, formula_for};
use answer_json::Object;
use effect_answers::objects::push_formula;
use mixed_graph::{Names, VSet};
use prob_expr::Target;
use std::alloc::AllocError;
use targets::Sets;

/// The members up to the effect of x on y.
fn push_begun(object: &mut Object, word: &str, names: &Names, sets: Sets) -> Result<(), AllocError>
    ensures { OnOk result (object.new ≡ with_members (begun_members word.now names.now sets.x.bits sets.y.bits) object.old) }
{
    object.word_at("answer", word)?;
    object.set_at("x", names, sets.x)?;
    object.set_at("y", names, sets.y)
}

/// The members of a listing.
pub fn push_listing(
    object: &mut Object,
    word: &str,
    names: &Names,
    asked: Sets,
    sets: &[VSet],
    more: bool,
) -> Result<(), AllocError>
    ensures { OnOk result (object.new ≡ with_members (listing_members word.now names.now asked.x.bits asked.y.bits sets.now more) object.old) }
{
    push_begun(object, word, names, asked)?;
    object.key("sets")?;
    object.sets(names, sets)?;
    object.key("more")?;
    object.boolean(more)
}

/// The members of a set that may be adjusted for, and of the effect with its adjustment formula.
pub fn push_admissible(object: &mut Object, names: &Names, sets: Sets) -> Result<(), AllocError>
    ensures { OnOk result (object.new ≡ with_members (admissible_members names.now sets.x.bits sets.y.bits sets.given.bits) object.old) }
{
    push_begun(object, "admissible", names, sets)?;
    object.set_at("set", names, sets.given)?;
    let effect = Target {
        x: sets.x,
        y: sets.y,
        given: VSet::EMPTY,
    };
    let formula = formula_for(object.alloc(), sets.x, sets.y, sets.given)?;
    push_formula(object, names, &effect, &formula)?;
    Ok(())
}

/// The member of what breaks a criterion.
fn push_fault(object: &mut Object, names: &Names, fault: &AdjFault) -> Result<(), AllocError>
    ensures { let member = fault_member names.now fault.now in OnOk result (object.new ≡ with_member member.0 member.1 object.old) }
{
    match fault {
        AdjFault::Forbidden(v) => object.vertex_at("forbidden", names, *v),
        AdjFault::Unblocked(path) => object.path_at("open", names, path),
    }
}

/// The members of a set that a criterion doesn't allow.
pub fn push_not_admissible(
    object: &mut Object,
    names: &Names,
    sets: Sets,
    fault: &AdjFault,
) -> Result<(), AllocError>
    ensures { OnOk result (object.new ≡ with_members (not_admissible_members names.now sets.x.bits sets.y.bits sets.given.bits fault.now) object.old) }
{
    push_begun(object, "not admissible", names, sets)?;
    object.set_at("set", names, sets.given)?;
    push_fault(object, names, fault)
}
