//! The joint effect of x on y and what is given.

ghost use Rattle.std.specs.Prelude.{◌≡◌, codes, OnOk};
ghost use Rattle.answer_json.specs.Vocabulary.{with_member};
ghost use Rattle.effect_answers.specs.Vocabulary.{joint_json};

use answer_json::Object;
use mixed_graph::{Names, VSet};
use std::alloc::AllocError;

/// The member of the joint effect of x, whose outcomes are these.
pub fn push_joint(object: &mut Object, names: &Names, x: VSet, y: VSet) -> Result<(), AllocError>
    ensures { OnOk result (object.new ≡ with_member (codes "joint") (joint_json names.now x.bits y.bits) object.old) }
{
    object.key("joint")?;
    object.begin_object()?;
    object.set_at("y", names, y)?;
    object.set_at("x", names, x)?;
    object.end_object()?;
    Ok(())
}
