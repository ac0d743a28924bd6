//! The members of the answers' objects.

ghost use Rattle.std.specs.Prelude.{◌≡◌, ◌∷◌, codes, map, OnOk};
ghost use Rattle.json.specs.Json.{string};
ghost use Rattle.prob_expr.specs.Vocabulary.{formula_view};
ghost use Rattle.answer_json.specs.Vocabulary.{with_member, with_members, with_values, array_of, set_json, vertices_json};
ghost use Rattle.effect_answers.specs.Vocabulary.{effect_json};
ghost use Rattle.primed_names.specs.Vocabulary.{primed_names};
ghost use Rattle.treated_command.specs.Sentences.{target_of};
ghost use Rattle.treated_command.specs.Objects.{asked_members, certified_members, path_object, formula_object, confounding_members, reason_members, excluded_members, two_values_json, unfixed_members};

use crate::answer::Asked;
use crate::texts::{is_single, joint_of, split_text, target_of};
use answer_json::Object;
use counter_models::CounterPair;
use effect_answers::objects::{push_effect as push_target_effect, push_formula, push_pair};
use hedge::Hedge;
use mixed_graph::Names;
use primed_names::primed_names;
use primed_questions::push_joint;
use prob_expr::Formula;
use std::alloc::AllocError;
use treated_id::Confounding;

/// The member of the primed names of x, in the order of x.
fn push_observed(object: &mut Object, names: &Names, asked: Asked) -> Result<(), AllocError>
    ensures { OnOk result (object.new ≡ with_member (codes "observed") (set_json (primed_names names.now asked.sets.x.bits) asked.primes.bits) object.old) }
{
    let all = primed_names(object.alloc(), names, asked.sets.x)?;
    object.set_at("observed", &all, asked.primes)
}

/// The answer's word, and what is asked for.
fn push_asked(
    object: &mut Object,
    word: &str,
    names: &Names,
    asked: Asked,
) -> Result<(), AllocError>
    ensures { OnOk result (object.new ≡ with_members (asked_members word.now names.now asked) object.old) }
{
    object.word_at("answer", word)?;
    object.set_at("y", names, asked.sets.y)?;
    object.set_at("x", names, asked.sets.x)?;
    object.set_at("given", names, asked.sets.given)?;
    push_observed(object, names, asked)
}

/// The members of a formula.
pub fn push_formula_of(
    object: &mut Object,
    names: &Names,
    asked: Asked,
    f: &Formula,
) -> Result<(), AllocError>
    ensures { OnOk result (object.new ≡ with_members (formula_object names.now asked (formula_view f.now)) object.old) }
{
    push_asked(object, "formula", names, asked)?;
    let all = primed_names(object.alloc(), names, asked.sets.x)?;
    push_formula(object, &all, &target_of(asked), f)
}

/// The members of a certificate, which stands on a line of its own.
pub fn push_certified(object: &mut Object, names: &Names, asked: Asked) -> Result<(), AllocError>
    ensures { OnOk result (object.new ≡ with_members (certified_members names.now asked) object.old) }
{
    push_asked(object, "certificate", names, asked)
}

/// The member of the effect that is asked for.
fn push_effect(object: &mut Object, names: &Names, asked: Asked) -> Result<(), AllocError>
    ensures { OnOk result (object.new ≡ with_member (codes "effect") (effect_json (primed_names names.now asked.sets.x.bits) (target_of asked)) object.old) }
{
    let all = primed_names(object.alloc(), names, asked.sets.x)?;
    push_target_effect(object, &all, &target_of(asked))
}

/// The member of a path's vertices.
fn push_vertices(object: &mut Object, names: &Names, c: &Confounding) -> Result<(), AllocError>
    ensures { OnOk result (object.new ≡ with_member (codes "vertices") (vertices_json names.now (c.now.child ∷ c.now.path.items)) object.old) }
{
    let mut path = vec![in object.alloc(); c.child]?;
    path.extend_from_slice(c.path.as_slice())?;
    object.vertices_at("vertices", names, path.as_slice())
}

/// A mark of a bidirected edge for each vertex.
fn push_each_mark(object: &mut Object, path: &[u8]) -> Result<(), AllocError>
    ensures { OnOk result (object.new ≡ with_values (map (λ v. string (codes "<->")) path.now) object.old) }
{
    for _ in path {
        object.string("<->")?;
    }
    Ok(())
}

/// The member of a path's marks.
#[tactic(auto, using(answer_json::proofs::Arrays::array_written))]
fn push_marks(object: &mut Object, path: &[u8]) -> Result<(), AllocError>
    ensures { OnOk result (object.new ≡ with_member (codes "marks") (array_of (map (λ v. string (codes "<->")) path.now)) object.old) }
{
    object.key("marks")?;
    object.begin_array()?;
    push_each_mark(object, path)?;
    object.end_array()?;
    Ok(())
}

/// The member of the bidirected path from the child to the treatment.
fn push_path(object: &mut Object, names: &Names, c: &Confounding) -> Result<(), AllocError>
    ensures { OnOk result (object.new ≡ with_member (codes "path") (path_object names.now c.now) object.old) }
{
    object.key("path")?;
    object.begin_object()?;
    push_vertices(object, names, c)?;
    push_marks(object, c.path.as_slice())?;
    object.end_object()?;
    Ok(())
}

/// The members of a treatment that is confounded with a child of its own.
fn push_confounding(object: &mut Object, names: &Names, c: &Confounding) -> Result<(), AllocError>
    ensures { OnOk result (object.new ≡ with_members (confounding_members names.now c.now) object.old) }
{
    object.vertex_at("treatment", names, c.treatment)?;
    object.vertex_at("child", names, c.child)?;
    push_path(object, names, c)
}

/// The members that are those of both answers without a formula.
fn push_reason(
    object: &mut Object,
    word: &str,
    names: &Names,
    asked: Asked,
    c: &Confounding,
) -> Result<(), AllocError>
    ensures { OnOk result (object.new ≡ with_members (reason_members word.now names.now asked c.now) object.old) }
{
    push_asked(object, word, names, asked)?;
    push_effect(object, names, asked)?;
    push_confounding(object, names, c)?;
    push_joint(object, names, asked.sets.x, joint_of(asked))
}

/// The members where the joint effect has a hedge.
pub fn push_excluded(
    object: &mut Object,
    names: &Names,
    asked: Asked,
    c: &Confounding,
    h: &Hedge,
    pair: &CounterPair,
) -> Result<(), AllocError>
    ensures { OnOk result (object.new ≡ with_members (excluded_members names.now asked c.now h.now pair.now) object.old) }
{
    push_reason(object, "hedge", names, asked, c)?;
    push_pair(object, names, h, pair)
}

/// The member of how the joint effect is made up where the treatment has two values.
fn push_two_values(object: &mut Object, names: &Names, asked: Asked) -> Result<(), AllocError>
    ensures { OnOk result (object.new ≡ with_member (codes "two_values") (two_values_json names.now asked) object.old) }
{
    object.key("two_values")?;
    if !is_single(asked) {
        return object.null();
    }
    let text = split_text(object.alloc(), names, asked)?;
    object.text(text.as_slice())
}

/// The members where the joint effect has a formula.
pub fn push_unfixed(
    object: &mut Object,
    names: &Names,
    asked: Asked,
    c: &Confounding,
) -> Result<(), AllocError>
    ensures { OnOk result (object.new ≡ with_members (unfixed_members names.now asked c.now) object.old) }
{
    push_reason(object, "path", names, asked, c)?;
    push_two_values(object, names, asked)
}
