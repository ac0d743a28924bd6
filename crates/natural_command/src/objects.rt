//! The members of the answers' objects.

ghost use Rattle.std.specs.Prelude.{◌≡◌, ◌∷◌, ◌++◌, codes, map, OnOk};
ghost use Rattle.json.specs.Json.{boolean};
ghost use Rattle.prob_expr.specs.Vocabulary.{formula_view};
ghost use Rattle.answer_json.specs.Vocabulary.{with_member, with_members, with_value, with_values, array_of};
ghost use Rattle.natural_command.specs.Second.{names_read};
ghost use Rattle.natural_command.specs.Objects.{question_members, way_members, asked_members, part_members, part_json, body_members, natural_members_of, hedge_members_of, excluded_members, witness_members, split_members};

use crate::answer::Asked;
use crate::effects::effect_text;
use crate::second::names_read;
use crate::texts::{body_text, district_effect, equation_in, joint_of};
use answer_json::Object;
use answer_text::Notation;
use counter_models::CounterPair;
use effect_answers::objects::{push_formula, push_pair};
use hedge::Hedge;
use mixed_graph::{Names, VSet};
use natural_id::{NaturalFormula, Part, Split, Witness};
use primed_names::primed_names;
use primed_questions::push_joint;
use std::alloc::AllocError;

/// The answer's word, and the sets.
fn push_question(
    object: &mut Object,
    word: &str,
    names: &Names,
    asked: Asked,
) -> Result<(), AllocError>
    ensures { OnOk result (object.new ≡ with_members (question_members word.now names.now asked) object.old) }
{
    object.word_at("answer", word)?;
    object.set_at("y", names, asked.question.y)?;
    object.set_at("x", names, asked.question.x)?;
    object.set_at("through", names, asked.question.through)?;
    object.set_at("given", names, asked.question.given)
}

/// A member that is true or false.
fn push_boolean(object: &mut Object, key: &str, value: bool) -> Result<(), AllocError>
    ensures { OnOk result (object.new ≡ with_member key.now (boolean value) object.old) }
{
    object.key(key)?;
    object.boolean(value)
}

/// The second names of x, whether directed paths lead through the mediators and past them, and the effect.
fn push_ways(object: &mut Object, names: &Names, asked: Asked) -> Result<(), AllocError>
    ensures { OnOk result (object.new ≡ with_members (way_members names.now asked) object.old) }
{
    let all = primed_names(object.alloc(), names, asked.question.x)?;
    object.set_at("second", &all, asked.primes)?;
    push_boolean(object, "indirect", asked.indirect)?;
    push_boolean(object, "direct", asked.direct)?;
    let effect = effect_text(object.alloc(), names, asked)?;
    object.text_at("effect", effect.as_slice())
}

/// What all answers begin with: the answer's word, the sets, the second names of x, and the effect.
pub fn push_asked(
    object: &mut Object,
    word: &str,
    names: &Names,
    asked: Asked,
) -> Result<(), AllocError>
    ensures { OnOk result (object.new ≡ with_members (asked_members word.now names.now asked) object.old) }
{
    push_question(object, word, names, asked)?;
    push_ways(object, names, asked)
}

// ---- a formula

/// The members of a part.
fn push_part_members(
    object: &mut Object,
    names: &Names,
    read: &Names,
    x: VSet,
    part: &Part,
) -> Result<(), AllocError>
    ensures { OnOk result (object.new ≡ with_members (part_members names.now read.now x.bits part.now) object.old) }
{
    object.set_at("district", names, part.district)?;
    object.set_at("reads", read, x)?;
    let effect = district_effect(names, part);
    push_formula(object, read, &effect, &part.formula)
}

/// The object of a part.
#[tactic(auto, using(certificate_json::proofs::Members::object_written))]
fn push_part(object: &mut Object, names: &Names, x: VSet, part: &Part) -> Result<(), AllocError>
    ensures { OnOk result (object.new ≡ with_value (part_json names.now x.bits part.now) object.old) }
{
    let read = names_read(object.alloc(), names, x, part.second)?;
    object.begin_object()?;
    push_part_members(object, names, &read, x, part)?;
    object.end_object()?;
    Ok(())
}

/// The objects of the parts.
fn push_each_part(
    object: &mut Object,
    names: &Names,
    x: VSet,
    parts: &Vec<Part>,
) -> Result<(), AllocError>
    ensures { OnOk result (object.new ≡ with_values (map (part_json names.now x.bits) parts.now.items) object.old) }
{
    for part in parts {
        push_part(object, names, x, part)?;
    }
    Ok(())
}

/// The member of the parts.
#[tactic(auto, using(answer_json::proofs::Arrays::array_written))]
fn push_factors(
    object: &mut Object,
    names: &Names,
    x: VSet,
    parts: &Vec<Part>,
) -> Result<(), AllocError>
    ensures { OnOk result (object.new ≡ with_member (codes "factors") (array_of (map (part_json names.now x.bits) parts.now.items)) object.old) }
{
    object.key("factors")?;
    object.begin_array()?;
    push_each_part(object, names, x, parts)?;
    object.end_array()?;
    Ok(())
}

/// The members of a formula alone.
fn push_body(
    object: &mut Object,
    names: &Names,
    asked: Asked,
    f: &NaturalFormula,
) -> Result<(), AllocError>
    ensures { OnOk result (object.new ≡ with_members (body_members names.now asked f.now) object.old) }
{
    let text = body_text(object.alloc(), names, asked, f)?;
    object.text_at("formula", text.as_slice())?;
    object.set_at("summed", names, f.summed)?;
    push_factors(object, names, asked.question.x, &f.parts)?;
    let latex = equation_in(object.alloc(), Notation::Latex, names, asked, f)?;
    object.text_at("latex", latex.as_slice())
}

/// The members of a formula.
pub fn push_formula_of(
    object: &mut Object,
    names: &Names,
    asked: Asked,
    f: &NaturalFormula,
) -> Result<(), AllocError>
    ensures { OnOk result (object.new ≡ with_members (natural_members_of names.now asked f.now) object.old) }
{
    push_asked(object, "formula", names, asked)?;
    push_body(object, names, asked, f)
}

// ---- no formula

/// The members of a hedge of the joint effect.
fn push_hedge_of(
    object: &mut Object,
    names: &Names,
    asked: Asked,
    h: &Hedge,
    pair: &CounterPair,
) -> Result<(), AllocError>
    ensures { OnOk result (object.new ≡ with_members (hedge_members_of names.now asked h.now pair.now) object.old) }
{
    push_joint(object, names, asked.question.x, joint_of(asked))?;
    push_pair(object, names, h, pair)
}

/// The members where the joint effect has a hedge.
pub fn push_excluded(
    object: &mut Object,
    names: &Names,
    asked: Asked,
    h: &Hedge,
    pair: &CounterPair,
) -> Result<(), AllocError>
    ensures { OnOk result (object.new ≡ with_members (excluded_members names.now asked h.now pair.now) object.old) }
{
    push_asked(object, "hedge", names, asked)?;
    push_hedge_of(object, names, asked, h, pair)
}

/// The members where a vertex reads both values of a treatment.
pub fn push_witness(
    object: &mut Object,
    names: &Names,
    asked: Asked,
    w: Witness,
) -> Result<(), AllocError>
    ensures { OnOk result (object.new ≡ with_members (witness_members names.now asked w) object.old) }
{
    push_asked(object, "witness", names, asked)?;
    push_joint(object, names, asked.question.x, joint_of(asked))?;
    object.vertex_at("treatment", names, w.treatment)?;
    object.vertex_at("witness", names, w.child)
}

/// The members where a district reads both values of a treatment.
pub fn push_split(
    object: &mut Object,
    names: &Names,
    asked: Asked,
    s: Split,
) -> Result<(), AllocError>
    ensures { OnOk result (object.new ≡ with_members (split_members names.now asked s) object.old) }
{
    push_asked(object, "district", names, asked)?;
    push_joint(object, names, asked.question.x, joint_of(asked))?;
    object.vertex_at("treatment", names, s.treatment)?;
    object.set_at("district", names, s.district)?;
    object.vertex_at("direct_child", names, s.first)?;
    object.vertex_at("indirect_child", names, s.second)
}
