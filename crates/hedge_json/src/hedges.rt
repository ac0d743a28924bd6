//! A hedge as an object.

ghost use Rattle.std.specs.Prelude.{◌≡◌, ◌∷◌, [], if◌then◌else◌, OnOk, codes};
ghost use Rattle.identify_text.specs.Vocabulary.{chooses};
ghost use Rattle.answer_json.specs.Vocabulary.{with_value, with_values, with_member, array_of};
ghost use Rattle.hedge_json.specs.Hedges.{choice_json, choices_json, link_json, links_json, hedge_json};

use answer_json::Object;
use hedge::Hedge;
use identify_text::entry;
use mixed_graph::Names;
use std::alloc::AllocError;

/// The choice of v, where v is a member of big that has one.
fn push_choice(object: &mut Object, names: &Names, h: &Hedge, v: u8) -> Result<(), AllocError>
    ensures { OnOk result (object.new ≡ with_values (if chooses h.now v then choice_json names.now h.now v ∷ [] else []) object.old) }
{
    let child = entry(&h.choice.next, v as usize);
    if !h.big.has(v) || child >= 64 {
        return Ok(());
    }
    object.begin_object()?;
    object.vertex_at("vertex", names, v)?;
    object.vertex_at("child", names, child)?;
    object.end_object()?;
    Ok(())
}

/// The choice of each member of big, in index order.
fn push_choices(object: &mut Object, names: &Names, h: &Hedge) -> Result<(), AllocError>
    ensures { OnOk result (object.new ≡ with_values (choices_json names.now h.now) object.old) }
{
    for v in 0..64u8 {
        push_choice(object, names, h, v)?;
    }
    Ok(())
}

/// Entry i and its partner.
fn push_link(object: &mut Object, names: &Names, h: &Hedge, i: usize) -> Result<(), AllocError>
    ensures { OnOk result (object.new ≡ with_value (link_json names.now h.now i) object.old) }
{
    let (found, partner) = (entry(&h.links.found, i), entry(&h.links.partner, i));
    object.pair(names, found, partner)
}

/// Each entry after the first with its partner, in found order.
fn push_links(object: &mut Object, names: &Names, h: &Hedge) -> Result<(), AllocError>
    ensures { OnOk result (object.new ≡ with_values (links_json names.now h.now) object.old) }
{
    for i in 1..h.links.count as usize {
        push_link(object, names, h, i)?;
    }
    Ok(())
}

/// A hedge as a value: its sets, its choices and its links.
#[tactic(auto, using(answer_json::proofs::Arrays::array_written))]
pub fn push_hedge(object: &mut Object, names: &Names, h: &Hedge) -> Result<(), AllocError>
    ensures { OnOk result (object.new ≡ with_value (hedge_json names.now h.now) object.old) }
{
    object.begin_object()?;
    object.set_at("larger", names, h.big)?;
    object.set_at("smaller", names, h.small)?;
    object.set_at("roots", names, h.roots)?;
    push_choices_at(object, names, h)?;
    push_links_at(object, names, h)?;
    object.end_object()?;
    Ok(())
}

/// The member of the choices.
#[tactic(auto, using(answer_json::proofs::Arrays::array_written))]
fn push_choices_at(object: &mut Object, names: &Names, h: &Hedge) -> Result<(), AllocError>
    ensures { OnOk result (object.new ≡ with_member (codes "choices") (array_of (choices_json names.now h.now)) object.old) }
{
    object.key("choices")?;
    object.begin_array()?;
    push_choices(object, names, h)?;
    object.end_array()?;
    Ok(())
}

/// The member of the links.
#[tactic(auto, using(answer_json::proofs::Arrays::array_written))]
fn push_links_at(object: &mut Object, names: &Names, h: &Hedge) -> Result<(), AllocError>
    ensures { OnOk result (object.new ≡ with_member (codes "links") (array_of (links_json names.now h.now)) object.old) }
{
    object.key("links")?;
    object.begin_array()?;
    push_links(object, names, h)?;
    object.end_array()?;
    Ok(())
}
