//! The members of a hedge's certificate.

ghost use Rattle.std.specs.Prelude.{◌≡◌, ◌++◌, ◌∷◌, [], length, map, IfOk, OnOk};
ghost use Rattle.std.specs.List.{zip};
ghost use Rattle.certificate.specs.Vocabulary.{links_view, hedge_view};
ghost use Rattle.answer_json.specs.Vocabulary.{with_value, with_values, with_members, array_of, vertices_json, pair_json, pairs_json};
ghost use Rattle.certificate_json.specs.Kept.{IsKept};
ghost use Rattle.certificate_json.specs.Certificates.{choices_from, link_values, hedge_members};

use answer_json::Object;
use hedge::{Choice, Hedge, Links};
use mixed_graph::Names;
use std::alloc::{AllocError, Global};

/// A vertex and its child, where it has one.
fn push_choice(all: &mut Vec<(u8, u8)>, v: u8, child: u8) -> Result<(), AllocError>
    ensures { OnOk result (all.new.items ≡ all.old.items ++ choices_from v (child ∷ [])) }
{
    if child == 64 {
        return Ok(());
    }
    all.push((v, child))?;
    Ok(())
}

/// The vertices that have a choice, each with its child.
fn choices_of(alloc: Global, choice: &Choice) -> Result<Vec<(u8, u8)>, AllocError>
    ensures pairs { IfOk result (λ v. v.items ≡ choices_from 0 choice.now.next) }
    ensures size { length choice.now.next ≡ 64 }
{
    let next = &choice.next;
    let mut all = Vec::new(alloc);
    for v in 0..64 {
        push_choice(&mut all, v, next[v as usize])?;
    }
    Ok(all)
}

/// The choices: each vertex that has one, with its child.
fn push_choices(object: &mut Object, names: &Names, choice: &Choice) -> Result<(), AllocError>
    ensures written { OnOk result (object.new ≡ with_value (pairs_json names.now (choices_from 0 choice.now.next)) object.old) }
    ensures size { length choice.now.next ≡ 64 }
{
    let pairs = choices_of(object.alloc(), choice)?;
    object.pairs(names, pairs.as_slice())
}

/// Each found vertex with its partner.
fn paired(alloc: Global, found: &[u8], partner: &[u8]) -> Result<Vec<(u8, u8)>, AllocError>
    requires { length found.now ≡ length partner.now }
    ensures { IfOk result (λ v. v.items ≡ zip found.now partner.now) }
{
    let mut all = Vec::new(alloc);
    for i in 0..found.len() {
        all.push((found[i], partner[i]))?;
    }
    Ok(all)
}

/// A list of the start alone.
fn push_start(object: &mut Object, names: &Names, v: u8) -> Result<(), AllocError>
    ensures { OnOk result (object.new ≡ with_value (vertices_json names.now (v ∷ [])) object.old) }
{
    object.begin_array()?;
    object.vertex(names, v)?;
    object.end_array()?;
    Ok(())
}

/// Pairs one after another.
fn push_each(object: &mut Object, names: &Names, pairs: &[(u8, u8)]) -> Result<(), AllocError>
    ensures { OnOk result (object.new ≡ with_values (map (pair_json names.now) pairs.now) object.old) }
{
    for pair in pairs {
        object.pair(names, pair.0, pair.1)?;
    }
    Ok(())
}

/// The start alone, and then pairs.
fn push_entries(object: &mut Object, names: &Names, entries: &[(u8, u8)]) -> Result<(), AllocError>
    ensures { OnOk result (object.new ≡ with_values (link_values names.now entries.now) object.old) }
{
    let [start, rest @ ..] = entries else {
        return Ok(());
    };
    push_start(object, names, start.0)?;
    push_each(object, names, rest)?;
    Ok(())
}

/// The links: the start alone, and then each found vertex with its partner.
#[tactic(auto, using(answer_json::proofs::Arrays::array_written))]
fn push_links(object: &mut Object, names: &Names, links: &Links) -> Result<(), AllocError>
    ensures { OnOk result (object.new ≡ with_value (array_of (link_values names.now (links_view links.now))) object.old) }
{
    let count = links.count as usize;
    let entries = paired(
        object.alloc(),
        &links.found[..count],
        &links.partner[..count],
    )?;
    object.begin_array()?;
    push_entries(object, names, entries.as_slice())?;
    object.end_array()?;
    Ok(())
}

/// The members of a hedge.
#[tactic(auto, using(crate::proofs::Keeping::links_few, crate::proofs::Keeping::links_blank))]
pub fn push_hedge(object: &mut Object, names: &Names, h: &Hedge) -> Result<(), AllocError>
    ensures written { OnOk result (object.new ≡ with_members (hedge_members names.now (hedge_view h.now)) object.old) }
    ensures kept { OnOk result (IsKept (hedge_view h.now)) }
{
    object.set_at("big", names, h.big)?;
    object.key("choice")?;
    push_choices(object, names, &h.choice)?;
    object.key("links")?;
    push_links(object, names, &h.links)?;
    object.set_at("roots", names, h.roots)?;
    object.set_at("small", names, h.small)?;
    Ok(())
}
