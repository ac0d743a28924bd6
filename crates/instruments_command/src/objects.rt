//! The members of the objects of `instruments`.

ghost use Rattle.std.specs.Prelude.{◌≡◌, map, OnOk, codes};
ghost use Rattle.answer_json.specs.Vocabulary.{with_value, with_values, with_member, with_members, array_of};
ghost use Rattle.instruments_command.specs.Objects.{candidate_members, candidate_json, asked_members, listing_members};

use answer_json::Object;
use instrument_sets::Candidate;
use mixed_graph::Names;
use std::alloc::AllocError;
use targets::Sets;

/// The members of a vertex: its name, its sets of strata, and whether there are more.
fn push_members(object: &mut Object, names: &Names, c: &Candidate) -> Result<(), AllocError>
    ensures { OnOk result (object.new ≡ with_members (candidate_members names.now c.now) object.old) }
{
    object.vertex_at("vertex", names, c.vertex)?;
    object.key("strata")?;
    object.sets(names, c.strata.sets.as_slice())?;
    object.key("more")?;
    object.boolean(c.strata.more)
}

/// A vertex with its sets of strata.
fn push_candidate(object: &mut Object, names: &Names, c: &Candidate) -> Result<(), AllocError>
    ensures { OnOk result (object.new ≡ with_value (candidate_json names.now c.now) object.old) }
{
    object.begin_object()?;
    push_members(object, names, c)?;
    object.end_object()?;
    Ok(())
}

/// Vertices with their sets of strata, in their order.
fn push_all(object: &mut Object, names: &Names, list: &[Candidate]) -> Result<(), AllocError>
    ensures { OnOk result (object.new ≡ with_values (map (candidate_json names.now) list.now) object.old) }
{
    for c in list {
        push_candidate(object, names, c)?;
    }
    Ok(())
}

/// The member of them all.
#[tactic(auto, using(answer_json::proofs::Arrays::array_written))]
fn candidates_at(object: &mut Object, names: &Names, list: &[Candidate]) -> Result<(), AllocError>
    ensures { OnOk result (object.new ≡ with_member (codes "instruments") (array_of (map (candidate_json names.now) list.now)) object.old) }
{
    object.key("instruments")?;
    object.begin_array()?;
    push_all(object, names, list)?;
    object.end_array()?;
    Ok(())
}

/// The answer's word, and the sets that are asked about.
fn push_asked(object: &mut Object, word: &str, names: &Names, sets: Sets) -> Result<(), AllocError>
    ensures { OnOk result (object.new ≡ with_members (asked_members word.now names.now sets.x.bits sets.y.bits) object.old) }
{
    object.word_at("answer", word)?;
    object.set_at("x", names, sets.x)?;
    object.set_at("y", names, sets.y)
}

/// The members of a listing.
pub fn push_listing(
    object: &mut Object,
    word: &str,
    names: &Names,
    sets: Sets,
    list: &[Candidate],
) -> Result<(), AllocError>
    ensures { OnOk result (object.new ≡ with_members (listing_members word.now names.now sets.x.bits sets.y.bits list.now) object.old) }
{
    push_asked(object, word, names, sets)?;
    candidates_at(object, names, list)
}
