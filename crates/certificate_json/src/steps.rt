//! Steps as lists.

ghost use Rattle.std.specs.Prelude.{◌≡◌, ◌^◌, ◌∷◌, [], true, ltb, leb, length, decimal, map, OnOk};
ghost use Rattle.json.specs.Json.{string, number};
ghost use Rattle.do_derivation.specs.Plans.{Move as PlainMove, Plan};
ghost use Rattle.do_derivation.specs.Vocabulary.{move_view, step_view, steps_view, listed, numbers_of};
ghost use Rattle.certificate_json.specs.StepSizes.{are_below, groups_below, is_move_short, is_short, are_short};
ghost use Rattle.answer_json.specs.Vocabulary.{with_value, with_values, items};
ghost use Rattle.certificate_json.specs.Steps.{numbers_json, move_json, step_json, steps_json};

use answer_json::Object;
use do_derivation::{BareMove, Move, SetMove, Step};
use mixed_graph::{Names, Order, VSet};
use std::alloc::AllocError;

/// A number of 32 bits.
fn push_number(object: &mut Object, k: u32) -> Result<(), AllocError>
    ensures written { OnOk result (object.new ≡ with_value (number (decimal k)) object.old) }
    ensures short { ltb k (2 ^ 32) ≡ true }
{
    object.number(u64::from(k))
}

/// Numbers one after another.
fn push_each(object: &mut Object, list: &Vec<u32>) -> Result<(), AllocError>
    ensures written { OnOk result (object.new ≡ with_values (map (λ n. number (decimal n)) list.now.items) object.old) }
    ensures short { OnOk result (are_below (2 ^ 32) list.now.items ≡ true) }
{
    for k in list {
        push_number(object, *k)?;
    }
    Ok(())
}

/// A list of numbers.
#[tactic(auto, using(answer_json::proofs::Arrays::array_written))]
fn push_numbers(object: &mut Object, list: &Vec<u32>) -> Result<(), AllocError>
    ensures written { OnOk result (object.new ≡ with_value (numbers_json list.now.items) object.old) }
    ensures short { OnOk result (are_below (2 ^ 32) list.now.items ≡ true) }
{
    object.begin_array()?;
    push_each(object, list)?;
    object.end_array()?;
    Ok(())
}

/// Lists of numbers one after another.
fn push_groups(object: &mut Object, list: &Vec<Vec<u32>>) -> Result<(), AllocError>
    ensures written { OnOk result (object.new ≡ with_values (map numbers_json (numbers_of list.now.items)) object.old) }
    ensures short { OnOk result (groups_below (2 ^ 32) (numbers_of list.now.items) ≡ true) }
{
    for group in list {
        push_numbers(object, group)?;
    }
    Ok(())
}

/// Begins a list with its word.
fn begin_said(object: &mut Object, word: &str) -> Result<(), AllocError>
    ensures { OnOk result (object.new ≡ items object.old (string word.now ∷ [])) }
{
    object.begin_array()?;
    object.string(word)?;
    Ok(())
}

/// A move without an argument: its word alone.
fn push_bare(object: &mut Object, kind: BareMove) -> Result<(), AllocError>
    ensures { OnOk result (object.new ≡ with_value (move_json [] (PlainMove.Bare kind)) object.old) }
{
    begin_said(object, kind.word())?;
    object.end_array()?;
    Ok(())
}

/// A move with a set: its word and the set.
fn push_with_set(
    object: &mut Object,
    names: &Names,
    kind: SetMove,
    set: VSet,
) -> Result<(), AllocError>
    ensures { OnOk result (object.new ≡ with_value (move_json names.now (PlainMove.WithSet kind set.bits)) object.old) }
{
    begin_said(object, kind.word())?;
    object.set(names, set)?;
    object.end_array()?;
    Ok(())
}

/// The order of a chain.
#[tactic(auto, using(crate::proofs::Keeping::order_short))]
fn push_chain(object: &mut Object, names: &Names, order: &Order) -> Result<(), AllocError>
    ensures written { OnOk result (object.new ≡ with_value (move_json names.now (PlainMove.Chain (listed order.now))) object.old) }
    ensures short { OnOk result (leb (length (listed order.now)) 64 ≡ true) }
{
    begin_said(object, "chain")?;
    object.vertices(names, &order.list[..order.count as usize])?;
    object.end_array()?;
    Ok(())
}

/// The groups of a product.
#[tactic(auto, using(answer_json::proofs::Arrays::array_written))]
fn push_group(object: &mut Object, list: &Vec<Vec<u32>>) -> Result<(), AllocError>
    ensures written { OnOk result (object.new ≡ with_value (move_json [] (PlainMove.Group (numbers_of list.now.items))) object.old) }
    ensures short { OnOk result (groups_below (2 ^ 32) (numbers_of list.now.items) ≡ true) }
{
    begin_said(object, "group")?;
    object.begin_array()?;
    push_groups(object, list)?;
    object.end_array()?;
    object.end_array()?;
    Ok(())
}

/// A citation.
fn push_cite(object: &mut Object, k: u32) -> Result<(), AllocError>
    ensures written { OnOk result (object.new ≡ with_value (move_json [] (PlainMove.Cite k)) object.old) }
    ensures short { OnOk result (ltb k (2 ^ 32) ≡ true) }
{
    begin_said(object, "cite")?;
    push_number(object, k)?;
    object.end_array()?;
    Ok(())
}

/// A move: its word and its argument.
fn push_move(object: &mut Object, names: &Names, done: &Move) -> Result<(), AllocError>
    ensures written { OnOk result (object.new ≡ with_value (move_json names.now (move_view done.now)) object.old) }
    ensures short { OnOk result (is_move_short (move_view done.now) ≡ true) }
{
    match done {
        Move::WithSet(kind, z) => push_with_set(object, names, *kind, *z),
        Move::Bare(kind) => push_bare(object, *kind),
        Move::Chain(order) => push_chain(object, names, order),
        Move::Group(list) => push_group(object, list),
        Move::Cite(k) => push_cite(object, *k),
    }
}

/// A step on a child.
#[cycle(push)]
fn push_at(object: &mut Object, names: &Names, child: u32, step: &Step) -> Result<(), AllocError>
    ensures written { OnOk result (object.new ≡ with_value (step_json names.now (Plan.At child (step_view step.now))) object.old) }
    ensures short { OnOk result (is_short (Plan.At child (step_view step.now)) ≡ true) }
{
    begin_said(object, "at")?;
    push_number(object, child)?;
    push_step(object, names, step)?;
    object.end_array()?;
    Ok(())
}

/// Steps one after another.
#[cycle(push)]
fn push_steps(object: &mut Object, names: &Names, steps: &Vec<Step>) -> Result<(), AllocError>
    ensures written { OnOk result (object.new ≡ with_values (steps_json names.now (steps_view steps.now.items)) object.old) }
    ensures short { OnOk result (are_short (steps_view steps.now.items) ≡ true) }
{
    for step in steps {
        push_step(object, names, step)?;
    }
    Ok(())
}

/// Steps in turn.
#[cycle(push)]
#[tactic(auto, using(answer_json::proofs::Arrays::array_written))]
fn push_then(object: &mut Object, names: &Names, steps: &Vec<Step>) -> Result<(), AllocError>
    ensures written { OnOk result (object.new ≡ with_value (step_json names.now (Plan.Then (steps_view steps.now.items))) object.old) }
    ensures short { OnOk result (are_short (steps_view steps.now.items) ≡ true) }
{
    begin_said(object, "then")?;
    object.begin_array()?;
    push_steps(object, names, steps)?;
    object.end_array()?;
    object.end_array()?;
    Ok(())
}

/// A step: a word and its arguments. Its numbers have 32 bits, and its orders 64 vertices at most, as the types keep it.
#[cycle(push)]
pub fn push_step(object: &mut Object, names: &Names, step: &Step) -> Result<(), AllocError>
    ensures written { OnOk result (object.new ≡ with_value (step_json names.now (step_view step.now)) object.old) }
    ensures short { OnOk result (is_short (step_view step.now) ≡ true) }
{
    match step {
        Step::Make(done) => push_move(object, names, done),
        Step::At(child, inner) => push_at(object, names, *child, inner),
        Step::Then(steps) => push_then(object, names, steps),
    }
}
