//! The two models as an object.

ghost use Rattle.std.specs.Prelude.{◌≡◌, ◌+◌, ◌++◌, codes, decimal, map, OnOk, IfOk, string_bytes};
ghost use Rattle.json.specs.Json.{string};
ghost use Rattle.answer_json.specs.Vocabulary.{with_value, with_values, with_member, array_of};
ghost use Rattle.hedge_json.specs.Models.{cause_json, vertex_values, bits_json, event_json, models_json};
ghost use Rattle.hedge_json.specs.declared.bits.Bit.TheVariants.{CarriedBit};

use crate::bits::{Bit, push_bits};
use crate::parts::push_mechanism;
use answer_json::Object;
use counter_models::CounterPair;
use finite_models::{Cause, Mechanism};
use mixed_graph::{Names, VSet};
use std::alloc::{AllocError, Global};

/// The weights of a cause, in their order.
fn push_weights(object: &mut Object, weights: &[u32]) -> Result<(), AllocError>
    ensures { OnOk result (object.new ≡ with_values (map (λ w. string (decimal w)) weights.now) object.old) }
{
    for weight in weights {
        object.digits(u64::from(*weight))?;
    }
    Ok(())
}

/// A cause.
#[tactic(auto, using(answer_json::proofs::Arrays::array_written))]
fn push_cause(object: &mut Object, names: &Names, cause: &Cause) -> Result<(), AllocError>
    ensures { OnOk result (object.new ≡ with_value (cause_json names.now cause.now) object.old) }
{
    object.begin_object()?;
    object.set_at("acts_on", names, cause.children)?;
    object.key("weights")?;
    object.begin_array()?;
    push_weights(object, cause.weights.as_slice())?;
    object.end_array()?;
    object.end_object()?;
    Ok(())
}

/// Causes, in their order.
fn push_causes(object: &mut Object, names: &Names, causes: &[Cause]) -> Result<(), AllocError>
    ensures { OnOk result (object.new ≡ with_values (map (cause_json names.now) causes.now) object.old) }
{
    for cause in causes {
        push_cause(object, names, cause)?;
    }
    Ok(())
}

/// The member of the causes.
#[tactic(auto, using(answer_json::proofs::Arrays::array_written))]
fn push_causes_at(object: &mut Object, names: &Names, causes: &[Cause]) -> Result<(), AllocError>
    ensures { OnOk result (object.new ≡ with_member (codes "causes") (array_of (map (cause_json names.now) causes.now)) object.old) }
{
    object.key("causes")?;
    object.begin_array()?;
    push_causes(object, names, causes)?;
    object.end_array()?;
    Ok(())
}

/// The bits of each vertex of a model.
#[tactic(auto, using(answer_json::proofs::Arrays::both_written))]
fn push_vertices(
    object: &mut Object,
    names: &Names,
    mechanisms: &[Mechanism],
) -> Result<(), AllocError>
    ensures { OnOk result (object.new ≡ with_values (vertex_values names.now 0 mechanisms.now) object.old) }
{
    for (v, mechanism) in mechanisms.iter().enumerate() {
        push_mechanism(object, names, v, mechanism)?;
    }
    Ok(())
}

/// The member of the bits of a model.
#[tactic(auto, using(answer_json::proofs::Arrays::array_written))]
fn push_vertices_at(
    object: &mut Object,
    names: &Names,
    name: &str,
    mechanisms: &[Mechanism],
) -> Result<(), AllocError>
    ensures { OnOk result (object.new ≡ with_member name.now (array_of (vertex_values names.now 0 mechanisms.now)) object.old) }
{
    object.key(name)?;
    object.begin_array()?;
    push_vertices(object, names, mechanisms)?;
    object.end_array()?;
    Ok(())
}

/// The probability of the event in the second model.
fn gain_text(alloc: Global, noise: u32) -> Result<String, AllocError>
    ensures { IfOk result (λ t. string_bytes t ≡ codes "1/2 + 1/2^" ++ decimal (noise + 1)) }
{
    let exponent = u64::from(noise) + 1;
    format!(in alloc; "1/2 + 1/2^{exponent}")
}

/// The member of the carried bits of an event.
#[tactic(auto, using(answer_json::proofs::Arrays::array_written))]
fn push_sum_at(object: &mut Object, names: &Names, event: VSet) -> Result<(), AllocError>
    ensures { OnOk result (object.new ≡ with_member (codes "sum") (array_of (bits_json names.now CarriedBit event.bits)) object.old) }
{
    object.key("sum")?;
    object.begin_array()?;
    push_bits(object, names, Bit::CarriedBit, event)?;
    object.end_array()?;
    Ok(())
}

/// The event, with its probability in each model.
fn push_event(object: &mut Object, names: &Names, pair: &CounterPair) -> Result<(), AllocError>
    ensures { OnOk result (object.new ≡ with_value (event_json names.now pair.now) object.old) }
{
    let gain = gain_text(object.alloc(), pair.noise)?;
    object.begin_object()?;
    push_sum_at(object, names, pair.event)?;
    object.word_at("first", "1/2")?;
    object.word_at("second", gain.as_str())?;
    object.end_object()?;
    Ok(())
}

/// The two models by which the effect differs though all observations agree, as a value.
pub fn push_models(object: &mut Object, names: &Names, pair: &CounterPair) -> Result<(), AllocError>
    ensures { OnOk result (object.new ≡ with_value (models_json names.now pair.now) object.old) }
{
    object.begin_object()?;
    push_causes_at(object, names, pair.first.causes.as_slice())?;
    push_vertices_at(object, names, "first", pair.first.mechanisms.as_slice())?;
    push_vertices_at(object, names, "second", pair.second.mechanisms.as_slice())?;
    object.key("event")?;
    push_event(object, names, pair)?;
    object.end_object()?;
    Ok(())
}
