//! A hedge that is refused.

ghost use Rattle.std.specs.Prelude.{◌≡◌, [], OnOk};
ghost use Rattle.answer_json.specs.Vocabulary.{with_value, with_members};
ghost use Rattle.check_json.specs.Refusals.{hedge_number, hedge_message, name_or_null, vertex_members, refused_hedge_members, hedge_fault_members, met_message, met_members};

use answer_json::Object;
use hedge::HedgeFault;
use mixed_graph::Names;
use std::alloc::AllocError;

/// The number of a hedge's fault.
fn hedge_number(fault: HedgeFault) -> u64
    ensures { result ≡ hedge_number fault }
{
    match fault {
        HedgeFault::Sets => 1,
        HedgeFault::BigMissesX => 2,
        HedgeFault::SmallMeetsX => 3,
        HedgeFault::Choice(_) => 4,
        HedgeFault::Link(_) => 5,
        HedgeFault::Root(_) => 6,
    }
}

/// The same in words.
#[tactic(auto, unfolding(crate::specs::Refusals::hedge_message))]
fn hedge_message(fault: HedgeFault) -> &'static str
    ensures { result.now ≡ hedge_message fault }
{
    match fault {
        HedgeFault::Sets => {
            "the smaller set is not inside the larger one, or the roots are none or not inside the smaller one"
        }
        HedgeFault::BigMissesX => "the larger set has no member of x",
        HedgeFault::SmallMeetsX => "the smaller set has a member of x",
        HedgeFault::Choice(_) => "the choice of this vertex is wrong",
        HedgeFault::Link(_) => "the links do not join the sets as they have to",
        HedgeFault::Root(_) => "this root has no directed path to y outside x",
    }
}

/// The message of an experiment that meets a hedge.
#[tactic(auto, unfolding(crate::specs::Refusals::met_message))]
fn met_message() -> &'static str
    ensures { result.now ≡ met_message }
{
    "an experiment sets a member of the larger set and none of the smaller one"
}

/// The name of vertex v, where there is such a vertex.
fn push_name(object: &mut Object, names: &Names, v: u8) -> Result<(), AllocError>
    ensures { OnOk result (object.new ≡ with_value (name_or_null names.now v) object.old) }
{
    if (v as u32) < names.count() {
        object.vertex(names, v)
    } else {
        object.null()
    }
}

/// The vertex of a fault that has one.
fn push_vertex(object: &mut Object, names: &Names, fault: HedgeFault) -> Result<(), AllocError>
    ensures { OnOk result (object.new ≡ with_members (vertex_members names.now fault) object.old) }
{
    match fault {
        HedgeFault::Sets | HedgeFault::BigMissesX | HedgeFault::SmallMeetsX => Ok(()),
        HedgeFault::Choice(v) | HedgeFault::Link(v) | HedgeFault::Root(v) => {
            object.key("vertex")?;
            push_name(object, names, v)
        }
    }
}

/// Adds the members of a refusal by the fault of that number, up to the message.
fn push_refusal(object: &mut Object, n: u64, message: &str) -> Result<(), AllocError>
    ensures { OnOk result (object.new ≡ with_members (refused_hedge_members n message.now []) object.old) }
{
    object.word_at("answer", "refused")?;
    object.word_at("of", "hedge")?;
    object.number_at("number", n)?;
    object.word_at("message", message)
}

/// Adds the members of a hedge that is refused.
pub fn push_refused_hedge(
    object: &mut Object,
    names: &Names,
    fault: HedgeFault,
) -> Result<(), AllocError>
    ensures { OnOk result (object.new ≡ with_members (hedge_fault_members names.now fault) object.old) }
{
    push_refusal(object, hedge_number(fault), hedge_message(fault))?;
    push_vertex(object, names, fault)
}

/// Adds the members of a hedge that an experiment meets.
pub fn push_met_hedge(object: &mut Object) -> Result<(), AllocError>
    ensures { OnOk result (object.new ≡ with_members met_members object.old) }
{
    push_refusal(object, 7, met_message())
}
