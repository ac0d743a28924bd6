//! The faults of a graph's text.

ghost use Rattle.std.specs.Prelude.{◌≡◌, IfOk, OnOk};
ghost use Rattle.std.specs.Str.{IsUtf8};
ghost use Rattle.answer_json.specs.Vocabulary.{json_line};
ghost use Rattle.fault_json.specs.GraphFaults.{graph_message, graph_fault_json, graph_size_json};

use answer_json::{bare_fault, names_fault, placed_fault, text_fault};
use dag_reader::GraphFault;
use std::alloc::{AllocError, Global};

/// A fault of a graph's text in words; want of memory has none.
#[tactic(auto, unfolding(crate::specs::GraphFaults::graph_message))]
fn graph_message(fault: &GraphFault) -> &'static str
    ensures { result.now ≡ graph_message fault.now }
{
    match fault {
        GraphFault::NotUtf8(_) => "the text is not UTF-8 from here on",
        GraphFault::Token(_) => "no token stands here",
        GraphFault::Expected(_) => {
            "what stands here does not fit the grammar, or the text ends too early"
        }
        GraphFault::NotADag => "the text does not begin with dag",
        GraphFault::EdgeKind(_) => "this edge has no direction",
        GraphFault::Flag(_) => {
            "this attribute is none of exposure, outcome, adjusted and latent, or it stands on an edge"
        }
        GraphFault::Selected(_) => "the vertex is selected",
        GraphFault::SelfLoop(_) => "an edge joins the vertex to itself",
        GraphFault::TooMany => "there are more than 64 names",
        GraphFault::RoleClash(_) => "the vertex has two roles",
        GraphFault::Cycle(_) => "the directed edges have a cycle",
        GraphFault::NoMemory => "",
    }
}

/// The line of a fault of a graph's text, whose bytes are these; want of memory has none.
pub fn graph_fault(
    alloc: Global,
    stage: &str,
    bytes: &[u8],
    fault: &GraphFault,
) -> Result<Vec<u8>, AllocError>
    ensures text { IfOk result (λ v. v.items ≡ json_line (graph_fault_json stage.now bytes.now fault.now)) }
    ensures utf8 { IfOk result (λ v. IsUtf8 v.items) }
    ensures memory { OnOk result (fault.now ≡ GraphFault.NoMemory → ⊥) }
{
    let text = graph_message(fault);
    match fault {
        GraphFault::NotUtf8(at) => placed_fault(alloc, stage, 1, text, bytes, *at),
        GraphFault::Token(at) => placed_fault(alloc, stage, 2, text, bytes, *at),
        GraphFault::Expected(at) => placed_fault(alloc, stage, 3, text, bytes, *at),
        GraphFault::NotADag => bare_fault(alloc, stage, 4, text),
        GraphFault::EdgeKind(at) => placed_fault(alloc, stage, 5, text, bytes, *at),
        GraphFault::Flag(at) => placed_fault(alloc, stage, 6, text, bytes, *at),
        GraphFault::Selected(name) => text_fault(alloc, stage, 7, text, "name", name.bytes()),
        GraphFault::SelfLoop(name) => text_fault(alloc, stage, 8, text, "name", name.bytes()),
        GraphFault::TooMany => bare_fault(alloc, stage, 9, text),
        GraphFault::RoleClash(name) => text_fault(alloc, stage, 10, text, "name", name.bytes()),
        GraphFault::Cycle(names) => names_fault(alloc, stage, 11, text, names),
        GraphFault::NoMemory => Err(AllocError),
    }
}

/// The line of a graph's text of more than 1,048,576 bytes.
pub fn graph_size(alloc: Global, stage: &str) -> Result<Vec<u8>, AllocError>
    ensures text { IfOk result (λ v. v.items ≡ json_line (graph_size_json stage.now)) }
    ensures utf8 { IfOk result (λ v. IsUtf8 v.items) }
{
    bare_fault(alloc, stage, 12, "the text has more than 1048576 bytes")
}
