//! The reply to names and to graphs with a fault.

ghost use Rattle.std.specs.Prelude.{◌≡◌, IfOk, OnOk};
ghost use Rattle.replies.specs.Refusals.{target_told, graph_told, size_told};
ghost use Rattle.replies.specs.Told.{told_of};

use crate::outcome::{Outcome, Reply};
use dag_reader::GraphFault;
use fault_json::{graph_fault, graph_size, target_fault};
use std::alloc::{AllocError, Global};
use targets::TargetFault;

/// The reply to listed names that are at fault; want of memory has none.
pub fn refuse(alloc: Global, fault: &TargetFault) -> Result<Reply, AllocError>
    ensures outcome { IfOk result (λ r. r.outcome ≡ Outcome.Graph) }
    ensures told { IfOk result (λ r. told_of r ≡ target_told fault.now) }
    ensures fault { OnOk result (fault.now ≡ TargetFault.NoMemory → ⊥) }
{
    Ok(Reply {
        outcome: Outcome::Graph,
        text: fault.line(alloc)?,
        object: target_fault(alloc, "target", fault)?,
    })
}

/// The reply to a graph text with a fault, whose bytes are these; want of memory has none.
pub fn refuse_graph(alloc: Global, fault: &GraphFault, bytes: &[u8]) -> Result<Reply, AllocError>
    ensures outcome { IfOk result (λ r. r.outcome ≡ Outcome.Graph) }
    ensures told { IfOk result (λ r. told_of r ≡ graph_told bytes.now fault.now) }
    ensures fault { OnOk result (fault.now ≡ GraphFault.NoMemory → ⊥) }
{
    Ok(Reply {
        outcome: Outcome::Graph,
        text: fault.line(alloc)?,
        object: graph_fault(alloc, "graph", bytes, fault)?,
    })
}

/// The reply to a graph text of more than 1,048,576 bytes.
pub fn refuse_size(alloc: Global) -> Result<Reply, AllocError>
    ensures outcome { IfOk result (λ r. r.outcome ≡ Outcome.Graph) }
    ensures told { IfOk result (λ r. told_of r ≡ size_told) }
{
    Ok(Reply {
        outcome: Outcome::Graph,
        text: GraphFault::size_line(alloc)?,
        object: graph_size(alloc, "graph")?,
    })
}
