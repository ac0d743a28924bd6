//! The replies to a second graph that is refused.

ghost use Rattle.std.specs.Prelude.{◌≡◌, IfOk, OnOk};
ghost use Rattle.replies.specs.Vocabulary.{told_of};
ghost use Rattle.equivalent_command.specs.Refusals.{second_size_told, second_graph_told, second_target_told};

use dag_reader::GraphFault;
use fault_json::{graph_fault, graph_size, target_fault};
use replies::{Outcome, Reply};
use std::alloc::{AllocError, Global};
use targets::TargetFault;

/// The reply to a second graph's text of more than 1,048,576 bytes.
pub fn refuse_long_graph(alloc: Global) -> Result<Reply, AllocError>
    ensures outcome { IfOk result (λ r. r.outcome ≡ Outcome.Second) }
    ensures told { IfOk result (λ r. told_of r ≡ second_size_told) }
{
    Ok(Reply {
        outcome: Outcome::Second,
        text: GraphFault::second_size_line(alloc)?,
        object: graph_size(alloc, "second graph")?,
    })
}

/// The reply to a second graph's text with a fault, whose bytes are these; want of memory has none.
pub fn refuse_second_graph(
    alloc: Global,
    fault: &GraphFault,
    bytes: &[u8],
) -> Result<Reply, AllocError>
    ensures outcome { IfOk result (λ r. r.outcome ≡ Outcome.Second) }
    ensures told { IfOk result (λ r. told_of r ≡ second_graph_told bytes.now fault.now) }
    ensures fault { OnOk result (fault.now ≡ GraphFault.NoMemory → ⊥) }
{
    Ok(Reply {
        outcome: Outcome::Second,
        text: fault.second_line(alloc)?,
        object: graph_fault(alloc, "second graph", bytes, fault)?,
    })
}

/// The reply to a second graph that can't be compared with the first; want of memory has none.
pub fn refuse_second_target(alloc: Global, fault: &TargetFault) -> Result<Reply, AllocError>
    ensures outcome { IfOk result (λ r. r.outcome ≡ Outcome.Second) }
    ensures told { IfOk result (λ r. told_of r ≡ second_target_told fault.now) }
    ensures fault { OnOk result (fault.now ≡ TargetFault.NoMemory → ⊥) }
{
    Ok(Reply {
        outcome: Outcome::Second,
        text: fault.second_line(alloc)?,
        object: target_fault(alloc, "second target", fault)?,
    })
}
