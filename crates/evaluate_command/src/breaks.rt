//! The pair by which no model has the counts.

ghost use Rattle.std.specs.Prelude.{IfOk};
ghost use Rattle.mixed_graph.specs.Vocabulary.{graph_of};
ghost use Rattle.evaluate_command.specs.Breaks.{IsBreak};

use broken_pairs::first_broken;
use count_table::Counts;
use implications::Implication;
use mixed_graph::Graph;
use std::alloc::{AllocError, Global};

/// The first pair that the graph implies and the counts break, where it is asked for: then no model of the graph has the counts.
///
/// The only error is want of memory.
pub fn asked_break(
    alloc: Global,
    g: &Graph,
    counts: &Counts,
    matched: bool,
) -> Result<Option<Implication>, AllocError>
    ensures { IfOk result (IsBreak matched (graph_of g.now) counts.now) }
{
    if matched {
        return first_broken(alloc, g, counts);
    }
    Ok(None)
}
