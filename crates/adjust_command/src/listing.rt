//! The listing of the minimal sets.

ghost use Rattle.std.specs.Prelude.{◌≡◌, ◌<◌, ◌≤◌, IfOk};
ghost use Rattle.mixed_graph.specs.Vocabulary.{has, graph_of};
ghost use Rattle.do_rules.specs.Vocabulary.{AreThreeSets};
ghost use Rattle.adjust_command.specs.Right.{ListsSets};

use crate::answer::Answer;
use minimal_sets::{Listing, Steps, list};
use mixed_graph::Graph;
use std::alloc::{AllocError, Global};
use std::marker::Brand;
use std::sync::ledger::{Blank, Ledger};
use targets::Sets;

/// The minimal sets, at most so many; or that there is none. The only error is want of memory.
pub fn list_sets(alloc: Global, graph: &Graph, sets: Sets, most: u32) -> Result<Answer, AllocError>
    requires sets { AreThreeSets graph.now.n (has sets.x.bits) (has sets.y.bits) (has sets.given.bits) }
    requires most { 1 ≤ most }
    ensures { IfOk result (ListsSets most (graph_of graph.now) sets) }
{
    list_counted::<Brand>(alloc, Blank::new(1), graph, sets, most)
}

/// The same with a blank for the count of the separators computed.
fn list_counted<L: Ledger>(
    alloc: Global,
    blank: Blank,
    graph: &Graph,
    sets: Sets,
    most: u32,
) -> Result<Answer, AllocError>
    requires name { blank.name ≡ L.name }
    requires parts { blank.parts ≡ L.parts }
    requires some { 0 < blank.parts }
    requires sets { AreThreeSets graph.now.n (has sets.x.bits) (has sets.y.bits) (has sets.given.bits) }
    requires most { 1 ≤ most }
    ensures { IfOk result (ListsSets most (graph_of graph.now) sets) }
{
    let mut steps = Steps::<L>::new(blank);
    let listing = list(alloc, graph, sets.x, sets.y, most, &mut steps)?;
    if listing.sets.is_empty() {
        return Ok(Answer::NoSet(sets));
    }
    Ok(Answer::Listed(sets, listing.sets, listing.more))
}
