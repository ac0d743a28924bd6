//! The minimal separators, listed (Takata).

ghost use Rattle.std.specs.Prelude.{◌≡◌, ◌+◌, ◌*◌, ◌≤◌, OnOk, IfOk, length};
ghost use Rattle.mixed_graph.specs.Vocabulary.{has};
ghost use Rattle.minimal_sets.specs.Separators.{IsMinimalSeparator};
ghost use Rattle.minimal_sets.specs.Listings.{IsListingOf};
ghost use Rattle.minimal_sets.specs.Progress.{IsSoFar, IsAtWork, AreGathered};
ghost use Rattle.minimal_sets.specs.Rows.{is_near};

use crate::separators::branching::{Node, begin, spread};
use crate::separators::problem::SeparationProblem;
use crate::separators::sorting::sort_sets;
use crate::separators::steps::Steps;
use mixed_graph::VSet;
use std::alloc::{AllocError, Global};
use std::sync::ledger::Ledger;

/// Sets in ascending order of their lists of members, and whether there are more of their kind.
#[derive(Drop)]
pub struct Listing {
    pub sets: Vec<VSet>,
    pub more: bool,
}

/// One more separator: the node's. Its other separators go to the branches left.
fn turn<L: Ledger>(
    p: &SeparationProblem,
    node: Node,
    sets: &mut Vec<VSet>,
    todo: &mut Vec<Node>,
    steps: &mut Steps<L>,
) -> Result<(), AllocError>
    requires work { IsAtWork (is_near p.now.near) (has p.now.allowed.bits) (has p.now.x.bits) (has p.now.y.bits) sets.old.items node todo.old.items }
    ensures listed { OnOk result (IsSoFar (is_near p.now.near) (has p.now.allowed.bits) (has p.now.x.bits) (has p.now.y.bits) sets.new.items todo.new.items) }
    ensures grows { OnOk result (length sets.new.items ≡ length sets.old.items + 1) }
    ensures cost { steps.new ≤ steps.old + p.now.n }
{
    spread(p, node, todo, steps)?;
    sets.push(node.separator)?;
    Ok(())
}

/// The minimal separators in the order in which the branches give them.
fn gather<L: Ledger>(
    alloc: Global,
    p: &SeparationProblem,
    most: u32,
    steps: &mut Steps<L>,
) -> Result<Listing, AllocError>
    ensures gathered { IfOk result (λ l. AreGathered (IsMinimalSeparator (is_near p.now.near) (has p.now.allowed.bits) (has p.now.x.bits) (has p.now.y.bits)) most l.sets.items l.more) }
    ensures cost { IfOk result (λ l. steps.new ≤ steps.old + 1 + p.now.n * length l.sets.items) }
{
    let mut sets = Vec::new(alloc);
    let mut todo = begin(alloc, p, steps)?;
    'turns: for i in 0..most {
        let Some(node) = todo.pop() else {
            return Ok(Listing { sets, more: false });
        };
        turn(p, node, &mut sets, &mut todo, steps)?;
    }
    let more = !todo.is_empty();
    Ok(Listing { sets, more })
}

/// The minimal separators between x and y by allowed vertices, in ascending order; `most` of them where there are more.
///
/// `steps` counts the closest separators computed.
pub fn list_separators<L: Ledger>(
    alloc: Global,
    p: &SeparationProblem,
    most: u32,
    steps: &mut Steps<L>,
) -> Result<Listing, AllocError>
    ensures listed { IfOk result (λ l. IsListingOf (IsMinimalSeparator (is_near p.now.near) (has p.now.allowed.bits) (has p.now.x.bits) (has p.now.y.bits)) most l.sets.items l.more) }
    ensures cost { IfOk result (λ l. steps.new ≤ steps.old + 1 + p.now.n * length l.sets.items) }
{
    let mut listing = gather(alloc, p, most, steps)?;
    sort_sets(&mut listing.sets);
    Ok(listing)
}
