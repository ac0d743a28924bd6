//! Each vertex with the minimal sets of strata in which it is an instrument.

ghost use Rattle.std.specs.Prelude.{ℕ, IfOk};
ghost use Rattle.mixed_graph.specs.Vocabulary.{has, Within, Apart, graph_of};
ghost use Rattle.instrument_sets.specs.Instruments.{AreCandidates};

use crate::strata::list_strata;
use minimal_sets::{Listing, Steps};
use mixed_graph::{Graph, VSet};
use std::alloc::{AllocError, Global};
use std::sync::ledger::Ledger;

/// A vertex, and the minimal sets of strata in which it is an instrument: none where it is one in no strata.
#[derive(Drop)]
pub struct Candidate {
    pub vertex: u8,
    pub strata: Listing,
}

/// Each vertex outside x and y, in ascending order, with the minimal sets of strata in which it is an instrument for the effect
/// of x on y: all of them, or `most` where there are more.
pub fn list_instruments<L: Ledger>(
    alloc: Global,
    g: &Graph,
    x: VSet,
    y: VSet,
    most: u32,
    steps: &mut Steps<L>,
) -> Result<Vec<Candidate>, AllocError>
    requires x { Within g.now.n (has x.bits) }
    requires y { Within g.now.n (has y.bits) }
    requires apart { Apart (has x.bits) (has y.bits) }
    ensures listed { IfOk result (λ l. AreCandidates (graph_of g.now) (has x.bits) (has y.bits) most l.items) }
{
    let others = VSet::below(g.n).difference(x).difference(y);
    let mut list = Vec::new(alloc);
    'vertices: for z in others.iter() {
        let strata = list_strata(alloc, g, x, y, VSet::one(z), most, steps)?;
        list.push(Candidate { vertex: z, strata })?;
    }
    Ok(list)
}
