//! The factors of all districts, one after the other, until one stops.

ghost use Rattle.std.specs.Prelude.{◌≡◌, ◌+◌, ◌*◌, ◌<◌, ◌^◌, ℕ, IsTrue, IfErr, OnOk, MatchResult, ◌++◌, [], ◌∷◌, length, All};
ghost use Rattle.mixed_graph.specs.Vocabulary.{has, IsOrder, Within, graph_of};
ghost use Rattle.hedge.specs.Vocabulary.{IsMaximalJoined, first_masks};
ghost use Rattle.do_derivation.specs.Vocabulary.{listed};
ghost use Rattle.identify.specs.Factored.{AreFactorsOf, IsStopOf, IsAdded, IsStopFor, AreWithMore, stop_for};

use crate::answer::{Factors, Stop};
use crate::factors::{Factor, FactorFault, factor};
use crate::wanted::Wanted;
use hedge::joined_sets::Districts;
use mixed_graph::{Graph, Order, VSet};
use std::alloc::{AllocError, Global};

/// No factor yet.
pub fn no_factors(alloc: Global) -> Factors
    ensures defs { result.defs.items ≡ [] }
    ensures lemmas { result.lemmas.items ≡ [] }
    ensures values { result.values.items ≡ [] }
    ensures lists { result.lists.items ≡ [] }
{
    Factors {
        defs: Vec::new(alloc),
        lemmas: Vec::new(alloc),
        values: Vec::new(alloc),
        lists: Vec::new(alloc),
    }
}

/// Adds the factor of one more district.
fn add_factor(made: &mut Factors, more: Factor) -> Result<(), AllocError>
    ensures { OnOk result (AreWithMore made.old more made.new) }
{
    let Factor {
        defs,
        lemmas,
        value,
        steps,
    } = more;
    let mut defs = defs;
    let mut lemmas = lemmas;
    made.defs.append(&mut defs)?;
    made.lemmas.append(&mut lemmas)?;
    made.values.push(value)?;
    made.lists.push(steps)?;
    Ok(())
}

/// Why there are no factors where that of c has this fault.
fn stop_for(c: VSet, fault: FactorFault) -> Stop
    ensures { result ≡ stop_for c fault }
{
    match fault {
        FactorFault::Stopped(big) => Stop::At { small: c, big },
        FactorFault::NoMemory => Stop::NoMemory,
    }
}

/// Adds the factor of c, where one was found; else says why there are no factors.
pub fn add_found(
    made: &mut Factors,
    c: VSet,
    found: Result<Factor, FactorFault>,
) -> Result<(), Stop>
    ensures added { OnOk result (IsAdded found made.old made.new) }
    ensures stop { IfErr result (IsStopFor c found) }
{
    match found {
        Ok(more) => match add_factor(made, more) {
            Ok(()) => Ok(()),
            Err(_) => Err(Stop::NoMemory),
        },
        Err(fault) => Err(stop_for(c, fault)),
    }
}

/// The factors of the districts of d in turn; or the first district whose factor stops.
pub fn factors(
    alloc: Global,
    wanted: Wanted,
    g: &Graph,
    order: &Order,
    d: VSet,
    parts: &Districts,
) -> Result<Factors, Stop>
    requires order { IsOrder (graph_of g.now) order.now.list order.now.count }
    requires within { Within g.now.n (has d.bits) }
    requires districts { All (IsMaximalJoined (graph_of g.now) d.bits) (first_masks parts.now.sets parts.now.count) }
    ensures { MatchResult result (AreFactorsOf wanted (graph_of g.now) (listed order.now) (first_masks parts.now.sets parts.now.count))
        (IsStopOf (graph_of g.now) (listed order.now) (first_masks parts.now.sets parts.now.count)) }
{
    let mut made = no_factors(alloc);
    for c in &parts.sets[..parts.count as usize] {
        let found = factor(alloc, wanted, g, order, *c, made.defs.len() as u32);
        match add_found(&mut made, *c, found) {
            Ok(()) => {}
            Err(stop) => return Err(stop),
        }
    }
    Ok(made)
}
