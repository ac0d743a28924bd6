//! The observations that turn into interventions.

ghost use Rattle.std.specs.Prelude.{◌≡◌, ℕ, ◌<◌, ◌↔◌, false, IsTrue, IfOk, MatchOption};
ghost use Rattle.mixed_graph.specs.Vocabulary.{has, graph_of};
ghost use Rattle.do_rules.specs.Vocabulary.{AreThreeSets};
ghost use Rattle.conditional_id.specs.Conditionals.{IsTurning};
ghost use Rattle.conditional_id.specs.HedgeLaws.{HasOpenWalkTo, HaveOpenWalks};
ghost use Rattle.conditional_id.specs.Moves.{IsLowestTurning, AreMoved};

use crate::answer::Turned;
use do_derivation::{Move, SetMove, Step};
use do_rules::rule2;
use mixed_graph::{Graph, VSet};
use std::alloc::{AllocError, Global};

/// Whether v is an observation in P(y | do(x), z) that rule 2 lets become an intervention.
fn turns(g: &Graph, x: VSet, y: VSet, z: VSet, v: u8) -> bool
    requires sets { AreThreeSets g.now.n (has x.bits) (has y.bits) (has z.bits) }
    requires some { 0 < y.bits }
    requires room { v < 64 }
    ensures turns { IsTrue result ↔ (IsTrue (has z.bits v) × IsTurning (graph_of g.now) x.bits y.bits z.bits v) }
    ensures open { result ≡ false → IsTrue (has z.bits v) → HasOpenWalkTo (graph_of g.now) x.bits y.bits z.bits v }
{
    if !z.has(v) {
        return false;
    }
    let alone = VSet::one(v);
    match rule2(g, x, y, alone, z.difference(alone)) {
        Ok(()) => true,
        Err(_) => false,
    }
}

/// The lowest observation in P(y | do(x), z) that may become an intervention; where none may, an open walk to each shows it.
fn lowest_turning(g: &Graph, x: VSet, y: VSet, z: VSet) -> Option<u8>
    requires sets { AreThreeSets g.now.n (has x.bits) (has y.bits) (has z.bits) }
    requires some { 0 < y.bits }
    ensures { MatchOption result (HaveOpenWalks (graph_of g.now) x.bits y.bits z.bits) (IsLowestTurning (graph_of g.now) x.bits y.bits z.bits) }
{
    for v in 0..64u8 {
        if turns(g, x, y, z, v) {
            return Some(v);
        }
    }
    None
}

/// What P(y | do(x), given) turns into, where the lowest observation that may becomes an intervention as long as there is one.
pub fn turned(alloc: Global, g: &Graph, x: VSet, y: VSet, given: VSet) -> Result<Turned, AllocError>
    requires sets { AreThreeSets g.now.n (has x.bits) (has y.bits) (has given.bits) }
    requires some { 0 < y.bits }
    ensures { IfOk result (AreMoved (graph_of g.now) y.bits x.bits given.bits) }
{
    let mut doing = x;
    let mut left = given;
    let mut steps = Vec::new(alloc);
    'moves: while let Some(v) = lowest_turning(g, doing, y, left) {
        let alone = VSet::one(v);
        steps.push(Step::Make(Move::WithSet(SetMove::Rule2Do, alone)))?;
        doing = doing.union(alone);
        left = left.difference(alone);
    }
    Ok(Turned { doing, left, steps })
}
