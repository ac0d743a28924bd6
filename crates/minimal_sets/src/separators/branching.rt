//! The branches of the listing of separators.

ghost use Rattle.std.specs.Prelude.{◌≡◌, ℕ, ◌+◌, ◌<◌, ◌≤◌, not, IsTrue, false, IfSome, IfNone, OnOk, IfOk, List, [], ◌∷◌, ◌++◌};
ghost use Rattle.mixed_graph.specs.Vocabulary.{has};
ghost use Rattle.minimal_sets.specs.Branches.{IsNode, IsForked, IsStill};
ghost use Rattle.minimal_sets.specs.Separators.{Reached, IsPart, IsClosest, IsInseparable};
ghost use Rattle.minimal_sets.specs.Progress.{IsSoFar, IsAtWork};
ghost use Rattle.minimal_sets.specs.Rows.{is_near};

use crate::separators::floods::{beside, flood};
use crate::separators::problem::SeparationProblem;
use crate::separators::steps::Steps;
use mixed_graph::VSet;
use std::alloc::{AllocError, Global};
use std::sync::ledger::Ledger;

/// A minimal separator and its side of x.
#[derive(Clone, Copy)]
pub struct Separator {
    pub separator: VSet,
    pub side: VSet,
}

/// The minimal separator by allowed vertices that is nearest to a side of x, if there is one with that side.
pub fn closest<L: Ledger>(p: &SeparationProblem, s: VSet, steps: &mut Steps<L>) -> Option<Separator>
    requires holds { IsPart (has p.now.x.bits) (has s.bits) }
    requires connected { (v : ℕ) → IsTrue (has s.bits v) → Reached (is_near p.now.near) (has p.now.x.bits) (λ u. not (has s.bits u)) v }
    ensures some { IfSome result (λ c. IsClosest (is_near p.now.near) (has p.now.allowed.bits) (has p.now.x.bits) (has p.now.y.bits) (has s.bits) (has c.separator.bits) (has c.side.bits)) }
    ensures none { IfNone result (IsInseparable (is_near p.now.near) (has p.now.allowed.bits) (has p.now.x.bits) (has p.now.y.bits) (has s.bits)) }
    ensures cost { steps.new ≡ steps.old + 1 }
{
    steps.tick();
    let free = p.allowed.difference(s);
    let here = flood(&p.near, s, free);
    let common = here.intersection(p.y);
    if !common.is_empty() {
        return None;
    }
    let front = beside(&p.near, here, free);
    let far = flood(&p.near, p.y, front);
    let separator = beside(&p.near, far, front);
    Some(Separator {
        separator,
        side: flood(&p.near, p.x, separator),
    })
}

/// A branch of the listing that holds a separator: the nearest one of those with this side that have what is kept.
#[derive(Clone, Copy)]
pub struct Node {
    pub separator: VSet,
    pub side: VSet,
    pub kept: VSet,
}

/// The branch in which a vertex of the separator joins the side, if it holds a separator.
fn joined<L: Ledger>(p: &SeparationProblem, node: Node, v: u8, steps: &mut Steps<L>) -> Option<Node>
    requires node { IsNode (is_near p.now.near) (has p.now.allowed.bits) (has p.now.x.bits) (has p.now.y.bits) node }
    requires below { v < 64 }
    requires member { IsTrue (has node.separator.bits v) }
    ensures some { IfSome result (λ n. IsForked (is_near p.now.near) (has p.now.allowed.bits) (has p.now.x.bits) (has p.now.y.bits) node v n) }
    ensures none { IfNone result (IsStill (is_near p.now.near) (has p.now.allowed.bits) (has p.now.x.bits) (has p.now.y.bits) node v) }
    ensures cost { steps.new ≡ steps.old + 1 }
{
    let side = node.side.union(VSet::one(v));
    match closest(p, side, steps) {
        None => None,
        Some(c) => {
            let lost = node.kept.difference(c.separator);
            if lost.is_empty() {
                Some(Node {
                    separator: c.separator,
                    side: c.side,
                    kept: node.kept,
                })
            } else {
                None
            }
        }
    }
}

/// The branches in which a vertex of the node's separator that isn't kept yet joins the side, those before it being kept.
pub fn spread<L: Ledger>(
    p: &SeparationProblem,
    node: Node,
    todo: &mut Vec<Node>,
    steps: &mut Steps<L>,
) -> Result<(), AllocError>
    requires node { IsNode (is_near p.now.near) (has p.now.allowed.bits) (has p.now.x.bits) (has p.now.y.bits) node }
    ensures listed { OnOk result ((done : List VSet) → IsAtWork (is_near p.now.near) (has p.now.allowed.bits) (has p.now.x.bits) (has p.now.y.bits) done node todo.old.items → IsSoFar (is_near p.now.near) (has p.now.allowed.bits) (has p.now.x.bits) (has p.now.y.bits) (done ++ node.separator ∷ []) todo.new.items) }
    ensures cost { steps.new ≤ steps.old + p.now.n }
{
    let mut kept = node.kept;
    'members: for v in 0..p.n {
        let left = node.separator.difference(kept);
        if left.has(v) {
            let now = Node {
                separator: node.separator,
                side: node.side,
                kept,
            };
            if let Some(fork) = joined(p, now, v, steps) {
                todo.push(fork)?;
            }
            kept = kept.union(VSet::one(v));
        }
    }
    Ok(())
}

/// The branch that holds every separator, or none.
pub fn begin<L: Ledger>(
    alloc: Global,
    p: &SeparationProblem,
    steps: &mut Steps<L>,
) -> Result<Vec<Node>, AllocError>
    ensures listed { IfOk result (λ todo. IsSoFar (is_near p.now.near) (has p.now.allowed.bits) (has p.now.x.bits) (has p.now.y.bits) [] todo.items) }
    ensures cost { steps.new ≡ steps.old + 1 }
{
    let mut todo = Vec::new(alloc);
    if let Some(c) = closest(p, p.x, steps) {
        todo.push(Node {
            separator: c.separator,
            side: c.side,
            kept: VSet::empty(),
        })?;
    }
    Ok(todo)
}
