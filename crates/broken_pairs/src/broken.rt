//! Pairs that counts break.

ghost use Rattle.std.specs.Prelude.{◌≡◌, ℕ, List, IfOk, IfSome};
ghost use Rattle.std.specs.Bool.{OnTrue, OnFalse};
ghost use Rattle.mixed_graph.specs.Vocabulary.{graph_of};
ghost use Rattle.count_table.specs.Vocabulary.{total};
ghost use Rattle.count_eval.specs.Vocabulary.{weights_in, is_used};
ghost use Rattle.natural_bounds.specs.Vocabulary.{HasNoModel};
ghost use Rattle.implications.specs.declared.pairs.Implication.{Implication as Pair};
ghost use Rattle.implications.specs.Vocabulary.{AreImplications};
ghost use Rattle.broken_pairs.specs.Broken.{is_apart, IsBroken, IsFirstBroken, Refutes};

use count_table::Counts;
use implications::{Implication, implications};
use implied_differences::{is_readable, largest_difference};
use mixed_graph::Graph;
use std::alloc::{AllocError, Global};

/// Whether a difference isn't 0.
pub fn is_apart(value: i128) -> bool
    ensures { result ≡ is_apart value }
{
    value != 0
}

/// Whether the counts have levels of the vertices of a pair, and its largest difference isn't 0.
fn is_broken(alloc: Global, c: &Counts, i: &Implication) -> Result<bool, AllocError>
    ensures yes { IfOk result (λ b. OnTrue b (IsBroken c.now i.now)) }
    ensures no { IfOk result (λ b. OnFalse b (IsBroken c.now i.now → ⊥)) }
    ensures refutes { IfOk result (λ b. OnTrue b (Refutes c.now i.now)) }
{
    if !is_readable(c, i) {
        return Ok(false);
    }
    let largest = largest_difference(alloc, c, i)?;
    Ok(is_apart(largest.value))
}

/// The first of some pairs that the counts break.
fn first_in(
    alloc: Global,
    list: &[Implication],
    c: &Counts,
) -> Result<Option<Implication>, AllocError>
    ensures first { IfOk result (IsFirstBroken c.now list.now) }
    ensures refutes { IfOk result (λ o. IfSome o (Refutes c.now)) }
{
    for i in list {
        if is_broken(alloc, c, i)? {
            return Ok(Some(*i));
        }
    }
    Ok(None)
}

/// The first of the pairs that the graph implies, in their order, that the counts break: its vertices all have levels in the table, and one of its
/// differences isn't 0. Where there is one, no model that fits the graph, positive or not, has the counts.
///
/// The only error is want of memory.
pub fn first_broken(alloc: Global, g: &Graph, c: &Counts) -> Result<Option<Implication>, AllocError>
    ensures first { IfOk result (λ o. (list : List Pair) × AreImplications (graph_of g.now) list × IsFirstBroken c.now list o) }
    ensures no_model { IfOk result (λ o. IfSome o (λ i. HasNoModel (graph_of g.now) (is_used c.now) (weights_in g.now.n c.now) (total c.now.rows))) }
{
    let list = implications(alloc, g)?;
    first_in(alloc, list.as_slice(), c)
}
