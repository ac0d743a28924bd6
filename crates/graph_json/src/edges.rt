//! The edges of a graph.

ghost use Rattle.std.specs.Prelude.{◌≡◌, ◌&&◌, OnOk, codes, map, nat_lt};
ghost use Rattle.mixed_graph.specs.Vocabulary.{graph_of, has, members_below};
ghost use Rattle.dag_reader.specs.Vocabulary.{pairs_below};
ghost use Rattle.answer_json.specs.Vocabulary.{with_value, with_values, with_member, with_members, pair_json};
ghost use Rattle.graph_json.specs.Edges.{directed_json, bidirected_json, edge_members, graph_json};

use answer_json::Object;
use mixed_graph::{Graph, Names, VSet};
use std::alloc::AllocError;

/// The pairs of a and each of these vertices, in their order.
fn push_each(object: &mut Object, names: &Names, a: u8, ends: &[u8]) -> Result<(), AllocError>
    ensures { OnOk result (object.new ≡ with_values (map (λ b. pair_json names.now (a, b)) ends.now) object.old) }
{
    for b in ends {
        object.pair(names, a, *b)?;
    }
    Ok(())
}

/// The pairs of a and each member of a set, in index order.
fn push_row(object: &mut Object, names: &Names, a: u8, row: VSet) -> Result<(), AllocError>
    ensures { OnOk result (object.new ≡ with_values (map (λ b. pair_json names.now (a, b)) (members_below (has row.bits) 64)) object.old) }
{
    let ends = row.members(object.alloc())?;
    push_each(object, names, a, ends.as_slice())
}

/// The directed edges.
fn push_directed(object: &mut Object, names: &Names, graph: &Graph) -> Result<(), AllocError>
    ensures { OnOk result (object.new ≡ with_values (map (pair_json names.now) (pairs_below graph.now.n (graph_of graph.now).arrow)) object.old) }
{
    let all = VSet::below(graph.n);
    for a in 0..graph.n {
        let row = VSet::row(&graph.children, a as u8);
        push_row(object, names, a as u8, row.intersection(all))?;
    }
    Ok(())
}

/// The bidirected edges, each from its lower end.
fn push_bidirected(object: &mut Object, names: &Names, graph: &Graph) -> Result<(), AllocError>
    ensures { OnOk result (object.new ≡ with_values (map (pair_json names.now) (pairs_below graph.now.n (λ a b. (graph_of graph.now).both a b && nat_lt a b))) object.old) }
{
    let all = VSet::below(graph.n);
    for a in 0..graph.n {
        let row = VSet::row(&graph.spouses, a as u8);
        let later = row.difference(VSet::below(a + 1));
        push_row(object, names, a as u8, later.intersection(all))?;
    }
    Ok(())
}

/// The member `directed`.
#[tactic(auto, using(answer_json::proofs::Arrays::array_written))]
fn push_directed_at(object: &mut Object, names: &Names, graph: &Graph) -> Result<(), AllocError>
    ensures { OnOk result (object.new ≡ with_member (codes "directed") (directed_json names.now (graph_of graph.now)) object.old) }
{
    object.key("directed")?;
    object.begin_array()?;
    push_directed(object, names, graph)?;
    object.end_array()?;
    Ok(())
}

/// The member `bidirected`.
#[tactic(auto, using(answer_json::proofs::Arrays::array_written))]
fn push_bidirected_at(object: &mut Object, names: &Names, graph: &Graph) -> Result<(), AllocError>
    ensures { OnOk result (object.new ≡ with_member (codes "bidirected") (bidirected_json names.now (graph_of graph.now)) object.old) }
{
    object.key("bidirected")?;
    object.begin_array()?;
    push_bidirected(object, names, graph)?;
    object.end_array()?;
    Ok(())
}

/// The members of the edges, of each kind by the names of their ends.
pub fn push_edges(object: &mut Object, names: &Names, graph: &Graph) -> Result<(), AllocError>
    ensures { OnOk result (object.new ≡ with_members (edge_members names.now (graph_of graph.now)) object.old) }
{
    push_directed_at(object, names, graph)?;
    push_bidirected_at(object, names, graph)
}

/// A graph as the object of its edges.
pub fn push_graph(object: &mut Object, names: &Names, graph: &Graph) -> Result<(), AllocError>
    ensures { OnOk result (object.new ≡ with_value (graph_json names.now (graph_of graph.now)) object.old) }
{
    object.begin_object()?;
    push_edges(object, names, graph)?;
    object.end_object()?;
    Ok(())
}
