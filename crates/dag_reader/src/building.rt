//! The graph of what a text says, or the cycle in it.

ghost use Rattle.std.specs.Prelude.{◌≡◌, ◌<◌, List, ℕ, length, true, None, map, take, IfOk, slice_index};
ghost use Rattle.std.specs.List.{list_all};
ghost use Rattle.dag_reader.specs.MarkEnds.{is_inside};
ghost use Rattle.mixed_graph.specs.Vocabulary.{name_of};
ghost use Rattle.dag_reader.specs.Reads.{HasNoLoop};
ghost use Rattle.dag_reader.specs.declared.marks.Role.{Role};
ghost use Rattle.dag_reader.specs.Passes.{has_role, roles_of};
ghost use Rattle.dag_reader.specs.RoleSets.{in_set};
ghost use Rattle.dag_reader.specs.Builds.{AreEdgesOf, Builds, ChecksLoops, ChecksRoles, Marks};

use crate::edges::{Edges, edges_and_roles, has_loop, pairs_below, self_loop};
use crate::faults::GraphFault;
use crate::marks::Remark;
use crate::roles::Roles;
use mixed_graph::{BuildFault, Cycle, Graph, Names, Text};
use std::alloc::{AllocError, Global};

/// A graph with the vertices that are marked.
#[derive(Drop)]
pub struct MarkedGraph {
    pub graph: Graph,
    pub roles: Roles,
}

/// The name of a vertex.
fn vertex_name(alloc: Global, names: &Names, v: u8) -> Result<Text, AllocError>
    requires { v < length names.now }
    ensures { IfOk result (λ text. text ≡ name_of names.now v) }
{
    Text::of(alloc, names.get(v))
}

/// The names of the vertices of a cycle.
fn cycle_names(alloc: Global, names: &Names, cycle: &Cycle) -> Result<Vec<Text>, AllocError>
    requires { (i : ℕ) → i < cycle.now.count → slice_index cycle.now.list i < length names.now }
    ensures { IfOk result (λ texts. texts.items ≡ map (name_of names.now) (take cycle.now.count cycle.now.list)) }
{
    let mut texts = Vec::new(alloc);
    for i in 0..cycle.count {
        let text = vertex_name(alloc, names, cycle.list[i as usize])?;
        texts.push(text)?;
    }
    Ok(texts)
}

/// The graph of the edges that the marks say.
fn build_graph(
    alloc: Global,
    names: &Names,
    marks: &[Remark],
    edges: &Edges,
) -> Result<Graph, GraphFault>
    requires inside { list_all (is_inside (length names.now)) marks.now ≡ true }
    requires no_loop { HasNoLoop marks.now }
    requires edges { AreEdgesOf marks.now edges.now }
    ensures { Builds names.now marks.now result }
{
    let n = names.count();
    let arrows = pairs_below(alloc, n, &edges.arrows)?;
    let doubles = pairs_below(alloc, n, &edges.doubles)?;
    match Graph::build(n, arrows.as_slice(), doubles.as_slice()) {
        Ok(graph) => Ok(graph),
        Err(BuildFault::SelfLoop(_)) => unreachable!(),
        Err(BuildFault::Cycle(cycle)) => Err(GraphFault::Cycle(cycle_names(alloc, names, &cycle)?)),
    }
}

/// Refuses a self-loop.
fn check_loops(
    alloc: Global,
    names: &Names,
    marks: &[Remark],
    edges: &Edges,
) -> Result<(), GraphFault>
    requires inside { list_all (is_inside (length names.now)) marks.now ≡ true }
    requires edges { AreEdgesOf marks.now edges.now }
    ensures { ChecksLoops names.now marks.now result }
{
    let _count = names.count();
    if !has_loop(edges) {
        return Ok(());
    }
    match self_loop(alloc, marks)? {
        Some(v) => Err(GraphFault::SelfLoop(vertex_name(alloc, names, v)?)),
        None => Ok(()),
    }
}

/// The roles, where no vertex has two.
fn check_roles(
    alloc: Global,
    names: &Names,
    marks: &[Remark],
    roles: Roles,
) -> Result<Roles, GraphFault>
    requires inside { list_all (is_inside (length names.now)) marks.now ≡ true }
    requires roles { (r : Role) (v : ℕ) → in_set roles r v ≡ has_role (roles_of marks.now) r v }
    ensures { ChecksRoles names.now marks.now result }
{
    match roles.clash() {
        Some(v) => Err(GraphFault::RoleClash(vertex_name(alloc, names, v)?)),
        None => Ok(roles),
    }
}

/// The graph and the roles that the marks say.
pub fn marked_graph(
    alloc: Global,
    names: &Names,
    marks: &[Remark],
) -> Result<MarkedGraph, GraphFault>
    requires { list_all (is_inside (length names.now)) marks.now ≡ true }
    ensures { Marks names.now marks.now result }
{
    let _count = names.count();
    let said = edges_and_roles(marks);
    check_loops(alloc, names, marks, &said.edges)?;
    let roles = check_roles(alloc, names, marks, said.roles)?;
    let graph = build_graph(alloc, names, marks, &said.edges)?;
    Ok(MarkedGraph { graph, roles })
}
