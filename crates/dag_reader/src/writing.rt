//! The text of a graph.

ghost use Rattle.std.specs.Prelude.{◌≡◌, ◌<◌, ◌≤◌, ◌++◌, ◌&&◌, nat_lt, List, ℕ, [], ◌∷◌, length, map, All, OnOk, IfOk};
ghost use Rattle.answer_text.specs.Vocabulary.{printed};
ghost use Rattle.dag_reader.specs.Rows.{row_has, count_up};
ghost use Rattle.dag_reader.specs.Written.{role_text, vertex_lines, edge_lines, role_at, drawn_of, written};

use crate::edges::pairs_below;
use crate::graph::ReadGraph;
use crate::marks::Role;
use answer_text::names::push_name;
use mixed_graph::{Names, Rows, VSet};
use std::alloc::{AllocError, Global};

fn push_role(out: &mut Vec<u8>, role: Option<Role>) -> Result<(), AllocError>
    ensures { OnOk result (out.new.items ≡ out.old.items ++ role_text role) }
{
    match role {
        None => {}
        Some(Role::Exposure) => out.extend_from_slice(b" [exposure]")?,
        Some(Role::Outcome) => out.extend_from_slice(b" [outcome]")?,
        Some(Role::Adjusted) => out.extend_from_slice(b" [adjusted]")?,
        Some(Role::Latent) => out.extend_from_slice(b" [latent]")?,
    }
    Ok(())
}

fn push_vertex(out: &mut Vec<u8>, name: &[u8], role: Option<Role>) -> Result<(), AllocError>
    ensures { OnOk result (out.new.items ≡ out.old.items ++ (printed name.now ++ (role_text role ++ 10 ∷ []))) }
{
    push_name(out, name)?;
    push_role(out, role)?;
    out.push(b'\n')?;
    Ok(())
}

fn push_edge(out: &mut Vec<u8>, from: &[u8], sign: &[u8], to: &[u8]) -> Result<(), AllocError>
    ensures { OnOk result (out.new.items ≡ out.old.items ++ (printed from.now ++ (sign.now ++ (printed to.now ++ 10 ∷ [])))) }
{
    push_name(out, from)?;
    out.extend_from_slice(sign)?;
    push_name(out, to)?;
    out.push(b'\n')?;
    Ok(())
}

fn push_vertices(out: &mut Vec<u8>, names: &Names, roles: &[Option<Role>]) -> Result<(), AllocError>
    requires small { length names.now ≤ 64 }
    requires roles { length roles.now ≡ length names.now }
    ensures { OnOk result (out.new.items ≡ out.old.items ++ vertex_lines names.now roles.now) }
{
    for (i, role) in roles.iter().enumerate() {
        push_vertex(out, names.get(i as u8), *role)?;
    }
    Ok(())
}

fn push_edges(
    out: &mut Vec<u8>,
    sign: &[u8],
    names: &Names,
    edges: &[(u8, u8)],
) -> Result<(), AllocError>
    requires { All (λ p. (p.0 < length names.now) × (p.1 < length names.now)) edges.now }
    ensures { OnOk result (out.new.items ≡ out.old.items ++ edge_lines sign.now names.now edges.now) }
{
    for edge in edges {
        push_edge(out, names.get(edge.0), sign, names.get(edge.1))?;
    }
    Ok(())
}

/// The role of a vertex.
fn role_at(g: &ReadGraph, v: u8) -> Option<Role>
    requires { v < 64 }
    ensures { result ≡ role_at g.now v }
{
    if g.exposures.has(v) {
        return Some(Role::Exposure);
    }
    if g.outcomes.has(v) {
        return Some(Role::Outcome);
    }
    if g.adjusted.has(v) {
        return Some(Role::Adjusted);
    }
    if g.latent.has(v) {
        return Some(Role::Latent);
    }
    None
}

/// The roles of all vertices.
fn roles_listed(alloc: Global, g: &ReadGraph) -> Result<Vec<Option<Role>>, AllocError>
    ensures { IfOk result (λ roles. roles.items ≡ map (role_at g.now) (count_up g.now.graph.n)) }
{
    let mut roles = Vec::new(alloc);
    for v in 0..g.graph.n {
        roles.push(role_at(g, v as u8))?;
    }
    Ok(roles)
}

/// The rows without the bits at and below the diagonal.
fn above(rows: &Rows) -> Rows
    ensures { (a b : ℕ) → row_has result a b ≡ (row_has rows.now a b && nat_lt a b) }
{
    let mut out = [0u64; 64];
    for v in 0..64u8 {
        out[v as usize] = VSet::row(rows, v)
            .difference(VSet::below(v as u32 + 1))
            .bits;
    }
    out
}

/// The text of a graph: a line for each vertex, one for each directed edge, and one for each bidirected edge.
pub fn write_graph(alloc: Global, g: &ReadGraph) -> Result<Vec<u8>, AllocError>
    ensures { IfOk result (λ text. text.items ≡ written (drawn_of g.now)) }
{
    let roles = roles_listed(alloc, g)?;
    let arrows = pairs_below(alloc, g.graph.n, &g.graph.children)?;
    let doubles = pairs_below(alloc, g.graph.n, &above(&g.graph.spouses))?;
    let mut out = Vec::new(alloc);
    out.extend_from_slice(b"dag {\n")?;
    push_vertices(&mut out, &g.names, roles.as_slice())?;
    push_edges(&mut out, b" -> ", &g.names, arrows.as_slice())?;
    push_edges(&mut out, b" <-> ", &g.names, doubles.as_slice())?;
    out.extend_from_slice(b"}\n")?;
    Ok(out)
}
