//! The members of the object of a graph.

ghost use Rattle.std.specs.Prelude.{◌≡◌, ◌<◌, OnOk, length, map, codes};
ghost use Rattle.dag_reader.specs.Vocabulary.{count_up, role_at};
ghost use Rattle.answer_json.specs.Vocabulary.{with_value, with_values, with_member, with_members};
ghost use Rattle.separation_commands.specs.GraphObjects.{role_json, named_vertex_json, named_vertices_json, graph_members};

use answer_json::Object;
use dag_reader::{ReadGraph, write_graph};
use graph_json::push_edges;
use std::alloc::AllocError;

/// The role of vertex v, or null.
fn push_role(object: &mut Object, g: &ReadGraph, v: u8) -> Result<(), AllocError>
    requires { v < 64 }
    ensures { OnOk result (object.new ≡ with_value (role_json (role_at g.now v)) object.old) }
{
    if g.exposures.has(v) {
        return object.string("exposure");
    }
    if g.outcomes.has(v) {
        return object.string("outcome");
    }
    if g.adjusted.has(v) {
        return object.string("adjusted");
    }
    if g.latent.has(v) {
        return object.string("latent");
    }
    object.null()
}

/// Vertex v: its name and its role.
fn push_vertex(object: &mut Object, g: &ReadGraph, v: u8) -> Result<(), AllocError>
    requires below { v < 64 }
    requires named { v < length g.now.names }
    ensures { OnOk result (object.new ≡ with_value (named_vertex_json g.now v) object.old) }
{
    object.begin_object()?;
    object.vertex_at("name", &g.names, v)?;
    object.key("role")?;
    push_role(object, g, v)?;
    object.end_object()?;
    Ok(())
}

/// All vertices, in index order.
fn push_vertices(object: &mut Object, g: &ReadGraph) -> Result<(), AllocError>
    ensures { OnOk result (object.new ≡ with_values (map (named_vertex_json g.now) (count_up g.now.graph.n)) object.old) }
{
    for v in 0..g.graph.n {
        push_vertex(object, g, v as u8)?;
    }
    Ok(())
}

/// The member `vertices`.
#[tactic(auto, using(answer_json::proofs::Arrays::array_written))]
fn push_vertices_at(object: &mut Object, g: &ReadGraph) -> Result<(), AllocError>
    ensures { OnOk result (object.new ≡ with_member (codes "vertices") (named_vertices_json g.now) object.old) }
{
    object.key("vertices")?;
    object.begin_array()?;
    push_vertices(object, g)?;
    object.end_array()?;
    Ok(())
}

/// The members of a graph.
pub fn push_graph(object: &mut Object, g: &ReadGraph) -> Result<(), AllocError>
    ensures { OnOk result (object.new ≡ with_members (graph_members g.now) object.old) }
{
    let text = write_graph(object.alloc(), g)?;
    object.word_at("answer", "graph")?;
    push_vertices_at(object, g)?;
    push_edges(object, &g.names, &g.graph)?;
    object.text_at("text", text.as_slice())
}
