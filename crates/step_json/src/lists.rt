//! Sets and lists of vertices read from JSON.

ghost use Rattle.std.specs.Prelude.{◌≡◌, ◌<◌, ◌≤◌, [], length, vec_len, IfOk};
ghost use Rattle.mixed_graph.specs.Vocabulary.{AreNames};
ghost use Rattle.serde_json.specs.View.{view, items_view};
ghost use Rattle.do_derivation.specs.Vocabulary.{listed};
ghost use Rattle.step_json.specs.View.{groups_view};
ghost use Rattle.step_json.specs.Reading.{Gives, vertex_in, with_member, more_of_set, set_in, filled_set_in, more_vertices, vertices_in, number_in, each, numbers_in, groups_in};

use crate::fault::ValueFault;
use mixed_graph::{Names, Order, Text, VSet};
use serde_json::Value;
use std::alloc::Global;

/// The vertex that a value names: `Form` where it is no text, `Name` where the text isn't a name.
pub fn read_vertex(alloc: Global, names: &Names, d: &Value) -> Result<u8, ValueFault>
    ensures vertex { Gives (λ v. v) result (vertex_in names.now (view d.now)) }
    ensures within { IfOk result (λ v. v < 64) }
{
    let Some(text) = d.as_str() else {
        return Err(ValueFault::Form);
    };
    let text = text.as_bytes();
    match names.index(text) {
        Some(v) => Ok(v),
        None => Err(ValueFault::Name(Text::of(alloc, text)?)),
    }
}

// The set with a further member, which isn't in it and isn't barred.
fn with_member(barred: VSet, set: VSet, v: u8) -> Result<VSet, ValueFault>
    requires { v < 64 }
    ensures { Gives (λ s. s.bits) result (with_member barred.bits set.bits v) }
{
    if barred.union(set).has(v) {
        return Err(ValueFault::Form);
    }
    Ok(set.union(VSet::one(v)))
}

fn more_of_set(alloc: Global, names: &Names, barred: VSet, ds: &[Value]) -> Result<VSet, ValueFault>
    ensures { Gives (λ s. s.bits) result (more_of_set names.now barred.bits 0 0 (items_view ds.now)) }
{
    let mut set = VSet::EMPTY;
    for (count, d) in ds.iter().enumerate() {
        if count >= 64 {
            return Err(ValueFault::Form);
        }
        let v = read_vertex(alloc, names, d)?;
        set = with_member(barred, set, v)?;
    }
    Ok(set)
}

/// The set that a list of names is, without a barred vertex.
///
/// `Form` where the value is no list, an item no text, a name stands twice or is that of a barred vertex, or a 65th name stands;
/// `Name` where an item isn't a name. The first item at fault decides.
#[tactic(auto, unfolding(crate::specs::Reading::set_in))]
pub fn read_set(
    alloc: Global,
    names: &Names,
    barred: VSet,
    value: &Value,
) -> Result<VSet, ValueFault>
    ensures { Gives (λ s. s.bits) result (set_in names.now barred.bits (view value.now)) }
{
    match value.as_array() {
        Some(ds) => more_of_set(alloc, names, barred, ds.as_slice()),
        None => Err(ValueFault::Form),
    }
}

/// The set that a list of names is, as `read_set` reads it, and not empty: `Form` for an empty list.
pub fn read_filled_set(
    alloc: Global,
    names: &Names,
    barred: VSet,
    value: &Value,
) -> Result<VSet, ValueFault>
    ensures { Gives (λ s. s.bits) result (filled_set_in names.now barred.bits (view value.now)) }
{
    let set = read_set(alloc, names, barred, value)?;
    if set.bits == 0 {
        return Err(ValueFault::Form);
    }
    Ok(set)
}

fn more_vertices(alloc: Global, names: &Names, ds: &[Value]) -> Result<Vec<u8>, ValueFault>
    ensures list { Gives (λ v. v.items) result (more_vertices names.now [] (items_view ds.now)) }
    ensures few { IfOk result (λ v. vec_len v ≤ 64) }
{
    let mut all = Vec::new(alloc);
    for d in ds {
        if all.len() >= 64 {
            return Err(ValueFault::Form);
        }
        let v = read_vertex(alloc, names, d)?;
        all.push(v)?;
    }
    Ok(all)
}

// The order of a list.
fn order_of(vertices: &[u8]) -> Order
    requires { length vertices.now ≤ 64 }
    ensures { listed result ≡ vertices.now }
{
    let mut list = [0; 64];
    for (i, v) in vertices.iter().enumerate() {
        list[i] = *v;
    }
    Order {
        list,
        count: vertices.len() as u32,
    }
}

/// The vertices that a list of names is, in its order.
#[tactic(auto, unfolding(crate::specs::Reading::vertices_in))]
pub fn vertices_in(alloc: Global, names: &Names, d: &Value) -> Result<Order, ValueFault>
    ensures { Gives listed result (vertices_in names.now (view d.now)) }
{
    let Some(ds) = d.as_array() else {
        return Err(ValueFault::Form);
    };
    let all = more_vertices(alloc, names, ds.as_slice())?;
    Ok(order_of(all.as_slice()))
}

/// The number of 32 bits that a value is.
#[tactic(auto, unfolding(crate::specs::Reading::number_in))]
pub fn number_in(d: &Value) -> Result<u32, ValueFault>
    ensures { Gives (λ n. n) result (number_in (view d.now)) }
{
    match d.as_u64() {
        Some(n) => {
            if n < 1 << 32 {
                return Ok(n as u32);
            }
            Err(ValueFault::Form)
        }
        None => Err(ValueFault::Form),
    }
}

fn each_number(alloc: Global, ds: &[Value]) -> Result<Vec<u32>, ValueFault>
    ensures { Gives (λ v. v.items) result (each number_in [] (items_view ds.now)) }
{
    let mut all = Vec::new(alloc);
    for d in ds {
        let n = number_in(d)?;
        all.push(n)?;
    }
    Ok(all)
}

#[tactic(auto, unfolding(crate::specs::Reading::numbers_in))]
fn numbers_in(alloc: Global, d: &Value) -> Result<Vec<u32>, ValueFault>
    ensures { Gives (λ v. v.items) result (numbers_in (view d.now)) }
{
    match d.as_array() {
        Some(ds) => each_number(alloc, ds.as_slice()),
        None => Err(ValueFault::Form),
    }
}

fn each_group(alloc: Global, ds: &[Value]) -> Result<Vec<Vec<u32>>, ValueFault>
    ensures { Gives (λ v. groups_view v.items) result (each numbers_in [] (items_view ds.now)) }
{
    let mut all = Vec::new(alloc);
    for d in ds {
        let group = numbers_in(alloc, d)?;
        all.push(group)?;
    }
    Ok(all)
}

/// The lists of numbers that a list is.
#[tactic(auto, unfolding(crate::specs::Reading::groups_in))]
pub fn groups_in(alloc: Global, d: &Value) -> Result<Vec<Vec<u32>>, ValueFault>
    ensures { Gives (λ v. groups_view v.items) result (groups_in (view d.now)) }
{
    match d.as_array() {
        Some(ds) => each_group(alloc, ds.as_slice()),
        None => Err(ValueFault::Form),
    }
}
