//! The hedge of a certificate: its choice of children and its links.

ghost use Rattle.std.specs.Prelude.{◌≡◌, ◌<◌, ◌+◌, ◌++◌, ◌∷◌, [], length, set, replicate, IfOk};
ghost use Rattle.serde_json.specs.View.{view as data_view, items_view};
ghost use Rattle.step_json.specs.Vocabulary.{Gives, list_by, vertex_in};
ghost use Rattle.certificate.specs.Plain.{links_view};
ghost use Rattle.certificate.specs.HedgeReading.{first_by, alone, unchosen_in, with_choice, more_choices, choice_in, start_of, link_of, more_links, links_in};

use crate::sizes::is_end;
use hedge::{Choice, Links};
use mixed_graph::Names;
use serde_json::Value;
use std::alloc::Global;
use step_json::{ValueFault, read_vertex};

// No vertex has a choice.
fn no_choice() -> Choice
    ensures { result.next ≡ replicate 64 64 }
{
    Choice { next: [64; 64] }
}

// The choice with a further one.
fn chosen(choice: Choice, v: u8, child: u8) -> Choice
    requires vertex { v < 64 }
    requires child { child < 64 }
    ensures { result.next ≡ set choice.next v child }
{
    let mut next = choice.next;
    next[v as usize] = child;
    Choice { next }
}

// The vertex that a value names, where it has no choice.
fn unchosen_in(alloc: Global, names: &Names, choice: &Choice, d: &Value) -> Result<u8, ValueFault>
    ensures vertex { Gives (λ v. v) result (unchosen_in names.now choice.now.next (data_view d.now)) }
    ensures within { IfOk result (λ v. v < 64) }
{
    let v = read_vertex(alloc, names, d)?;
    if choice.next[v as usize] != 64 {
        return Err(ValueFault::Form);
    }
    Ok(v)
}

// The choice of v is the last item.
fn with_child(
    alloc: Global,
    names: &Names,
    choice: Choice,
    v: u8,
    ds: &[Value],
) -> Result<Choice, ValueFault>
    requires { v < 64 }
    ensures { Gives (λ c. c.next) result (first_by (vertex_in names.now) (λ child. alone (set choice.next v child)) (items_view ds.now)) }
{
    let [d, ds @ ..] = ds else {
        return Err(ValueFault::Form);
    };
    let child = read_vertex(alloc, names, d)?;
    if !is_end(ds) {
        return Err(ValueFault::Form);
    }
    Ok(chosen(choice, v, child))
}

fn with_choice(
    alloc: Global,
    names: &Names,
    choice: Choice,
    ds: &[Value],
) -> Result<Choice, ValueFault>
    ensures { Gives (λ c. c.next) result (with_choice names.now choice.next (items_view ds.now)) }
{
    let [d, ds @ ..] = ds else {
        return Err(ValueFault::Form);
    };
    let v = unchosen_in(alloc, names, &choice, d)?;
    with_child(alloc, names, choice, v, ds)
}

fn with_choice_in(
    alloc: Global,
    names: &Names,
    choice: Choice,
    d: &Value,
) -> Result<Choice, ValueFault>
    ensures { Gives (λ c. c.next) result (list_by (with_choice names.now choice.next) (data_view d.now)) }
{
    match d.as_array() {
        Some(ds) => with_choice(alloc, names, choice, ds.as_slice()),
        None => Err(ValueFault::Form),
    }
}

fn more_choices(alloc: Global, names: &Names, ds: &[Value]) -> Result<Choice, ValueFault>
    ensures { Gives (λ c. c.next) result (more_choices names.now 0 (replicate 64 64) (items_view ds.now)) }
{
    let mut choice = no_choice();
    for (count, d) in ds.iter().enumerate() {
        if count >= 64 {
            return Err(ValueFault::Form);
        }
        choice = with_choice_in(alloc, names, choice, d)?;
    }
    Ok(choice)
}

/// The choices that a list is: at most 64 pairs of a vertex and its child, one pair for a vertex.
#[tactic(auto, unfolding(crate::specs::HedgeReading::choice_in))]
pub fn choice_in(alloc: Global, names: &Names, d: &Value) -> Result<Choice, ValueFault>
    ensures { Gives (λ c. c.next) result (choice_in names.now (data_view d.now)) }
{
    match d.as_array() {
        Some(ds) => more_choices(alloc, names, ds.as_slice()),
        None => Err(ValueFault::Form),
    }
}

// The start alone.
fn started(v: u8) -> Links
    ensures links { links_view result ≡ (v, 0) ∷ [] }
    ensures count { result.count ≡ 1 }
    ensures sizes { (length result.found ≡ 64) × (length result.partner ≡ 64) }
{
    let mut found = [0; 64];
    found[0] = v;
    Links {
        found,
        partner: [0; 64],
        count: 1,
    }
}

// The links with a further entry.
fn linked(links: Links, v: u8, partner: u8) -> Links
    requires some { 0 < links.count }
    requires room { links.count < 64 }
    requires sizes { (length links.found ≡ 64) × (length links.partner ≡ 64) }
    ensures links { links_view result ≡ links_view links ++ (v, partner) ∷ [] }
    ensures count { result.count ≡ links.count + 1 }
    ensures sizes { (length result.found ≡ 64) × (length result.partner ≡ 64) }
{
    let mut found = links.found;
    found[links.count as usize] = v;
    let mut partners = links.partner;
    partners[links.count as usize] = partner;
    Links {
        found,
        partner: partners,
        count: links.count + 1,
    }
}

fn start_of(alloc: Global, names: &Names, ds: &[Value]) -> Result<u8, ValueFault>
    ensures { Gives (λ v. (v, 0)) result (start_of names.now (items_view ds.now)) }
{
    let [d, ds @ ..] = ds else {
        return Err(ValueFault::Form);
    };
    let v = read_vertex(alloc, names, d)?;
    if !is_end(ds) {
        return Err(ValueFault::Form);
    }
    Ok(v)
}

fn start_in(alloc: Global, names: &Names, d: &Value) -> Result<u8, ValueFault>
    ensures { Gives (λ v. (v, 0)) result (list_by (start_of names.now) (data_view d.now)) }
{
    match d.as_array() {
        Some(ds) => start_of(alloc, names, ds.as_slice()),
        None => Err(ValueFault::Form),
    }
}

// The partner of v is the last item.
fn partner_of(alloc: Global, names: &Names, v: u8, ds: &[Value]) -> Result<(u8, u8), ValueFault>
    ensures { Gives (λ l. l) result (first_by (vertex_in names.now) (λ partner. alone (v, partner)) (items_view ds.now)) }
{
    let [d, ds @ ..] = ds else {
        return Err(ValueFault::Form);
    };
    let partner = read_vertex(alloc, names, d)?;
    if !is_end(ds) {
        return Err(ValueFault::Form);
    }
    Ok((v, partner))
}

fn link_of(alloc: Global, names: &Names, ds: &[Value]) -> Result<(u8, u8), ValueFault>
    ensures { Gives (λ l. l) result (link_of names.now (items_view ds.now)) }
{
    let [d, ds @ ..] = ds else {
        return Err(ValueFault::Form);
    };
    let v = read_vertex(alloc, names, d)?;
    partner_of(alloc, names, v, ds)
}

fn link_in(alloc: Global, names: &Names, d: &Value) -> Result<(u8, u8), ValueFault>
    ensures { Gives (λ l. l) result (list_by (link_of names.now) (data_view d.now)) }
{
    match d.as_array() {
        Some(ds) => link_of(alloc, names, ds.as_slice()),
        None => Err(ValueFault::Form),
    }
}

fn more_links(alloc: Global, names: &Names, start: u8, ds: &[Value]) -> Result<Links, ValueFault>
    ensures { Gives links_view result (more_links names.now ((start, 0) ∷ []) (items_view ds.now)) }
{
    let mut links = started(start);
    for d in ds {
        if links.count >= 64 {
            return Err(ValueFault::Form);
        }
        let (v, partner) = link_in(alloc, names, d)?;
        links = linked(links, v, partner);
    }
    Ok(links)
}

fn links_of(alloc: Global, names: &Names, ds: &[Value]) -> Result<Links, ValueFault>
    ensures { Gives links_view result (first_by (list_by (start_of names.now)) (λ l. more_links names.now (l ∷ [])) (items_view ds.now)) }
{
    let [d, ds @ ..] = ds else {
        return Err(ValueFault::Form);
    };
    let start = start_in(alloc, names, d)?;
    more_links(alloc, names, start, ds)
}

/// The links that a list is: the start, and then pairs of a found vertex and its partner, at most 64 entries in all.
#[tactic(auto, unfolding(crate::specs::HedgeReading::links_in))]
pub fn links_in(alloc: Global, names: &Names, d: &Value) -> Result<Links, ValueFault>
    ensures { Gives links_view result (links_in names.now (data_view d.now)) }
{
    match d.as_array() {
        Some(ds) => links_of(alloc, names, ds.as_slice()),
        None => Err(ValueFault::Form),
    }
}
