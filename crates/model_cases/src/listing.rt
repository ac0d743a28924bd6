//! Rows on minimal sets.

ghost use Rattle.std.specs.Prelude.{◌≡◌, ◌<◌};

use case_rows::{Members, graph, number, pairs, set};
use do_rules::are_three_sets;
use minimal_sets::{Listing, Steps, list};
use mixed_graph::{Graph, VSet};
use serde_json::Value;
use std::alloc::Global;
use std::cmp::Ordering;
use std::marker::Brand;
use std::sync::ledger::{Blank, Ledger};

/// The minimal sets for the effect of x on y, at most so many.
fn ask<L: Ledger>(
    alloc: Global,
    blank: Blank,
    graph: &Graph,
    x: VSet,
    y: VSet,
    most: u32,
) -> Option<Listing>
    requires name { blank.name ≡ L.name }
    requires parts { blank.parts ≡ L.parts }
    requires some { 0 < blank.parts }
{
    let mut steps = Steps::<L>::new(blank);
    if !are_three_sets(graph, x, y, VSet::empty()) {
        return None;
    }
    list(alloc, graph, x, y, most, &mut steps).ok()
}

/// The row's listing.
fn listed(alloc: Global, row: &Value) -> Option<Listing> {
    let graph = graph(alloc, row)?;
    let most = u32::try_from(number(row, "most")).ok()?;
    let (x, y) = (set(row, "x"), set(row, "y"));
    ask::<Brand>(alloc, Blank::new(1), &graph, x, y, most)
}

/// Sets, with a blank after each.
fn sets_text(alloc: Global, sets: &[VSet]) -> Option<String> {
    let mut text = String::new(alloc);
    for set in sets {
        let set = Members(*set);
        text.push_str(format!(in alloc; "{set} ").ok()?.as_str())
            .ok()?;
    }
    Some(text)
}

/// The minimal sets, and whether there are more.
pub(crate) fn minimal_sets_row(alloc: Global, row: &Value) -> Option<String> {
    let found = listed(alloc, row)?;
    let sets = sets_text(alloc, &found.sets)?;
    let more = found.more;
    format!(in alloc; "sets {sets}more {more}\n").ok()
}

/// Whether the set has one of each two vertices, and no vertex beside.
fn has_one_of_each(set: VSet, pairs: &[(u8, u8)]) -> bool {
    let mut left = set;
    for (a, b) in pairs {
        if *a >= 64 || *b >= 64 || set.has(*a) == set.has(*b) {
            return false;
        }
        left = left.difference(VSet::one(*a)).difference(VSet::one(*b));
    }
    left.is_empty()
}

/// How many sets there are, whether they ascend, and whether each has one of each two vertices.
fn many_text(alloc: Global, sets: &[VSet], each: &[(u8, u8)]) -> Option<String> {
    let ascending = sets
        .windows(2)
        .all(|p| p[0].compare_members(p[1]) == Ordering::Less);
    let one = sets.iter().all(|s| has_one_of_each(*s, each));
    let count = sets.len();
    format!(in alloc; "{count} sets, ascending {ascending}, one of each {one}").ok()
}

/// How many minimal sets are listed, and what holds of them.
pub(crate) fn many_row(alloc: Global, row: &Value) -> Option<String> {
    let found = listed(alloc, row)?;
    let each = pairs(alloc, row, "one of each")?;
    let sets = many_text(alloc, &found.sets, &each)?;
    let more = found.more;
    format!(in alloc; "{sets}, more {more}\n").ok()
}
