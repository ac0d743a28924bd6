//! The hedge of a row.

use crate::reading::{bytes, set, vertex};
use hedge::{Choice, Hedge, Links};
use mixed_graph::VSet;
use serde_json::Value;
use std::alloc::Global;

/// The hedge of these sets, with a choice for each of the first three vertices and links of two entries.
fn with_entries(
    big: VSet,
    small: VSet,
    roots: VSet,
    choice: [u8; 3],
    found: [u8; 2],
    partner: u8,
) -> Hedge {
    let mut next = [64u8; 64];
    next[0] = choice[0].min(64);
    next[1] = choice[1].min(64);
    next[2] = choice[2].min(64);
    let mut entries = [0u8; 64];
    entries[0] = found[0];
    entries[1] = found[1];
    let mut partners = [0u8; 64];
    partners[1] = partner;
    Hedge {
        big,
        small,
        roots,
        choice: Choice { next },
        links: Links {
            found: entries,
            partner: partners,
            count: 2,
        },
    }
}

/// The row's hedge: the sets `big`, `small` and `roots`, the `choice` of each of the first three vertices, 64 for none, and two linked
/// vertices, `found`, of which the second has this `partner`.
pub fn hedge(alloc: Global, row: &Value) -> Option<Hedge> {
    let choice = bytes(alloc, row, "choice")?;
    let found = bytes(alloc, row, "found")?;
    let (big, small, roots) = (set(row, "big"), set(row, "small"), set(row, "roots"));
    match (choice.as_slice(), found.as_slice()) {
        ([a, b, c], [first, second]) => Some(with_entries(
            big,
            small,
            roots,
            [*a, *b, *c],
            [*first, *second],
            vertex(row, "partner"),
        )),
        _ => None,
    }
}
