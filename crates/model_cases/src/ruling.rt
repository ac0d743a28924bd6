//! Rows on independence and the rules.

use case_rows::{Path, graph, number, set};
use do_rules::{are_four_sets, are_three_sets, independence, rule1, rule2, rule3};
use m_separation::OpenPath;
use mixed_graph::Graph;
use serde_json::Value;
use std::alloc::Global;

/// The answer of rule 1, 2 or 3, or for 0 of the independence of y and z.
fn asked(graph: &Graph, row: &Value) -> Option<Result<(), OpenPath>> {
    let (x, y) = (set(row, "x"), set(row, "y"));
    let (z, given) = (set(row, "z"), set(row, "given"));
    let rule = number(row, "rule");
    if rule == 0 {
        return if are_three_sets(graph, y, z, given) {
            Some(independence(graph, y, z, given))
        } else {
            None
        };
    }
    if !are_four_sets(graph, x, y, z, given) || y.bits == 0 {
        return None;
    }
    match rule {
        1 => Some(rule1(graph, x, y, z, given)),
        2 => Some(rule2(graph, x, y, z, given)),
        3 => Some(rule3(graph, x, y, z, given)),
        _ => None,
    }
}

/// Whether a rule holds, or its open path.
pub(crate) fn rule_row(alloc: Global, row: &Value) -> Option<String> {
    match asked(&graph(alloc, row)?, row)? {
        Ok(()) => String::from_str(alloc, "holds\n").ok(),
        Err(path) => {
            let path = Path(&path);
            format!(in alloc; "open path {path}\n").ok()
        }
    }
}
