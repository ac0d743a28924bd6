//! Rows that compare two graphs.

ghost use Rattle.std.specs.Prelude.{◌≡◌, ◌≤◌, IfSome};
ghost use Rattle.mixed_graph.specs.Vocabulary.{graph_of};
ghost use Rattle.markov_equivalence.specs.Vocabulary.{HasArrowsAlone};

use case_rows::{Members, all_below, number, pairs};
use markov_equivalence::{Compared, Difference, Side, compare};
use mixed_graph::Graph;
use serde_json::Value;
use std::alloc::Global;

/// The graph with these arrows.
fn with_arrows(n: u32, arrows: &[(u8, u8)]) -> Option<Graph>
    requires { n ≤ 64 }
    ensures size { IfSome result (λ g. g.n ≡ n) }
    ensures arrows { IfSome result (λ g. HasArrowsAlone (graph_of g)) }
{
    if !all_below(n, arrows) {
        return None;
    }
    match Graph::build(n, arrows, &[]) {
        Ok(graph) => Some(graph),
        Err(_) => None,
    }
}

/// A separation in one of the graphs alone.
fn difference_text(alloc: Global, d: Difference) -> Option<String> {
    let (a, b, given) = (d.a, d.b, Members(d.given));
    let place = match d.holds_in {
        Side::First => "first",
        Side::Second => "second",
    };
    format!(in alloc; "{a} and {b} are separated by {given} in the {place} alone\n").ok()
}

/// The comparison of the graphs of two lists of arrows.
fn compared(n: u64, first: &[(u8, u8)], second: &[(u8, u8)]) -> Option<Compared> {
    if n > 64 {
        return None;
    }
    let n = n as u32;
    let first = with_arrows(n, first)?;
    let second = with_arrows(n, second)?;
    Some(compare(&first, &second))
}

/// The comparison of two graphs of arrows.
pub(crate) fn equivalence_row(alloc: Global, row: &Value) -> Option<String> {
    let first = pairs(alloc, row, "first")?;
    let second = pairs(alloc, row, "second")?;
    match compared(number(row, "n"), &first, &second)? {
        Compared::Same => String::from_str(alloc, "equivalent\n").ok(),
        Compared::Edge(d) => {
            let text = difference_text(alloc, d)?;
            format!(in alloc; "edge: {text}").ok()
        }
        Compared::Collider(d, middle) => {
            let text = difference_text(alloc, d)?;
            format!(in alloc; "collider {middle}: {text}").ok()
        }
    }
}
