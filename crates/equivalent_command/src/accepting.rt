//! What the first graph has to be.

ghost use Rattle.std.specs.Prelude.{Option, IfOk};
ghost use Rattle.equivalent_command.specs.Requests.{Query as AskedQuery, request_of};
ghost use Rattle.equivalent_command.specs.Queries.{AreAsked};
ghost use Rattle.equivalent_command.specs.Firsts.{IsAcceptance};

use crate::faults::bidirected_fault;
use crate::request::Request;
use diagram::{Diagram, asked_query};
use replies::{Reply, refuse};
use std::alloc::{AllocError, Global};
use targets::Sets;

/// What the first graph gives.
#[derive(Drop)]
pub enum Acceptance {
    /// A listed name, an empty set or a bidirected edge is refused.
    Refused(Reply),
    /// The second graph is to be read. The sets are those that are asked about.
    Accepted(Option<Sets>),
}

/// Whether the first graph is accepted: no listed name is at fault, x and y aren't empty, and the observed graph has no bidirected edge.
pub fn accept_first(
    alloc: Global,
    diagram: &Diagram,
    asked: &Request<'_>,
) -> Result<Acceptance, AllocError>
    ensures { let q = request_of asked.now in IfOk result (IsAcceptance diagram.now q.query) }
{
    let Some(lists) = &asked.query else {
        return accept_sets(alloc, diagram, None);
    };
    let (x, y, given) = (
        lists.x.as_slice(),
        lists.y.as_slice(),
        lists.given.as_slice(),
    );
    match asked_query(alloc, diagram, Some(x), Some(y), Some(given)) {
        Ok(sets) => accept_sets(alloc, diagram, Some(sets)),
        Err(fault) => Ok(Acceptance::Refused(refuse(alloc, &fault)?)),
    }
}

/// The same for sets that lists name, or for none: whether the observed graph has no bidirected edge.
fn accept_sets(
    alloc: Global,
    diagram: &Diagram,
    sets: Option<Sets>,
) -> Result<Acceptance, AllocError>
    ensures { (query : Option AskedQuery) → AreAsked diagram.now query sets → IfOk result (IsAcceptance diagram.now query) }
{
    match bidirected_fault(alloc, &diagram.observed)? {
        Some(fault) => Ok(Acceptance::Refused(refuse(alloc, &fault)?)),
        None => Ok(Acceptance::Accepted(sets)),
    }
}
