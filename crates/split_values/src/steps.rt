//! Steps of an evaluation: whether levels are the same, and where an operation of the value has none.

ghost use Rattle.std.specs.Prelude.{ℕ, ◌≡◌, ◌≤◌, None};
ghost use Rattle.quantity.specs.Vocabulary.{gives};
ghost use Rattle.differences.specs.Vocabulary.{gives_some};
ghost use Rattle.count_eval.specs.Vocabulary.{cell_of, placed};
ghost use Rattle.count_eval.specs.Programs.{seen_more};
ghost use Rattle.split_values.specs.Values.{is_same};
ghost use Rattle.split_values.specs.Outcomes.{as_some, placed_left};

use count_eval::{Failure, Spot};
use differences::Difference;
use mixed_graph::VSet;
use quantity::QuantityFault;

/// Whether the members of x have the same levels at both cells.
pub fn is_same(n: u32, x: VSet, first: &[u32; 64], second: &[u32; 64]) -> bool
    requires few { n ≤ 64 }
    ensures { result ≡ is_same n x.bits (cell_of first.now) (cell_of second.now) }
{
    for v in 0..n {
        if x.has(v as u8) && first[v as usize] != second[v as usize] {
            return false;
        }
    }
    true
}

/// The failure of an operation of the value, node 0.
fn failure(why: QuantityFault, cell: &[u32; 64]) -> Failure
    ensures why { result.why ≡ why }
    ensures def { result.at.def ≡ None }
    ensures node { result.at.node ≡ 0 }
    ensures cell { result.at.cell ≡ cell.now }
{
    let at = Spot {
        def: None,
        node: 0,
        cell: *cell,
    };
    Failure { why, at }
}

/// The outcome of the difference.
pub fn left_over<Q: Difference>(
    r: Result<Option<Q>, QuantityFault>,
    cell: &[u32; 64],
) -> Result<Option<Q>, Failure>
    ensures { seen_more Q.numbers result ≡ placed_left (cell_of cell.now) (gives_some Q.numbers r) }
{
    match r {
        Ok(left) => Ok(left),
        Err(why) => Err(failure(why, cell)),
    }
}

/// The outcome of the division.
pub fn share<Q: Difference>(
    r: Result<Q, QuantityFault>,
    cell: &[u32; 64],
) -> Result<Option<Q>, Failure>
    ensures { seen_more Q.numbers result ≡ as_some (placed None 0 (cell_of cell.now) (gives Q.numbers r)) }
{
    match r {
        Ok(q) => Ok(Some(q)),
        Err(why) => Err(failure(why, cell)),
    }
}
