//! Steps of an evaluation: the levels that a factor reads, and how values are joined.

ghost use Rattle.std.specs.Prelude.{ℕ, ◌≡◌, None, Ok, slice_index};
ghost use Rattle.quantity.specs.Vocabulary.{gives};
ghost use Rattle.count_eval.specs.Vocabulary.{cell_of, placed, whole};
ghost use Rattle.count_eval.specs.Programs.{seen, seen_so_far, seen_more};
ghost use Rattle.count_eval.specs.Steps.{joined};
ghost use Rattle.factor_values.specs.Factors.{read_at};

use count_eval::{Failure, Spot};
use mixed_graph::VSet;
use quantity::{Quantity, QuantityFault};

/// The levels that are read: of the second vertices those of the second cell, of all others those of the first.
pub fn read_at(second: VSet, first: &[u32; 64], other: &[u32; 64]) -> [u32; 64]
    ensures { (v : ℕ) → slice_index result v ≡ read_at second.bits (cell_of first.now) (cell_of other.now) v }
{
    let mut cell = *first;
    for v in 0..64u8 {
        if second.has(v) {
            cell[v as usize] = other[v as usize];
        }
    }
    cell
}

/// The outcome of an operation of the sum, node 1, of the product, node 2, or of the quotient of both with P(given), node 0.
pub fn outcome<Q: Quantity>(
    r: Result<Q, QuantityFault>,
    node: u32,
    cell: &[u32; 64],
) -> Result<Q, Failure>
    ensures { seen Q.numbers result ≡ placed None node (cell_of cell.now) (gives Q.numbers r) }
{
    match r {
        Ok(q) => Ok(q),
        Err(why) => {
            let at = Spot {
                def: None,
                node,
                cell: *cell,
            };
            Err(Failure { why, at })
        }
    }
}

/// What there is so far of the sum, and one more.
pub fn add_more<Q: Quantity>(
    so_far: Option<Q>,
    q: Q,
    cell: &[u32; 64],
) -> Result<Option<Q>, Failure>
    ensures { seen_more Q.numbers result ≡ joined Q.kind.add None 1 (cell_of cell.now) (seen_so_far Q.numbers so_far) (Q.numbers q) }
{
    match so_far {
        None => Ok(Some(q)),
        Some(a) => {
            let both = outcome(a.add(&q), 1, cell)?;
            Ok(Some(both))
        }
    }
}

/// What there is so far of the product, and one more factor.
pub fn multiply_more<Q: Quantity>(
    so_far: Option<Q>,
    q: Q,
    cell: &[u32; 64],
) -> Result<Option<Q>, Failure>
    ensures { seen_more Q.numbers result ≡ joined Q.kind.mul None 2 (cell_of cell.now) (seen_so_far Q.numbers so_far) (Q.numbers q) }
{
    match so_far {
        None => Ok(Some(q)),
        Some(a) => {
            let both = outcome(a.mul(&q), 2, cell)?;
            Ok(Some(both))
        }
    }
}

/// What there is in the end: an empty sum or product has the given value.
pub fn whole<Q: Quantity>(empty: Q, so_far: Option<Q>) -> Q
    ensures { Ok (Q.numbers result) ≡ whole (Q.numbers empty) (seen_so_far Q.numbers so_far) }
{
    match so_far {
        None => empty,
        Some(q) => q,
    }
}
