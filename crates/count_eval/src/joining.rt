//! How a node joins the values of its parts.

ghost use Rattle.std.specs.Prelude.{◌≡◌, ◌||◌};
ghost use Rattle.quantity.specs.Vocabulary.{gives};
ghost use Rattle.count_eval.specs.Rules.{rule, is_zero, is_zero_below, or_zero};
ghost use Rattle.count_eval.specs.Steps.{joined, one_more, whole as whole_of};
ghost use Rattle.count_eval.specs.Stops.{after, placed};
ghost use Rattle.count_eval.specs.Programs.{cell_of, seen, seen_so_far, seen_more};
ghost use Rattle.count_eval.specs.Spots.{combined};

use crate::failure::Failure;
use crate::spot::Spot;
use quantity::{Quantity, QuantityFault};

/// How a node joins its parts, one after the other: a sum adds them, a product multiplies them.
#[derive(Clone, Copy)]
pub enum Joint {
    Adding,
    Multiplying,
}

/// The two, joined.
fn join<Q: Quantity>(joint: Joint, a: &Q, b: &Q) -> Result<Q, QuantityFault>
    ensures { gives Q.numbers result ≡ combined Q.kind joint (Q.numbers a.now) (Q.numbers b.now) }
{
    match joint {
        Joint::Adding => a.add(b),
        Joint::Multiplying => a.mul(b),
    }
}

/// The outcome of an operation at a node.
pub fn outcome<Q: Quantity>(r: Result<Q, QuantityFault>, at: Spot) -> Result<Q, Failure>
    ensures { seen Q.numbers result ≡ placed at.def at.node (cell_of at.cell) (gives Q.numbers r) }
{
    match r {
        Ok(q) => Ok(q),
        Err(why) => Err(Failure { why, at }),
    }
}

/// What there is so far at a node, joined with one more.
pub fn join_more<Q: Quantity>(
    joint: Joint,
    so_far: Option<Q>,
    q: Q,
    at: Spot,
) -> Result<Option<Q>, Failure>
    ensures { seen_more Q.numbers result ≡ joined (combined Q.kind joint) at.def at.node (cell_of at.cell) (seen_so_far Q.numbers so_far) (Q.numbers q) }
{
    match so_far {
        None => Ok(Some(q)),
        Some(a) => {
            let both = outcome(join(joint, &a, &q), at)?;
            Ok(Some(both))
        }
    }
}

/// What there is so far at a node, if it has a value, joined with the outcome of one more part.
pub fn join_outcome<Q: Quantity>(
    joint: Joint,
    so_far: Result<Option<Q>, Failure>,
    part: Result<Q, Failure>,
    at: Spot,
) -> Result<Option<Q>, Failure>
    ensures { seen_more Q.numbers result ≡ after (seen_more Q.numbers so_far) (one_more (combined Q.kind joint) at.def at.node (cell_of at.cell) (seen Q.numbers part)) }
{
    let before = match so_far {
        Ok(before) => before,
        Err(failure) => return Err(failure),
    };
    match part {
        Ok(q) => join_more(joint, before, q, at),
        Err(failure) => Err(failure),
    }
}

/// What there is in the end: an empty sum or product has the given value.
pub fn whole<Q: Quantity>(empty: Q, so_far: Result<Option<Q>, Failure>) -> Result<Q, Failure>
    ensures { seen Q.numbers result ≡ after (seen_more Q.numbers so_far) (whole_of (Q.numbers empty)) }
{
    match so_far {
        Ok(Some(q)) => Ok(q),
        Ok(None) => Ok(empty),
        Err(failure) => Err(failure),
    }
}

/// Whether an operation found that its divisor is 0.
fn is_zero_below<Q: Quantity>(r: &Result<Q, QuantityFault>) -> bool
    ensures { result ≡ is_zero_below r.now }
{
    match r {
        Err(QuantityFault::ZeroBelow) => true,
        _ => false,
    }
}

/// Whether there is a value, and it is 0: then nothing is divided by it.
fn is_zero<Q: Quantity>(value: &Result<Q, Failure>) -> bool
    ensures { result ≡ is_zero Q.kind (seen Q.numbers value.now) }
{
    match value {
        Ok(q) => is_zero_below(&Q::from_ratio(1, 1).div(q)),
        Err(_) => false,
    }
}

/// Whether some part is 0, of those so far and one more.
pub fn zero_so_far<Q: Quantity>(so_far: bool, part: &Result<Q, Failure>) -> bool
    ensures { result ≡ (so_far || is_zero Q.kind (seen Q.numbers part.now)) }
{
    if so_far {
        return true;
    }
    is_zero(part)
}

/// The product, or 0 in its place where it has no value, a product with a factor 0 is 0, and some factor is 0.
pub fn or_zero<Q: Quantity>(
    zero: bool,
    some_zero: bool,
    product: Result<Q, Failure>,
) -> Result<Q, Failure>
    ensures { seen Q.numbers result ≡ or_zero (rule Q.kind zero) some_zero (seen Q.numbers product) }
{
    let failure = match product {
        Ok(q) => return Ok(q),
        Err(failure) => failure,
    };
    if !zero {
        return Err(failure);
    }
    if !some_zero {
        return Err(failure);
    }
    Ok(Q::from_ratio(0, 1))
}
