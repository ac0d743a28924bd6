//! The first node without a value, and why it has none.

use crate::spot::Spot;
use prob_expr::Place;
use quantity::QuantityFault;

/// The first node without a value, and why it has none.
#[derive(Clone, Copy)]
pub struct Failure {
    pub why: QuantityFault,
    pub at: Spot,
}

/// Why a formula has no value at a cell: the first node, in the order of evaluation, at which there is none.
#[derive(Clone, Copy, Debug)]
pub enum EvalFault {
    /// A denominator is 0 there: the cell at the node, with 0 for the vertices that aren't used.
    NoSupport { cell: [u32; 64], place: Place },
    /// The result of the node's operation has a number over 2^127 - 1.
    TooWide { place: Place },
    /// The divisor's lower bound is 0, and its upper bound isn't.
    TooFine { place: Place },
    /// Want of memory: where a formula is prepared, and nowhere else.
    NoMemory,
}
