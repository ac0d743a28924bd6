//! Why there are no values.

use count_eval::EvalFault;

/// Why there are no values at cells.
#[derive(Drop)]
pub enum PairFault {
    /// An evaluation stopped.
    Stopped(EvalFault),
    /// The value at this cell would be below 0.
    Below { cell: Vec<u32> },
}
