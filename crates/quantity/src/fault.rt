/// Why an operation has no result.
#[derive(Clone, Copy, Debug, PartialEq, Eq)]
pub enum QuantityFault {
    /// A number would be over 2^127 - 1.
    TooWide,
    /// The divisor's lower bound is 0 and its upper bound isn't.
    TooFine,
    /// The divisor is 0.
    ZeroBelow,
}
