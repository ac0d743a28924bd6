//! The two ends of a bound.

/// An end of what an effect is bounded by.
#[derive(Clone, Copy, Debug, PartialEq, Eq)]
pub enum End {
    /// What the effect is at least.
    AtLeast,
    /// What the effect is at most.
    AtMost,
}
