/// What keeps a model from being folded.
#[derive(Clone, Copy, Debug, PartialEq, Eq)]
pub enum FoldFault {
    /// The table of an observed vertex would have more than 2^20 entries: the lowest such vertex, by its new number.
    TooLarge(u8),
    /// Memory was refused.
    NoMemory,
}
