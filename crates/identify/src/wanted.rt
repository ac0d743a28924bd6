//! What identification is asked for.

/// What is wanted of an effect.
#[derive(Clone, Copy)]
pub enum Wanted {
    /// A formula alone: no step is made, and all lists of steps are empty.
    Formula,
    /// A formula with its derivation.
    Derivation,
}
