//! How a formula is found.

/// How a formula for the effect is found.
#[derive(Drop)]
pub enum Way {
    /// By the identification procedure, whose formula may be shortened.
    Procedure { short: bool },
    /// By adjusting for the set of these names, by the adjustment criterion or the back-door criterion.
    Adjusting { set: Vec<Vec<u8>>, back_door: bool },
    /// By the procedure for effects under a condition, on the vertices of these names; its formula may be shortened.
    Given { names: Vec<Vec<u8>>, short: bool },
}
