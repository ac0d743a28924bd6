//! By what an effect is bounded.

/// By what an effect is bounded.
#[derive(Drop)]
pub enum Way {
    /// By the levels of instruments, in strata: names, of which there may be none.
    Instruments {
        given: Vec<Vec<u8>>,
        instruments: Vec<Vec<u8>>,
        strata: Vec<Vec<u8>>,
    },
    /// By adjusting for the set of these names.
    Adjusting {
        set: Vec<Vec<u8>>,
    },
}
