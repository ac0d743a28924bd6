//! The two graphs that are compared.

ghost use Rattle.std.specs.Prelude.{◌≡◌};
ghost use Rattle.markov_equivalence.specs.Sides.{other_side, side_without};

/// One of the two graphs that are compared.
#[derive(Clone, Copy, Debug, PartialEq, Eq)]
pub enum Side {
    First,
    Second,
}

impl Side {
    /// The other one.
    pub fn other(self) -> Side
        ensures { result ≡ other_side self }
    {
        match self {
            Side::First => Side::Second,
            Side::Second => Side::First,
        }
    }
}

/// The graph without what one of the two has alone, by whether the second has it.
pub fn side_without(in_second: bool) -> Side
    ensures { result ≡ side_without in_second }
{
    if in_second { Side::First } else { Side::Second }
}
