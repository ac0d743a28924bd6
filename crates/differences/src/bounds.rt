//! Differences of bounds.

ghost use Rattle.std.specs.Prelude.{◌≡◌};

use crate::difference::Difference;
use quantity::{Bounds, QuantityFault};

impl Difference for Bounds {
    ghost use Rattle.quantity.specs.Intervals.{Encloses};
    ghost use Rattle.differences.specs.Kinds.{bounds_minus};
    ghost use Rattle.differences.specs.Laws.Interval.{bounds_difference_lawful};

    ghost difference = { bounds_minus };

    ghost encloses = { Encloses };

    fn subtract(&self, other: &Bounds) -> Result<Option<Bounds>, QuantityFault> {
        if self.hi < other.lo {
            return Ok(None);
        }
        Ok(Some(Bounds {
            lo: self.lo.saturating_sub(other.hi),
            hi: self.hi - other.lo,
        }))
    }

    ghost lawful_difference = { bounds_difference_lawful };
}
