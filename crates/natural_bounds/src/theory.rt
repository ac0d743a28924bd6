//! What the bounds say of models.

ghost use Rattle.natural_bounds.specs.Natural.{NaturalLower, NaturalUpper};
ghost use Rattle.natural_bounds.specs.Orders.{TightestIsTightest, TightestIsOne};
ghost use Rattle.natural_bounds.specs.Bounds.{BoundsHold, CrossedHaveNoModel};
ghost use Rattle.natural_bounds.specs.Drawn.{BoundingIsAsDrawn, NoModelIsAsDrawn};

/// What holds in every model that fits a graph, positive or not, and of the diagram as drawn.
pub fn laws()
    ensures lower { NaturalLower }
    ensures upper { NaturalUpper }
    ensures tightest { TightestIsTightest }
    ensures one { TightestIsOne }
    ensures effect { BoundsHold }
    ensures crossed { CrossedHaveNoModel }
    ensures drawn { BoundingIsAsDrawn }
    ensures none_drawn { NoModelIsAsDrawn }
{}
