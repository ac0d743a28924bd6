//! What is right of the observed graph is so in the diagram as drawn.

ghost use Rattle.treated_drawn.specs.Laws.{EachHasBothFolded, RightAmongIsDrawn, JointLostIsDrawn, EachIsBothFolded, DifferingIsDrawn};

/// The laws of two worlds in the diagram as drawn.
pub fn laws()
    ensures folded { EachHasBothFolded }
    ensures right { RightAmongIsDrawn }
    ensures lost { JointLostIsDrawn }
    ensures unfolded { EachIsBothFolded }
    ensures differing { DifferingIsDrawn }
{}
