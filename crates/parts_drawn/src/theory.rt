//! What is right of accepted parts in the observed graph is so in the diagram as drawn.

ghost use Rattle.parts_drawn.specs.Laws.{TreatedPartsAreDrawn, AcceptedAmongMakeUp, AcceptedNestedMakeUp};

/// The laws of accepted parts in the diagram as drawn.
pub fn laws()
    ensures parts { TreatedPartsAreDrawn }
    ensures treated { AcceptedAmongMakeUp }
    ensures natural { AcceptedNestedMakeUp }
{}
