//! What is right of nested effects in the observed graph is so in the diagram as drawn.

ghost use Rattle.natural_drawn.specs.Laws.{EachHasNestedFolded, EachHasNestedMatched, RightPartsAreDrawn, RightNestedIsDrawn, NestedLostIsDrawn, NestedDifferenceIsDrawn};
ghost use Rattle.natural_drawn.specs.Laws.{NoIndirectPathIsDrawn, NoDirectPathIsDrawn};

/// The laws of nested effects in the diagram as drawn.
pub fn laws()
    ensures folded { EachHasNestedFolded }
    ensures matched { EachHasNestedMatched }
    ensures parts { RightPartsAreDrawn }
    ensures right { RightNestedIsDrawn }
    ensures lost { NestedLostIsDrawn }
    ensures differ { NestedDifferenceIsDrawn }
    ensures no_indirect { NoIndirectPathIsDrawn }
    ensures no_direct { NoDirectPathIsDrawn }
{}
