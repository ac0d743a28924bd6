//! The laws of the two criteria.

ghost use Rattle.adjustment.specs.Laws.{AdmissibleIsSeparating, BackDoorIsSeparating, AdmissibleAdjusts, BackDoorAdjusts, FaultsFail, AdjustsExactly};

/// The laws of the two criteria.
pub fn laws()
    // The criteria over paths are separation in a graph with fewer arrows.
    ensures admissible { AdmissibleIsSeparating }
    ensures back_door { BackDoorIsSeparating }

    // The formula of such a set is the effect in each positive model.
    ensures adjusts { AdmissibleAdjusts }
    ensures back_door_adjusts { BackDoorAdjusts }

    // That of any other set isn't, in some positive model.
    ensures fails { FaultsFail }
    ensures exact { AdjustsExactly }
{}
