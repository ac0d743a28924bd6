//! What is true of the turned observations, and of the formula that is made with them.

ghost use Rattle.conditional_id.specs.TurnLaws.{DerivedIsConditional, ConditionalIsDerived, ConditionalIsRight, ConditionalIsShallow, DividedIsAccepted, TurnedIsSame, TurnedIsTarget, JointHasHedge, JointExcludesFormula, OneTurned, OneConditional, OneConditionalDerivation};
ghost use Rattle.conditional_id.specs.Settled.{JointSettlesTarget};

/// What follows from the definitions of the turned sets and of the formula, about each formula that
/// is made so and each joint effect whose identification stops.
pub fn laws()
    ensures derived { DerivedIsConditional }
    ensures derivation { ConditionalIsDerived }
    ensures right { ConditionalIsRight }
    ensures shallow { ConditionalIsShallow }
    ensures accepted { DividedIsAccepted }
    ensures same { TurnedIsSame }
    ensures target { TurnedIsTarget }
    ensures hedge { JointHasHedge }
    ensures excludes { JointExcludesFormula }
    ensures settles { JointSettlesTarget }
    ensures one_turned { OneTurned }
    ensures one_formula { OneConditional }
    ensures one_derivation { OneConditionalDerivation }
{}
