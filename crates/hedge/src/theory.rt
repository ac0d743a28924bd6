//! What follows from the definition of a hedge.

ghost use Rattle.hedge.specs.Shapes.{HedgeHasSets, SetsFormHedge};

/// What follows from the definition of a hedge: its choices lead to its roots, and its links join its sets.
pub fn laws()
    ensures sets { HedgeHasSets }
    ensures forms { SetsFormHedge }
{}
