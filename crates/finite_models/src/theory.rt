//! The laws of the models that fit a graph.

ghost use Rattle.finite_models.specs.Laws.{SolutionIsSolution, SolutionIsUnique, SolutionIsAssignment};
ghost use Rattle.finite_models.specs.Laws.{NoInterventionIsObservation, NoEventIsTotal, EachWeightIsPositive, EachGraphHasModel, SoundDataFits, FittingDataIsSound};

/// The laws of the models that fit a graph.
pub fn laws()
    // Under each intervention the solution of a world is the one assignment that solves the model.
    ensures solves { SolutionIsSolution }
    ensures only { SolutionIsUnique }
    ensures in_range { SolutionIsAssignment }

    // The weights at the ends: no intervention, no event.
    ensures observed { NoInterventionIsObservation }
    ensures whole { NoEventIsTotal }

    // A denominator is never 0 in a positive model.
    ensures positive { EachWeightIsPositive }

    // And there is one of each graph.
    ensures some { EachGraphHasModel }

    // Data that is sound means a model that fits.
    ensures fits { SoundDataFits }
    ensures sound { FittingDataIsSound }
{}
