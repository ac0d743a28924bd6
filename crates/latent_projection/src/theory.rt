//! What follows from the definition of the observed graph.

ghost use Rattle.latent_projection.specs.Laws.{ObservedIsMixed};

/// What follows from the definition of the observed graph: it is a graph.
pub fn laws()
    ensures mixed { ObservedIsMixed }
{}
