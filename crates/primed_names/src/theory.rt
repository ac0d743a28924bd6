//! Where the primed names stand.

ghost use Rattle.primed_names.specs.Primed.{PrimedStandBehind};

/// The law of primed names.
pub fn laws()
    ensures places { PrimedStandBehind }
{}
